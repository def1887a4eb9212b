// The tag of one sector: R51. Read and verify test it; it is no call, and crate volume does not pass it on.
ghost use Rattle.std.specs.Prelude.{true, ◌≡◌, ◌*◌, ◌≤◌, ◌<◌, length};
ghost use Rattle.octets.specs.Sectors.{sector_size};
ghost use Rattle.on_disk.specs.Layout.{needed, layout_ok};
ghost use Rattle.model.specs.Verify.{tag_fits};
ghost use Rattle.sound.specs.Rule.{tag_by};

use layout::SECTOR_SIZE;
use on_disk::Layout;
use sound::tag::Rule;

// Whether the tag of a sector fits its data.
pub fn tag_fits(rule: Rule, v: &[u8], g: Layout, sector: usize) -> bool
    requires { (layout_ok g ≡ true) × (needed g * sector_size ≤ length v.now) × (sector < g.provided) }
    ensures { result ≡ tag_fits (tag_by rule) g v.now sector }
{
    let start = layout::data_at(g, sector) * SECTOR_SIZE;
    let end = start + SECTOR_SIZE;
    let digest = rule.tag(sector, &v[start..end]);
    octets::same_at(v, layout::tag_byte(g, sector), &digest, 0, g.width)
}
