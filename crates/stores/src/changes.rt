// The bytes that a store changes: of a data sector all, of a sector with tags those of one tag. To store them alone leaves the same volume, and moves less. For the
// crates of this repository, as the stores themselves.
ghost use Rattle.std.specs.Prelude.{List, ◌≡◌, ℕ, ◌*◌, ◌≤◌, length};
ghost use Rattle.octets.specs.Sectors.{sector_size};
ghost use Rattle.on_disk.specs.Layout.{needed};
ghost use Rattle.on_disk.specs.Section.{entry_of};
ghost use Rattle.model.specs.Store.{home_store};
ghost use Rattle.stores.specs.Asked.{StoreOfEntry};
ghost use Rattle.stores.specs.Changes.{Changes};

use crate::tags;
use layout::SECTOR_SIZE;
use on_disk::Layout;

// So many bytes of the volume, from its byte `byte` on. They lie in one sector.
#[derive(Clone, Copy)]
pub struct Part {
    pub byte: usize,
    pub size: usize,
}

// Fills the front of `out`, which is as long as a sector, with the bytes that store h changes, of those that bring entry i of a section home, and gives
// where they lie. It stores nothing.
pub fn home_part(
    g: Layout,
    section: &[u8],
    i: usize,
    sector: usize,
    h: usize,
    out: &mut [u8],
) -> Part
    requires { StoreOfEntry g section.now i sector h × (length out.old ≡ sector_size) }
    ensures { (v : List ℕ) → needed g * sector_size ≤ length v → Changes v (home_store g v (entry_of g.width section.now i) h) result out.new }
{
    if h == 0 {
        section::entry_data(section, g.width, i, out);
        return Part {
            byte: layout::data_at(g, sector) * SECTOR_SIZE,
            size: SECTOR_SIZE,
        };
    }
    let tag = section::entry_tag(section, g.width, i);
    let p = tags::tag_piece(g, sector, h);
    octets::copy_at(out, 0, tag, p.from, p.size);
    Part {
        byte: p.byte,
        size: p.size,
    }
}
