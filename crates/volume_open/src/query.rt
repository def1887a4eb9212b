// Query: the model's specs/Query.antt.
ghost use Rattle.std.specs.Prelude.{◌≡◌};
ghost use Rattle.model.specs.Refusal.{query_answer};
ghost use Rattle.model.specs.Query.{query_of};

use layout::{MOST_RESERVED, SECTOR_SIZE, SUPERBLOCK_SIZE, superblock};
use model::{Held, Refusal};

// The numbers that the superblock holds, and the bytes of the staging loan that open takes with them.
pub fn query(v: &[u8], r: usize) -> Result<Held, Refusal>
    ensures { query_answer result ≡ query_of r v.now }
{
    if !layout::volume_loan_ok(v) {
        return Err(Refusal::Malformed);
    }
    if MOST_RESERVED < r {
        return Err(Refusal::Parameter);
    }
    if v.len() < (r + SUPERBLOCK_SIZE) * SECTOR_SIZE {
        return Err(Refusal::Short(r + SUPERBLOCK_SIZE));
    }
    let block = superblock::superblock_at(v, r);
    if superblock::is_zero(block) {
        return Err(Refusal::Superblock);
    }
    if !superblock::superblock_ok(r, block) {
        return Err(Refusal::Invalid);
    }
    let layout = superblock::layout_in(r, block);
    let needed = layout::needed(layout);
    if v.len() < needed * SECTOR_SIZE {
        return Err(Refusal::Short(needed));
    }
    let staging = layout::section_size(layout.width) * SECTOR_SIZE;
    Ok(Held { layout, staging })
}
