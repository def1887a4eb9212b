// The hash tree over a read-only image, after dm-verity: R78 to R87.
//
// What each call returns is defined in specs/Build.antt and specs/Verify.antt, and what is proved of the two together is stated in
// specs/Theorems.antt. The length of a tree is passed on from crate tree_path. Counts and indexes are usize, 64 bits on every target: none is cut off
// before it is tested.
#![tactic(auto)]

mod compare;

ghost use Rattle.std.specs.Prelude.{◌≡◌, MatchResult};
ghost use Rattle.tree.specs.Answer.{refusal_of, answer_of};
ghost use Rattle.tree.specs.Acceptance.{InRange};
ghost use Rattle.tree.specs.Build.{outcome_of, build_of};
ghost use Rattle.tree.specs.Verify.{verify_of};

use digest::DIGEST_SIZE;
pub use tree_path::places::length;
use tree_path::{path, places};

// Why a call is refused; specs/Answer.antt has the number and values of each (R71).
#[derive(Clone, Copy, Debug, PartialEq, Eq)]
pub enum Refusal {
    // 1: a loan's length.
    WrongLength,
    // 2: the count, the salt's length or the index.
    OutOfRange,
    // 12: the digest of the data block, level −1, is not what stands above it.
    DataDiffers,
    // 12: the digest of the hash block of this level is not what stands above it.
    LevelDiffers(usize),
}

// The number of a refusal, R71.
impl From<Refusal> for u32 {
    ghost from_gives = { λ r n. n ≡ (refusal_of r).number };

    fn from(r: Refusal) -> u32 {
        match r {
            Refusal::WrongLength => 1,
            Refusal::OutOfRange => 2,
            Refusal::DataDiffers | Refusal::LevelDiffers(_) => 12,
        }
    }
}

// Whether the count and the salt's length are in range, which both calls ask.
fn check_range(count: usize, salt: &[u8]) -> Result<(), Refusal>
    ensures { MatchResult result (λ _. InRange count salt.now) (λ r. (r ≡ Refusal.OutOfRange) × ¬ (InRange count salt.now)) }
{
    if (1..=places::MOST_BLOCKS).contains(&count) && salt.len() <= places::LONGEST_SALT {
        Ok(())
    } else {
        Err(Refusal::OutOfRange)
    }
}

// Builds the tree over an image of count data blocks into the tree loan, and returns the root digest.
pub fn build(
    count: usize,
    salt: &[u8],
    image: &[u8],
    tree: &mut [u8],
) -> Result<[u8; DIGEST_SIZE], Refusal>
    ensures { outcome_of result tree.new ≡ build_of count salt.now image.now tree.old }
{
    check_range(count, salt)?;
    if image.len() != count * places::BLOCK_SIZE {
        return Err(Refusal::WrongLength);
    }
    if tree.len() != places::tree_length(count) {
        return Err(Refusal::WrongLength);
    }
    Ok(tree_levels::fill(tree, count, salt, image))
}

// Verifies the data block with this index against the tree and the root digest.
pub fn verify(
    block: &[u8],
    index: usize,
    tree: &[u8],
    count: usize,
    salt: &[u8],
    root: &[u8],
) -> Result<(), Refusal>
    ensures { answer_of result ≡ verify_of block.now index tree.now count salt.now root.now }
{
    if block.len() != places::BLOCK_SIZE {
        return Err(Refusal::WrongLength);
    }
    if root.len() != DIGEST_SIZE {
        return Err(Refusal::WrongLength);
    }
    check_range(count, salt)?;
    if count <= index {
        return Err(Refusal::OutOfRange);
    }
    if tree.len() != places::tree_length(count) {
        return Err(Refusal::WrongLength);
    }
    let h = places::levels(count);
    let at = path::places(h, count, index);
    let digests = path::computed(h, salt, tree, block, at);
    compare::compare(h, digests, at, tree, root)
}
