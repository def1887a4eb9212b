// The path from a data block to the root digest: where its digests stand, and the digests computed along it. specs/Path.antt.
ghost use Rattle.std.specs.Prelude.{ℕ, ◌+◌, ◌-◌, ◌*◌, ◌/◌, ◌<◌, ◌≤◌, ◌≡◌, ◌++◌, length, get_or, take, replicate};
ghost use Rattle.digest.specs.Sha256.{digest_size};
ghost use Rattle.tree_path.specs.Places.{block_size, most_blocks, most_levels, longest_salt, places_of};
ghost use Rattle.tree_path.specs.Path.{computed_of};

use crate::{block_digest, places};
use digest::DIGEST_SIZE;

// Where the digests along the path of block i of m stand, the lowest first, and zeros behind them.
pub fn places(h: usize, m: usize, i: usize) -> [usize; places::MOST_DIGESTS]
    requires { (h ≤ most_levels) × (m ≤ most_blocks) × (i < m) }
    ensures { result ≡ places_of h m i ++ replicate (most_levels + 1 - h) 0 }
{
    let mut r = [0usize; places::MOST_DIGESTS];
    let mut below = m;
    let mut at = i;
    for j in 0..h {
        r[j] = places::digest_at(h - 1 - j, below, at);
        below = places::parents(below);
        at /= places::DIGESTS_PER_BLOCK;
    }
    r
}

// The digests computed along the path, filled in upwards: the data block's, and that of each hash block in which one of the h places lies; zeros behind
// them.
pub fn computed(
    h: usize,
    salt: &[u8],
    tree: &[u8],
    block: &[u8],
    at: [usize; places::MOST_DIGESTS],
) -> [[u8; DIGEST_SIZE]; places::MOST_DIGESTS]
    requires { (h ≤ most_levels) × (length salt.now ≤ longest_salt) × (length block.now ≡ block_size) × ((j : ℕ) → j < h → get_or at j 0 / block_size * block_size + block_size ≤ length tree.now) }
    ensures { result ≡ computed_of salt.now tree.now block.now (take h at) ++ replicate (most_levels - h) (replicate digest_size 0) }
{
    let mut r = [[0u8; DIGEST_SIZE]; places::MOST_DIGESTS];
    r[0] = block_digest(salt, block);
    for j in 0..h {
        let from = at[j] / places::BLOCK_SIZE * places::BLOCK_SIZE;
        r[j + 1] = block_digest(salt, &tree[from..from + places::BLOCK_SIZE]);
    }
    r
}
