// The levels of a hash tree, filled in from the data up. What they are is defined in tree_path/specs/Tree.antt.
//
// These are helpers for the call that builds a tree, which has tested every length. So each requires what was tested.
#![tactic(auto)]

ghost use Rattle.std.specs.Prelude.{◌*◌, ◌<◌, ◌≤◌, ◌≡◌, length};
ghost use Rattle.tree_path.specs.Places.{block_size, most_blocks, longest_salt, parents_of, levels_of, tree_length};
ghost use Rattle.tree_path.specs.Tree.{level_of, tree_of, root_of};

use digest::DIGEST_SIZE;
use tree_path::{block_digest, places};

// The level above the m blocks: their digests, and zeros to the end of its last block.
fn fill_level(level: &mut [u8], salt: &[u8], blocks: &[u8], m: usize)
    requires { (length salt.now ≤ longest_salt) × (m ≤ most_blocks) × (length blocks.now ≡ m * block_size) × (length level.old ≡ parents_of m * block_size) }
    ensures { level.new ≡ level_of salt.now m blocks.now }
{
    for (i, block) in blocks.chunks_exact(places::BLOCK_SIZE).enumerate() {
        let at = i * DIGEST_SIZE;
        level[at..at + DIGEST_SIZE].copy_from_slice(&block_digest(salt, block));
    }
    level[m * DIGEST_SIZE..].fill(0);
}

// All levels of the tree over the n data blocks of the image, and the root digest. One block has no level above it, and its own digest is the root digest.
pub fn fill(tree: &mut [u8], n: usize, salt: &[u8], image: &[u8]) -> [u8; DIGEST_SIZE]
    requires { (0 < n) × (n ≤ most_blocks) × (length salt.now ≤ longest_salt) × (length image.now ≡ n * block_size) × (length tree.old ≡ tree_length n) }
    ensures { (result ≡ root_of (levels_of n) salt.now n image.now) × (tree.new ≡ tree_of (levels_of n) salt.now n image.now) }
{
    let h = places::levels(n);
    if h == 0 {
        return block_digest(salt, image);
    }
    let mut first = places::first_block(h - 1, n);
    fill_level(&mut tree[first * places::BLOCK_SIZE..], salt, image, n);
    let mut m = places::parents(n);
    // A level ends where the one below it, whose blocks it has the digests of, begins.
    for left in (0..h - 1).rev() {
        let (above, below) = tree.split_at_mut(first * places::BLOCK_SIZE);
        first = places::first_block(left, m);
        fill_level(
            &mut above[first * places::BLOCK_SIZE..],
            salt,
            &below[..m * places::BLOCK_SIZE],
            m,
        );
        m = places::parents(m);
    }
    block_digest(salt, &tree[..places::BLOCK_SIZE])
}
