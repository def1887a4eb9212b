// Where the parts of a hash tree stand: specs/Places.antt.
//
// Each function is over h, a number of levels, and m, a number of blocks that they stand above, or over n, a number of data blocks.
ghost use Rattle.std.specs.Prelude.{◌+◌, ◌*◌, ◌<◌, ◌≤◌, ◌≡◌};
ghost use Rattle.tree_path.specs.Places.{most_blocks, most_levels, parents_of, levels_of, hash_blocks_of, first_block_of, digest_at, tree_length, length_of};

// The length of a data block and of a hash block, in bytes.
pub const BLOCK_SIZE: usize = 4096;

// The digests in a full hash block.
pub const DIGESTS_PER_BLOCK: usize = 128;

// The most data blocks.
pub const MOST_BLOCKS: usize = 16384;

// The longest salt, in bytes.
pub const LONGEST_SALT: usize = 32;

// The most digests on a path: the data block's, and one for each level.
pub const MOST_DIGESTS: usize = 3;

// Hash blocks that hold the digests of m blocks.
pub fn parents(m: usize) -> usize
    requires { m ≤ most_blocks }
    ensures { (result ≡ parents_of m) × (result ≤ m) }
{
    m.div_ceil(DIGESTS_PER_BLOCK)
}

// Levels of the tree over n data blocks.
pub fn levels(n: usize) -> usize
    requires { n ≤ most_blocks }
    ensures { (result ≡ levels_of n) × (result ≤ most_levels) }
{
    let mut m = n;
    let mut h = 0;
    while 1 < m {
        m = parents(m);
        h += 1;
    }
    h
}

// Hash blocks in h levels above m blocks.
pub fn hash_blocks(h: usize, m: usize) -> usize
    requires { (h ≤ most_levels) × (m ≤ most_blocks) }
    ensures { (result ≡ hash_blocks_of h m) × (result ≤ most_levels * most_blocks) }
{
    let mut below = m;
    let mut all = 0;
    for _ in 0..h {
        below = parents(below);
        all += below;
    }
    all
}

// The hash block at which the level right above m blocks begins, h levels being above that level.
pub fn first_block(h: usize, m: usize) -> usize
    requires { (h < most_levels) × (m ≤ most_blocks) }
    ensures { (result ≡ first_block_of h m) × (result ≤ most_levels * most_blocks) }
{
    hash_blocks(h, parents(m))
}

// The byte of the tree at which the digest of block i of m stands, h levels being above the level that it stands in.
pub fn digest_at(h: usize, m: usize, i: usize) -> usize
    requires { (h < most_levels) × (m ≤ most_blocks) × (i < m) }
    ensures { result ≡ digest_at h m i }
{
    first_block(h, m) * BLOCK_SIZE + i * digest::DIGEST_SIZE
}

// The length in bytes of the tree over n data blocks.
pub fn tree_length(n: usize) -> usize
    requires { n ≤ most_blocks }
    ensures { result ≡ tree_length n }
{
    hash_blocks(levels(n), n) * BLOCK_SIZE
}

// The same for any count; 0 too where there cannot be so many.
pub fn length(n: usize) -> usize
    ensures { result ≡ length_of n }
{
    if (1..=MOST_BLOCKS).contains(&n) {
        tree_length(n)
    } else {
        0
    }
}
