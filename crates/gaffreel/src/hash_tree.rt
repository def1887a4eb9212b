// The calls of the hash tree (dm-verity, format 1), by crate c_tree, which says what each leaves.
ghost use Rattle.std.specs.Prelude.{◌≡◌};
ghost use Rattle.c_tree.specs.HashTree.{length_call, build_call, verify_call};

// The length in bytes of the tree over so many data blocks, 0 for one; 0 too where there cannot be so many.
#[unsafe(no_mangle)]
pub extern "C" fn gaffreel_tree_length(count: usize) -> usize
    ensures { result ≡ length_call count }
{
    c_tree::tree_length(count)
}

// The tree over an image of so many data blocks, and its root digest.
#[unsafe(no_mangle)]
pub extern "C" fn gaffreel_tree_build(
    count: usize,
    salt: &[u8],
    image: &[u8],
    tree: &mut [u8],
    root: &mut [u8],
) -> u32
    ensures { record { number = result; tree = tree.new; root = root.new }
        ≡ build_call count salt.now image.now tree.old root.old }
{
    c_tree::build(count, salt, image, tree, root)
}

// Whether the data block with this index verifies.
#[unsafe(no_mangle)]
pub extern "C" fn gaffreel_tree_verify(
    block: &[u8],
    index: usize,
    tree: &[u8],
    count: usize,
    salt: &[u8],
    root: &[u8],
    level: &mut [u8],
) -> u32
    ensures { record { number = result; buffer = level.new }
        ≡ verify_call block.now index tree.now count salt.now root.now level.old }
{
    c_tree::verify(block, index, tree, count, salt, root, level)
}
