// The answers to damage: of a tree over 129 blocks, which has two levels, and of one over one block, which is empty, with a salt of 8 bytes; and of what
// building is lent.
//
// Block 0 of the tree is level 1, its zeros from byte 64 on. Block 1 is level 0 for the data blocks 0 to 127; block 2 is level 0 for block 128, its zeros
// from byte 8,224 on. The data block is block 5 where nothing else is said; its digest stands at byte 4,256.
use crate::{report, span};
use digest::DIGEST_SIZE;
use std::io::{self, Write};
use tree_path::places::BLOCK_SIZE;

const COUNT: usize = 129;

const IMAGE: usize = 528384;

const TREE: usize = 12288;

// What verifying is lent.
#[derive(Clone, Copy)]
struct Loans<'a> {
    block: &'a [u8],
    index: usize,
    tree: &'a [u8],
    count: usize,
    salt: &'a [u8],
    root: &'a [u8],
}

impl<'a> Loans<'a> {
    // The same loans with another block, root digest, salt or tree.
    fn with_block(self, block: &'a [u8]) -> Loans<'a> {
        Loans { block, ..self }
    }

    fn with_root(self, root: &'a [u8]) -> Loans<'a> {
        Loans { root, ..self }
    }

    fn with_salt(self, salt: &'a [u8]) -> Loans<'a> {
        Loans { salt, ..self }
    }

    fn with_tree(self, tree: &'a [u8]) -> Loans<'a> {
        Loans { tree, ..self }
    }
}

pub(crate) fn answers<W: Write>(out: &mut W, image: &[u8], salts: &[u8]) -> io::Result<()> {
    let salt = span(salts, 0, 8);
    let mut tree = [0u8; TREE];
    let built = tree::build(COUNT, salt, span(image, 0, IMAGE), &mut tree);
    let root = built.unwrap_or([0; DIGEST_SIZE]);
    let five = Loans {
        block: span(image, 20480, 24576),
        index: 5,
        tree: &tree,
        count: COUNT,
        salt,
        root: &root,
    };
    let last = Loans {
        block: span(image, 524288, 528384),
        index: 128,
        ..five
    };
    blocks(out, salts, five, last)?;
    block_bit(out, b"bit of the data block", five)?;
    root_bit(out, b"bit of the root digest", five)?;
    level_0(out, five, last)?;
    level_1(out, five)?;
    lengths(out, image, salts, five)?;
    ranges(out, five)?;
    building(out, image, salts)?;
    one_block(out, span(image, 0, BLOCK_SIZE), salts)
}

// The answer to verifying.
fn verified<W: Write>(out: &mut W, name: &[u8], loans: Loans) -> io::Result<()> {
    let Loans {
        block,
        index,
        tree,
        count,
        salt,
        root,
    } = loans;
    out.write_all(name)?;
    report::answer(out, tree::verify(block, index, tree, count, salt, root))
}

// The N bytes of s, with the lowest bit inverted of those at these places.
fn flipped<const N: usize>(s: &[u8], places: &[usize]) -> [u8; N] {
    let mut damaged = <[u8; N]>::try_from(s).unwrap_or([0; N]);
    for at in places {
        if let Some(byte) = damaged.get_mut(*at) {
            *byte ^= 1;
        }
    }
    damaged
}

// Nothing, the index and the salt.
fn blocks<W: Write>(out: &mut W, salts: &[u8], five: Loans, last: Loans) -> io::Result<()> {
    let below_another = b"index of a block below another hash block";
    let other = span(salts, 1, 9);
    let shorter = span(salts, 0, 7);
    verified(out, b"nothing", five)?;
    verified(out, b"nothing, block 128", last)?;
    verified(out, b"index of the next block", Loans { index: 6, ..five })?;
    verified(out, below_another, Loans { index: 128, ..five })?;
    verified(
        out,
        b"other salt",
        Loans {
            salt: other,
            ..five
        },
    )?;
    verified(
        out,
        b"shorter salt",
        Loans {
            salt: shorter,
            ..five
        },
    )
}

// A bit of the data block.
fn block_bit<W: Write>(out: &mut W, name: &[u8], loans: Loans) -> io::Result<()> {
    let block = flipped::<BLOCK_SIZE>(loans.block, &[100]);
    verified(
        out,
        name,
        Loans {
            block: &block,
            ..loans
        },
    )
}

// A bit of the root digest.
fn root_bit<W: Write>(out: &mut W, name: &[u8], loans: Loans) -> io::Result<()> {
    let root = flipped::<DIGEST_SIZE>(loans.root, &[31]);
    verified(out, name, loans.with_root(&root))
}

// Bits of the tree, in the bytes at these places.
fn tree_bits<W: Write>(out: &mut W, name: &[u8], places: &[usize], loans: Loans) -> io::Result<()> {
    let tree = flipped::<TREE>(loans.tree, places);
    verified(out, name, loans.with_tree(&tree))
}

// Level 0 on the path.
fn level_0<W: Write>(out: &mut W, five: Loans, last: Loans) -> io::Result<()> {
    tree_bits(out, b"bit of the data block's digest", &[4256], five)?;
    tree_bits(out, b"bit of another digest in level 0", &[7296], five)?;
    tree_bits(out, b"bit of level 0's padding, block 128", &[12287], last)?;
    tree_bits(out, b"bit of a hash block off the path", &[8192], five)
}

// Level 1, and both levels at once.
fn level_1<W: Write>(out: &mut W, five: Loans) -> io::Result<()> {
    tree_bits(out, b"bit of level 0's digest", &[0], five)?;
    tree_bits(out, b"bit of another digest in level 1", &[32], five)?;
    tree_bits(out, b"bit of level 1's padding", &[4095], five)?;
    tree_bits(out, b"bits of level 0 and of level 1", &[4256, 32], five)
}

// The length of each loan.
fn lengths<W: Write>(out: &mut W, image: &[u8], salts: &[u8], five: Loans) -> io::Result<()> {
    let short_block = span(image, 20480, 24575);
    let long_block = span(image, 20480, 24577);
    let short_root = span(five.root, 0, 31);
    let short_tree = span(five.tree, 0, 12287);
    let long_tree = span(image, 0, 12289);
    verified(out, b"short block", five.with_block(short_block))?;
    verified(out, b"long block", five.with_block(long_block))?;
    verified(out, b"short root digest", five.with_root(short_root))?;
    verified(out, b"long root digest", five.with_root(salts))?;
    verified(out, b"long salt", five.with_salt(salts))?;
    verified(out, b"short tree", five.with_tree(short_tree))?;
    verified(out, b"long tree", five.with_tree(long_tree))
}

// The count and the index.
fn ranges<W: Write>(out: &mut W, five: Loans) -> io::Result<()> {
    let none = Loans {
        index: 0,
        count: 0,
        ..five
    };
    let outside = Loans {
        index: COUNT,
        ..five
    };
    verified(out, b"count 0", none)?;
    verified(
        out,
        b"count 16385",
        Loans {
            count: 16385,
            ..five
        },
    )?;
    verified(out, b"count 128", Loans { count: 128, ..five })?;
    verified(out, b"count 130", Loans { count: 130, ..five })?;
    verified(out, b"index of no block", outside)?;
    verified(
        out,
        b"index of no block, no tree",
        Loans {
            tree: &[],
            ..outside
        },
    )?;
    verified(out, b"count 0, no root digest", Loans { root: &[], ..none })
}

// The answer to building, with a tree loan of three blocks.
fn built<W: Write>(
    out: &mut W,
    name: &[u8],
    count: usize,
    salt: &[u8],
    image: &[u8],
) -> io::Result<()> {
    let mut tree = [0u8; TREE];
    built_in(out, name, count, salt, image, &mut tree)
}

// The same with this tree loan.
fn built_in<W: Write>(
    out: &mut W,
    name: &[u8],
    count: usize,
    salt: &[u8],
    image: &[u8],
    tree: &mut [u8],
) -> io::Result<()> {
    out.write_all(name)?;
    report::answer(out, tree::build(count, salt, image, tree).map(|_| ()))
}

// What building is lent.
fn building<W: Write>(out: &mut W, image: &[u8], salts: &[u8]) -> io::Result<()> {
    let all = span(image, 0, IMAGE);
    let salt = span(salts, 0, 8);
    built(out, b"build", COUNT, salt, all)?;
    built(out, b"build, count 0", 0, salt, all)?;
    built(out, b"build, count 16385", 16385, salt, all)?;
    built(out, b"build, long salt", COUNT, salts, all)?;
    built(out, b"build, long salt, short image", COUNT, salts, salt)?;
    built(
        out,
        b"build, short image",
        COUNT,
        salt,
        span(image, 0, 528383),
    )?;
    built(
        out,
        b"build, long image",
        COUNT,
        salt,
        span(image, 0, 528385),
    )?;
    built(out, b"build, long tree", 128, salt, span(image, 0, 524288))?;
    built(
        out,
        b"build, short tree",
        257,
        salt,
        span(image, 0, 1052672),
    )
}

// One data block: its own digest is the root digest, and no hash block stands above it.
fn one_block<W: Write>(out: &mut W, block: &[u8], salts: &[u8]) -> io::Result<()> {
    let salt = span(salts, 0, 8);
    let root = tree::build(1, salt, block, &mut []).unwrap_or([0; DIGEST_SIZE]);
    let only = Loans {
        block,
        index: 0,
        tree: &[],
        count: 1,
        salt,
        root: &root,
    };
    one_verified(out, salts, only)?;
    block_bit(out, b"one block, bit of it", only)?;
    root_bit(out, b"one block, bit of the root digest", only)?;
    one_built(out, block, salt)
}

// Its salt, its index and the length of its tree.
fn one_verified<W: Write>(out: &mut W, salts: &[u8], only: Loans) -> io::Result<()> {
    let other = span(salts, 1, 9);
    let byte = span(only.block, 0, 1);
    let hash_block = Loans {
        tree: only.block,
        ..only
    };
    let both = b"one block, index 1, tree of a hash block";
    verified(out, b"one block", only)?;
    verified(
        out,
        b"one block, other salt",
        Loans {
            salt: other,
            ..only
        },
    )?;
    verified(out, b"one block, index 1", Loans { index: 1, ..only })?;
    verified(
        out,
        both,
        Loans {
            index: 1,
            ..hash_block
        },
    )?;
    verified(
        out,
        b"one block, tree of a byte",
        Loans { tree: byte, ..only },
    )?;
    verified(out, b"one block, tree of a hash block", hash_block)
}

// Building over one data block with a tree loan that is not empty.
fn one_built<W: Write>(out: &mut W, only: &[u8], salt: &[u8]) -> io::Result<()> {
    let mut byte = [0u8; 1];
    built_in(
        out,
        b"build, one block, tree of a byte",
        1,
        salt,
        only,
        &mut byte,
    )?;
    let mut whole = [0u8; BLOCK_SIZE];
    built_in(
        out,
        b"build, one block, tree of a hash block",
        1,
        salt,
        only,
        &mut whole,
    )
}
