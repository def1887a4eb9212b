// Hash trees over a patterned image, built and verified, and the answers to damage.
//
// A line for each count and salt: `count N salt S root R tree T accepted A`, with the salt's length, the root digest, the digest of the
// tree's bytes, and how many blocks of the image verify at their own index. tests/tree_vectors.sh has veritysetup make the trees again.
// Then a line for each damage: what is damaged, the answer's number (R71), and for 12 the level that it names.
//
// Byte i of the image is (7 i + 13 (i div 4096)) mod 256, and byte i of a salt is (31 i + 5) mod 256.
#![tactic(auto)]

mod damage;
mod report;

use digest::DIGEST_SIZE;
use std::io::{self, BufWriter, Write};
use tree_path::places::BLOCK_SIZE;

// The bytes of the image, 300 blocks.
const IMAGE: usize = 1228800;

// The bytes of the longest tree, 4 blocks.
const TREE: usize = 16384;

// The bytes that each salt is the first of: the longest salt, and one more.
const SALT: usize = 33;

fn main(rt: HostRuntime) -> io::Result<()> {
    let mut image = [0u8; IMAGE];
    let mut out = BufWriter::new(rt.alloc(), io::writer(&rt))?;
    lines(&mut out, &mut image)?;
    out.flush()
}

// All lines, with the image that is made in this loan.
fn lines<W: Write>(out: &mut W, image: &mut [u8]) -> io::Result<()> {
    fill_image(image);
    let mut salt = [0u8; SALT];
    fill_salt(&mut salt);
    trees(out, image, &salt)?;
    damage::answers(out, image, &salt)
}

fn fill_image(s: &mut [u8]) {
    for (i, byte) in s.iter_mut().enumerate() {
        *byte = ((7 * (i % 256) + 13 * (i / BLOCK_SIZE % 256)) % 256) as u8;
    }
}

fn fill_salt(s: &mut [u8]) {
    for (i, byte) in s.iter_mut().enumerate() {
        *byte = ((31 * (i % 256) + 5) % 256) as u8;
    }
}

// The bytes of s from index from up to index to; none where s is too short.
pub(crate) fn span(s: &[u8], from: usize, to: usize) -> &[u8] {
    s.get(from..to).unwrap_or(&s[..0])
}

fn trees<W: Write>(out: &mut W, image: &[u8], salt: &[u8]) -> io::Result<()> {
    let mut tree = [0u8; TREE];
    for count in [1, 2, 127, 128, 129, 300] {
        salts(out, image, salt, count, &mut tree)?;
    }
    Ok(())
}

// The trees over this many blocks of the image, with each salt.
fn salts<W: Write>(
    out: &mut W,
    image: &[u8],
    salt: &[u8],
    count: usize,
    tree: &mut [u8],
) -> io::Result<()> {
    let all = span(image, 0, count.saturating_mul(BLOCK_SIZE));
    for size in [0, 8, 32] {
        vector(out, all, span(salt, 0, size), count, tree)?;
    }
    Ok(())
}

// One tree, made in the first bytes of the loan.
fn vector<W: Write>(
    out: &mut W,
    image: &[u8],
    salt: &[u8],
    count: usize,
    tree: &mut [u8],
) -> io::Result<()> {
    match tree.get_mut(..tree::length(count)) {
        Some(part) => line(out, image, salt, count, part),
        None => Ok(()),
    }
}

fn line<W: Write>(
    out: &mut W,
    image: &[u8],
    salt: &[u8],
    count: usize,
    tree: &mut [u8],
) -> io::Result<()> {
    let root = tree::build(count, salt, image, tree).unwrap_or([0; DIGEST_SIZE]);
    write!(out, "count {count} salt {} root ", salt.len())?;
    hexadecimal::print(out, &root)?;
    out.write_all(b" tree ")?;
    hexadecimal::print(out, &digest_of(tree))?;
    let accepted = accepted(image, salt, count, tree, &root);
    writeln!(out, " accepted {accepted}")
}

fn digest_of(s: &[u8]) -> [u8; DIGEST_SIZE] {
    digest::sha256(s).unwrap_or([0; DIGEST_SIZE])
}

// How many blocks of the image are accepted at their own index.
fn accepted(image: &[u8], salt: &[u8], count: usize, tree: &[u8], root: &[u8]) -> usize {
    image
        .chunks_exact(BLOCK_SIZE)
        .enumerate()
        .filter(|(i, block)| tree::verify(block, *i, tree, count, salt, root).is_ok())
        .count()
}
