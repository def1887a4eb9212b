// The hash tree on buffers, as crate gaffreel exports it: R78 to R87. What each call leaves is defined in specs/HashTree.antt.
//
// A call takes numbers and byte slices, and one that can refuse answers a number, as those of crate c_digest do. After a
// refusal every buffer is as it was, but for one that receives what the refusal also returns.
#![tactic(auto)]

ghost use Rattle.std.specs.Prelude.{◌≡◌, length};
ghost use Rattle.octets.specs.Answer.{refused};
ghost use Rattle.tree.specs.Answer.{refusal_of};
ghost use Rattle.c_numbers.specs.Sizes.{level_size};
ghost use Rattle.c_tree.specs.HashTree.{level_buffer_of, length_call, build_call, verify_call};

use c_digest::state::put_digest;
use c_numbers::{digest_size, done, level_size, wrong_length};
use tree::Refusal;

// The level of the data block, −1, in 4 bytes.
const DATA_LEVEL: u64 = 4294967295;

// The length in bytes of the tree over so many data blocks, 0 for one; 0 too where there cannot be so many.
pub fn tree_length(count: usize) -> usize
    ensures { result ≡ length_call count }
{
    tree::length(count)
}

// The tree over an image of so many data blocks, and its root digest. Refused where the root digest's buffer has a wrong length, or as
// building is.
pub fn build(count: usize, salt: &[u8], image: &[u8], tree: &mut [u8], root: &mut [u8]) -> u32
    ensures { record { number = result; tree = tree.new; root = root.new }
        ≡ build_call count salt.now image.now tree.old root.old }
{
    if root.len() != digest_size() {
        return wrong_length();
    }
    match tree::build(count, salt, image, tree) {
        Ok(digest) => {
            put_digest(digest, root);
            done()
        }
        Err(refusal) => u32::from(refusal),
    }
}

// Whether the data block with this index verifies. Refused where the level's buffer has a wrong length, or as verifying is; the level's
// buffer then receives the failing level, if the refusal names one.
pub fn verify(
    block: &[u8],
    index: usize,
    tree: &[u8],
    count: usize,
    salt: &[u8],
    root: &[u8],
    level: &mut [u8],
) -> u32
    ensures { record { number = result; buffer = level.new }
        ≡ verify_call block.now index tree.now count salt.now root.now level.old }
{
    if level.len() != level_size() {
        return wrong_length();
    }
    match tree::verify(block, index, tree, count, salt, root) {
        Ok(()) => done(),
        Err(refusal) => {
            put_level(refusal, level);
            u32::from(refusal)
        }
    }
}

// The level that a refusal names, written over a buffer of its length; a refusal that names none leaves the buffer as it was.
fn put_level(refusal: Refusal, buffer: &mut [u8])
    requires { length buffer.old ≡ level_size }
    ensures { buffer.new ≡ level_buffer_of (refused (refusal_of refusal)) buffer.old }
{
    let level = match refusal {
        Refusal::WrongLength | Refusal::OutOfRange => return,
        Refusal::DataDiffers => DATA_LEVEL,
        Refusal::LevelDiffers(l) => l as u64,
    };
    octets::put_number(buffer, 0, level_size(), level)
}
