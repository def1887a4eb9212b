// What the crates that work on a hash tree share: where its parts stand, the digest of a block, and the path from a data block to the root digest.
// R78 to R85, after dm-verity's format 1. The definitions are in specs/.
//
// These are helpers for the crates of this repository, which test counts and lengths once, in the call that takes them. So a function may require what was
// tested, and its callers show it.
#![tactic(auto)]

pub mod path;
pub mod places;

ghost use Rattle.std.specs.Prelude.{◌≤◌, ◌≡◌, length};
ghost use Rattle.digest.specs.Sha256.{digest_size};
ghost use Rattle.tree_path.specs.Places.{block_size, longest_salt};
ghost use Rattle.tree_path.specs.Tree.{block_digest};

// The digest of a block, the salt being put before it. Not inlined: what each call of a build takes would lie on the stack at once.
#[inline(never)]
pub fn block_digest(salt: &[u8], block: &[u8]) -> [u8; digest::DIGEST_SIZE]
    requires { (length salt.now ≤ longest_salt) × (length block.now ≤ block_size) }
    ensures { (result ≡ block_digest salt.now block.now) × (length result ≡ digest_size) }
{
    digest::sha256_of_two(salt, block).unwrap()
}
