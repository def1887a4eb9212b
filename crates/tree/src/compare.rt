// The digests computed along a path are compared with what stands above each: specs/Verify.antt.
ghost use Rattle.std.specs.Prelude.{ℕ, ◌+◌, ◌<◌, ◌≤◌, ◌≡◌, length, get_or, take};
ghost use Rattle.octets.specs.Answer.{refused};
ghost use Rattle.octets.specs.Parts.{part, same};
ghost use Rattle.digest.specs.Sha256.{digest_size};
ghost use Rattle.tree_path.specs.Places.{most_levels};
ghost use Rattle.tree_path.specs.Path.{standing_of};
ghost use Rattle.tree.specs.Answer.{mismatch, refusal_of, answer_of};
ghost use Rattle.tree.specs.Verify.{compared_of};

use crate::Refusal;
use digest::DIGEST_SIZE;
use tree_path::places::MOST_DIGESTS;

// The refusal 12 at place k on the path.
fn differs(k: usize) -> Refusal
    ensures { refused (refusal_of result) ≡ mismatch k }
{
    if k == 0 {
        Refusal::DataDiffers
    } else {
        Refusal::LevelDiffers(k - 1)
    }
}

// Whether the digest d stands at byte at of s.
fn stands(d: [u8; DIGEST_SIZE], s: &[u8], at: usize) -> bool
    requires { at + digest_size ≤ length s.now }
    ensures { result ≡ same d (part s.now at digest_size) }
{
    octets::same_at(&d, 0, s, at, DIGEST_SIZE)
}

// From the root down, each digest is compared with what stands above it, and the first that differs decides.
pub(crate) fn compare(
    h: usize,
    digests: [[u8; DIGEST_SIZE]; MOST_DIGESTS],
    at: [usize; MOST_DIGESTS],
    tree: &[u8],
    root: &[u8],
) -> Result<(), Refusal>
    requires { (h ≤ most_levels) × (length root.now ≡ digest_size) × ((j : ℕ) → j < h → get_or at j 0 + digest_size ≤ length tree.now) }
    ensures { answer_of result ≡ compared_of (take (h + 1) digests) (standing_of root.now tree.now (take h at)) }
{
    if !stands(digests[h], root, 0) {
        return Err(differs(h));
    }
    for k in (0..h).rev() {
        if !stands(digests[k], tree, at[k]) {
            return Err(differs(k));
        }
    }
    Ok(())
}
