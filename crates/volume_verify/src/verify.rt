// Verify: R51, R106; the model's specs/Verify.antt.
ghost use Rattle.std.specs.Prelude.{true, ◌&&◌, ◌≡◌, ◌+◌, ◌*◌, ◌≤◌, length};
ghost use Rattle.octets.specs.Sectors.{sector_size};
ghost use Rattle.on_disk.specs.Layout.{needed, layout_ok};
ghost use Rattle.model.specs.Tag.{tag_of};
ghost use Rattle.model.specs.Refusal.{plain_answer};
ghost use Rattle.model.specs.State.{state_ok, volume_ok};
ghost use Rattle.model.specs.Verify.{tag_fits, verify_of, verify_keyed_of};
ghost use Rattle.sound.specs.Rule.{tag_by};
ghost use Rattle.volume_verify.specs.Results.{tags_verdict};

use model::{Refusal, State};
use on_disk::Layout;
use sound::state;
use sound::tag::Rule;
use volume_read::fits::tag_fits;

// The first check: whether the state is sound, and the volume one that it fits.
fn loans_ok(s: State, v: &[u8]) -> bool
    ensures { result ≡ state_ok s && volume_ok s v.now }
{
    if !state::state_ok(s) {
        return false;
    }
    state::volume_ok(s, v)
}

// Tests the tags of so many sectors; the first that does not fit its data is named.
fn verify_tags(rule: Rule, v: &[u8], g: Layout, first: usize, count: usize) -> Result<(), Refusal>
    requires { (layout_ok g ≡ true) × (needed g * sector_size ≤ length v.now) × (first + count ≤ g.provided) }
    ensures { plain_answer result ≡ tags_verdict (λ i. tag_fits (tag_by rule) g v.now (first + i)) first count }
{
    for i in 0..count {
        if !tag_fits(rule, v, g, first + i) {
            return Err(Refusal::TagMismatch(first + i));
        }
    }
    Ok(())
}

// Verifies by any rule, behind the first check.
fn verify_by(rule: Rule, s: State, v: &[u8], first: usize, count: usize) -> Result<(), Refusal>
    requires { state_ok s && volume_ok s v.now ≡ true }
    ensures { plain_answer result ≡ verify_of (tag_by rule) s v.now first count }
{
    let g = s.layout;
    if !state::is_filling(s.phase) {
        return Err(Refusal::NotNow);
    }
    // in two tests: first + count may not fit a usize
    if g.provided < count {
        return Err(Refusal::Range);
    }
    if g.provided - count < first {
        return Err(Refusal::Range);
    }
    verify_tags(rule, v, g, first, count)
}

// Whether the tags of so many sectors fit their data; the first that does not is named.
pub fn verify(s: State, v: &[u8], first: usize, count: usize) -> Result<(), Refusal>
    ensures { plain_answer result ≡ verify_of tag_of s v.now first count }
{
    if !loans_ok(s, v) {
        return Err(Refusal::Malformed);
    }
    verify_by(Rule::Plain, s, v, first, count)
}

// Verifies where tags are under a key (R105, R106), which is set up once for all the sectors.
pub fn verify_keyed(
    s: State,
    v: &[u8],
    first: usize,
    count: usize,
    key: &[u8],
) -> Result<(), Refusal>
    ensures { plain_answer result ≡ verify_keyed_of key.now s v.now first count }
{
    if !loans_ok(s, v) {
        return Err(Refusal::Malformed);
    }
    if !hmac::key_ok(key) {
        return Err(Refusal::Parameter);
    }
    verify_by(Rule::of_key(key), s, v, first, count)
}
