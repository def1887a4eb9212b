// Write: R41, R74; the model's specs/Write.antt.
ghost use Rattle.std.specs.Prelude.{true, ◌&&◌, ◌≡◌};
ghost use Rattle.model.specs.Refusal.{plain_answer};
ghost use Rattle.model.specs.Tag.{tag_of};
ghost use Rattle.model.specs.State.{state_ok, staging_ok, sector_ok};
ghost use Rattle.model.specs.Write.{write_of};
ghost use Rattle.model.specs.Keyed.{write_keyed_of};
ghost use Rattle.sound.specs.Rule.{tag_by};

use layout::SECTOR_SIZE;
use model::{Refusal, State};
use sound::state;
use sound::tag::Rule;

// The first check: whether the state is sound and each loan has its length.
fn loans_ok(s: State, st: &[u8], bytes: &[u8]) -> bool
    ensures { result ≡ state_ok s && (staging_ok s.layout st.now && sector_ok bytes.now) }
{
    if !state::state_ok(s) {
        return false;
    }
    let g = s.layout;
    let staging = state::staging_ok(g, st);
    staging & (bytes.len() == SECTOR_SIZE)
}

// Adds an entry by any rule, behind the first check.
fn write_by(
    rule: Rule,
    s: &mut State,
    st: &mut [u8],
    sector: usize,
    bytes: &[u8],
) -> Result<(), Refusal>
    requires { state_ok s.old && (staging_ok s.old.layout st.old && sector_ok bytes.now) ≡ true }
    ensures { record { answer = plain_answer result; state = s.new; staging = st.new } ≡ write_of (tag_by rule) s.old st.old sector bytes.now }
{
    let width = s.layout.width;
    if !state::is_filling(s.phase) {
        return Err(Refusal::NotNow);
    }
    if s.layout.provided <= sector {
        return Err(Refusal::Range);
    }
    if layout::entry_count(width) <= s.count {
        return Err(Refusal::Full);
    }
    let digest = rule.tag(sector, bytes);
    section::put_entry(st, width, s.count, sector, bytes, &digest);
    s.count += 1;
    Ok(())
}

// Adds one entry to the batch in staging, also when the sector is already there.
pub fn write(s: &mut State, st: &mut [u8], sector: usize, bytes: &[u8]) -> Result<(), Refusal>
    ensures { record { answer = plain_answer result; state = s.new; staging = st.new } ≡ write_of tag_of s.old st.old sector bytes.now }
{
    if !loans_ok(*s, st, bytes) {
        return Err(Refusal::Malformed);
    }
    write_by(Rule::Plain, s, st, sector, bytes)
}

// Adds an entry with a tag under a key (R105, R106).
pub fn write_keyed(
    s: &mut State,
    st: &mut [u8],
    sector: usize,
    bytes: &[u8],
    key: &[u8],
) -> Result<(), Refusal>
    ensures { record { answer = plain_answer result; state = s.new; staging = st.new } ≡ write_keyed_of key.now s.old st.old sector bytes.now }
{
    if !loans_ok(*s, st, bytes) {
        return Err(Refusal::Malformed);
    }
    if !hmac::key_ok(key) {
        return Err(Refusal::Parameter);
    }
    write_by(Rule::of_key(key), s, st, sector, bytes)
}
