// Read: R50, R51, R77; the model's specs/Read.antt.
ghost use Rattle.std.specs.Prelude.{true, ◌&&◌, ◌≡◌, ◌*◌, ◌≤◌, ◌<◌, length};
ghost use Rattle.octets.specs.Lists.{if_below};
ghost use Rattle.octets.specs.Sectors.{sector_size};
ghost use Rattle.on_disk.specs.Layout.{most_width, entry_count, section_size};
ghost use Rattle.model.specs.Tag.{tag_of};
ghost use Rattle.model.specs.Refusal.{plain_answer};
ghost use Rattle.model.specs.State.{state_ok, volume_ok, staged_ok, sector_ok};
ghost use Rattle.model.specs.Read.{newest_for, read_of};
ghost use Rattle.model.specs.Keyed.{read_keyed_of};
ghost use Rattle.sound.specs.Rule.{tag_by};

use crate::fits::tag_fits;
use layout::SECTOR_SIZE;
use model::{Refusal, State};
use sound::state;
use sound::tag::Rule;

// The place of the newest of the first c staged entries for a sector, if there is one.
fn newest_for(st: &[u8], t: usize, c: usize, sector: usize) -> Option<usize>
    requires { (t ≤ most_width) × (c ≤ entry_count t) × (length st.now ≡ section_size t * sector_size) }
    ensures { result ≡ if_below c (newest_for t st.now c c sector) }
{
    for i in (0..c).rev() {
        if section::entry_sector(st, t, i) == sector as u64 {
            return Some(i);
        }
    }
    None
}

// The first check: whether the state is sound, on the lent volume and staging too, and each loan of its length.
fn loans_ok(s: State, v: &[u8], st: &[u8], bytes: &[u8]) -> bool
    ensures { result ≡ state_ok s && (volume_ok s v.now && (staged_ok s st.now && sector_ok bytes.now)) }
{
    if !state::state_ok(s) {
        return false;
    }
    let volume = state::volume_ok(s, v);
    let staging = state::staged_ok(s, st);
    volume & (staging & (bytes.len() == SECTOR_SIZE))
}

// Reads by any rule, behind the first check.
fn read_by(
    rule: Rule,
    s: State,
    v: &[u8],
    st: &[u8],
    sector: usize,
    bytes: &mut [u8],
) -> Result<(), Refusal>
    requires { state_ok s && (volume_ok s v.now && (staged_ok s st.now && sector_ok bytes.old)) ≡ true }
    ensures { record { answer = plain_answer result; sector = bytes.new } ≡ read_of (tag_by rule) s v.now st.now sector bytes.old }
{
    let g = s.layout;
    if state::is_recovering(s.phase) {
        return Err(Refusal::NotNow);
    }
    if g.provided <= sector {
        return Err(Refusal::Range);
    }
    if let Some(place) = newest_for(st, g.width, s.count, sector) {
        section::entry_data(st, g.width, place, bytes);
        return Ok(());
    }
    if !tag_fits(rule, v, g, sector) {
        return Err(Refusal::TagMismatch(sector));
    }
    let at = layout::data_at(g, sector) * SECTOR_SIZE;
    octets::copy_at(bytes, 0, v, at, SECTOR_SIZE);
    Ok(())
}

// Gives the newest entry for a sector in staging; else the volume's data if its tag fits.
pub fn read(s: State, v: &[u8], st: &[u8], sector: usize, bytes: &mut [u8]) -> Result<(), Refusal>
    ensures { record { answer = plain_answer result; sector = bytes.new } ≡ read_of tag_of s v.now st.now sector bytes.old }
{
    if !loans_ok(s, v, st, bytes) {
        return Err(Refusal::Malformed);
    }
    read_by(Rule::Plain, s, v, st, sector, bytes)
}

// Reads where tags are under a key (R105, R106).
pub fn read_keyed(
    s: State,
    v: &[u8],
    st: &[u8],
    sector: usize,
    bytes: &mut [u8],
    key: &[u8],
) -> Result<(), Refusal>
    ensures { record { answer = plain_answer result; sector = bytes.new } ≡ read_keyed_of key.now s v.now st.now sector bytes.old }
{
    if !loans_ok(s, v, st, bytes) {
        return Err(Refusal::Malformed);
    }
    if !hmac::key_ok(key) {
        return Err(Refusal::Parameter);
    }
    read_by(Rule::of_key(key), s, v, st, sector, bytes)
}
