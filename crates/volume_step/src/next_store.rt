// Next store: what a step does, but for its store, which the volume's owner makes: R43 to R49, R76; the model's specs/Step.antt. The
// volume is only read.
ghost use Rattle.std.specs.Prelude.{true, ◌&&◌, List, ◌≡◌, ℕ, ◌*◌, ◌<◌, leb, length};
ghost use Rattle.octets.specs.Sectors.{sector_size};
ghost use Rattle.on_disk.specs.Layout.{needed};
ghost use Rattle.model.specs.State.{last_id, volume_loan_ok, state_ok, volume_ok, staging_ok, staged_ok};
ghost use Rattle.model.specs.Step.{step_of};
ghost use Rattle.model.specs.JournalStep.{commit_step};
ghost use Rattle.model.specs.NextStore.{next_store_of};
ghost use Rattle.stores.specs.Asked.{SectorOfCommit};
ghost use Rattle.volume_step.specs.Results.{Fills};

use crate::{answers, recovery};
use journal::journal as sections;
use layout::{MOST_SECTIONS, SECTOR_SIZE};
use model::{Phase, Refusal, Says, State, Step};
use sound::state;

// Sector j of the section, with the id put in; by the last the batch is acknowledged.
fn commit_step(s: &mut State, st: &[u8], j: usize, out: &mut [u8]) -> Step
    requires { SectorOfCommit s.old st.now j × (s.old.id < last_id) × (length out.old ≡ sector_size) }
    ensures { (v : List ℕ) → Fills out.old (commit_step s.old v st.now j) (Ok result) s.new out.new st.now }
{
    let at = stores::commit_store(*s, st, j, out);
    if j + 1 < layout::section_size(s.layout.width) {
        return answers::stored(s, at, Phase::Committing(j + 1));
    }
    s.phase = Phase::WritingBack(0, 0);
    s.id += 1;
    Step {
        stored: Some(at),
        says: Says::Acknowledged,
    }
}

// Store h of staged entry i; after the last of all staging is empty and the volume is filling.
fn write_back_step(
    s: &mut State,
    v: &[u8],
    st: &mut [u8],
    i: usize,
    h: usize,
    out: &mut [u8],
) -> Result<Step, Refusal>
    requires { (state_ok s.old ≡ true) × (volume_ok s.old v.now ≡ true) × (staged_ok s.old st.old ≡ true) × (s.old.phase ≡ Phase.WritingBack i h) × (length out.old ≡ sector_size) }
    ensures { Fills out.old (step_of s.old v.now st.old) result s.new out.new st.new }
{
    let g = s.layout;
    let sector = section::entry_sector(st, g.width, i);
    if g.provided as u64 <= sector {
        return Err(Refusal::StagedRange(i));
    }
    let at = stores::home_store(v, g, st, i, sector as usize, h, out);
    if h + 1 < layout::home_stores(g, sector) {
        return Ok(answers::stored(s, at, Phase::WritingBack(i, h + 1)));
    }
    if i + 1 < s.count {
        return Ok(answers::stored(s, at, Phase::WritingBack(i + 1, 0)));
    }
    section::clear_section(st, g.width);
    Ok(answers::filled(s, at))
}

// Store k of the replay. One scan of the journal tells whether there is one, and where.
fn scan_step(s: &mut State, v: &[u8], k: usize, out: &mut [u8]) -> Result<Step, Refusal>
    requires { (state_ok s.old ≡ true) × (volume_loan_ok v.now && leb (needed s.old.layout * sector_size) (length v.now) ≡ true) × (s.old.phase ≡ Phase.Recovering k) × (length out.old ≡ sector_size) }
    ensures { (st : List ℕ) → staging_ok s.old.layout st ≡ true → Fills out.old (step_of s.old v.now st) result s.new out.new st }
{
    let g = s.layout;
    let mut ids = [0u64; MOST_SECTIONS];
    sections::scan(v, g, &mut ids);
    let x = sections::locate(&ids, v, g, k);
    if x.section == g.sections {
        return Err(Refusal::Malformed);
    }
    let next = sections::next_location(&ids, v, g, x);
    recovery::next_store(s, v, k, x, next.section < g.sections, out)
}

// Gives the answer of a step and leaves the state and staging as the step does, and fills `out` with what the sector that the answer names is to
// hold; `out` stays where it names none.
pub fn next_store(s: &mut State, v: &[u8], st: &mut [u8], out: &mut [u8]) -> Result<Step, Refusal>
    ensures { Fills out.old (next_store_of s.old v.now st.old out.old) result s.new out.new st.new }
{
    if out.len() != SECTOR_SIZE {
        return Err(Refusal::Malformed);
    }
    if !state::state_ok(*s) {
        return Err(Refusal::Malformed);
    }
    if !state::layout_fits(s.layout, v) {
        return Err(Refusal::Malformed);
    }
    if !state::staged_ok(*s, st) {
        return Err(Refusal::Malformed);
    }
    match s.phase {
        Phase::Filling => Ok(Step {
            stored: None,
            says: Says::Filling,
        }),
        Phase::Committing(j) => Ok(commit_step(s, st, j, out)),
        Phase::WritingBack(i, h) => write_back_step(s, v, st, i, h, out),
        Phase::Recovering(k) => scan_step(s, v, k, out),
    }
}
