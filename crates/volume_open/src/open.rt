// Open: R37 to R40, R73; the model's specs/Open.antt. It checks every entry to be replayed before anything is changed, so that a
// refused open leaves the staging loan as it was, and a replay stores no sector whose tag does not fit.
ghost use Rattle.std.specs.Prelude.{true, ◌≡◌, ◌*◌, ◌≤◌, ◌<◌, length};
ghost use Rattle.octets.specs.Choice.{first_met};
ghost use Rattle.octets.specs.Sectors.{sector_size};
ghost use Rattle.on_disk.specs.Layout.{most_width, entry_count, section_size, needed, layout_ok};
ghost use Rattle.on_disk.specs.Section.{entry_of, empty_section};
ghost use Rattle.model.specs.Journal.{used_entry, used_of, replay};
ghost use Rattle.model.specs.Tag.{tag_of};
ghost use Rattle.model.specs.Refusal.{plain_answer, open_answer};
ghost use Rattle.model.specs.State.{passed};
ghost use Rattle.model.specs.Open.{superblock_rows, entries_verdict, phase_for, open_with, open_of};
ghost use Rattle.model.specs.Keyed.{open_keyed_of};
ghost use Rattle.journal.specs.Replay.{ids_of};
ghost use Rattle.sound.specs.Rule.{tag_by};

use crate::query;
use journal::journal as sections;
use layout::{MOST_SECTIONS, SECTOR_SIZE};
use model::{Opened, Phase, Refusal, State};
use on_disk::Layout;
use section::UNUSED;
use sound::state::{self, LAST_ID};
use sound::tag::Rule;

// Whether entry i of section k, if it is used, can be replayed.
fn check_entry(rule: Rule, g: Layout, section: &[u8], k: usize, i: usize) -> Result<(), Refusal>
    requires { (layout_ok g ≡ true) × (length section.now ≡ section_size g.width * sector_size) × (i < entry_count g.width) }
    ensures { plain_answer result ≡ entries_verdict (tag_by rule g.width) g (used_entry k i (entry_of g.width section.now i)) }
{
    let sector = section::entry_sector(section, g.width, i);
    if sector == UNUSED {
        return Ok(());
    }
    if g.provided as u64 <= sector {
        return Err(Refusal::JournalRange(k, i));
    }
    let mut bytes = [0u8; SECTOR_SIZE];
    section::entry_data(section, g.width, i, &mut bytes);
    let digest = rule.tag(sector as usize, &bytes);
    let stored = section::entry_tag(section, g.width, i);
    if !octets::same_at(stored, 0, &digest, 0, g.width) {
        return Err(Refusal::JournalTagMismatch(k, i));
    }
    Ok(())
}

// Whether every used entry of section k can be replayed; else the refusal for the first that cannot.
fn check_section(rule: Rule, g: Layout, section: &[u8], k: usize) -> Result<(), Refusal>
    requires { (layout_ok g ≡ true) × (length section.now ≡ section_size g.width * sector_size) }
    ensures { plain_answer result ≡ entries_verdict (tag_by rule g.width) g (used_of g.width k section.now) }
{
    for i in 0..layout::entry_count(g.width) {
        check_entry(rule, g, section, k, i)?;
    }
    Ok(())
}

// Whether every entry to be replayed can be, in replay order.
fn check_replay(rule: Rule, ids: &[u64; MOST_SECTIONS], v: &[u8], g: Layout) -> Result<(), Refusal>
    requires { (layout_ok g ≡ true) × (needed g * sector_size ≤ length v.now) × (ids.now ≡ ids_of g v.now) }
    ensures { plain_answer result ≡ entries_verdict (tag_by rule g.width) g (replay g v.now) }
{
    let mut next = sections::next_section(ids, g.sections, 0, 0);
    while let Some(k) = next {
        check_section(rule, g, sections::section_of(v, g, k), k)?;
        next = sections::next_section(ids, g.sections, ids[k], k);
    }
    Ok(())
}

// The phase of a volume with so many stores to come.
fn phase_for(stores: usize) -> Phase
    ensures { result ≡ phase_for stores }
{
    if stores == 0 {
        return Phase::Filling;
    }
    Phase::Recovering(0)
}

// Makes the staging loan an empty batch. Not inlined: the sector that it fills would lie on the stack below the check of each tag.
#[inline(never)]
fn clear_staging(st: &mut [u8], width: usize)
    requires { (width ≤ most_width) × (length st.old ≡ section_size width * sector_size) }
    ensures { st.new ≡ empty_section width }
{
    section::clear_section(st, width);
}

// Opens a volume whose superblock and length are as they must be.
fn open_journal(rule: Rule, v: &[u8], st: &mut [u8], g: Layout) -> Result<Opened, Refusal>
    requires { (layout_ok g ≡ true) × (needed g * sector_size ≤ length v.now) × (first_met (superblock_rows g g.reserved v.now) passed ≡ passed) }
    ensures { record { answer = open_answer result; staging = st.new } ≡ open_with (tag_by rule) g g.reserved v.now st.old }
{
    if !state::staging_ok(g, st) {
        return Err(Refusal::Malformed);
    }
    let greatest = sections::greatest_id(v, g);
    let mut ids = [0u64; MOST_SECTIONS];
    sections::scan(v, g, &mut ids);
    let misplaced = sections::first_misplaced(&ids, g);
    if greatest == LAST_ID {
        return Err(Refusal::Exhausted);
    }
    if let Some(k) = misplaced {
        return Err(Refusal::Misplaced(k));
    }
    check_replay(rule, &ids, v, g)?;
    clear_staging(st, g.width);
    let stores = sections::count_steps(&ids, v, g);
    let state = State {
        layout: g,
        phase: phase_for(stores),
        count: 0,
        id: greatest + 1,
    };
    Ok(Opened { state, stores })
}

// Opens by any rule.
fn open_by(rule: Rule, v: &[u8], st: &mut [u8], r: usize) -> Result<Opened, Refusal>
    ensures { record { answer = open_answer result; staging = st.new } ≡ open_of (tag_by rule) r v.now st.old }
{
    let held = query::query(v, r)?;
    open_journal(rule, v, st, held.layout)
}

// Checks volume and journal, makes the staging loan an empty batch, and gives the state and the number of stores that replay the journal. It stores
// nothing on the volume.
pub fn open(v: &[u8], st: &mut [u8], r: usize) -> Result<Opened, Refusal>
    ensures { record { answer = open_answer result; staging = st.new } ≡ open_of tag_of r v.now st.old }
{
    open_by(Rule::Plain, v, st, r)
}

// Opens a volume whose tags are under a key (R105, R106).
pub fn open_keyed(v: &[u8], st: &mut [u8], r: usize, key: &[u8]) -> Result<Opened, Refusal>
    ensures { record { answer = open_answer result; staging = st.new } ≡ open_keyed_of key.now r v.now st.old }
{
    if !layout::volume_loan_ok(v) {
        return Err(Refusal::Malformed);
    }
    if !hmac::key_ok(key) {
        return Err(Refusal::Parameter);
    }
    open_by(Rule::of_key(key), v, st, r)
}
