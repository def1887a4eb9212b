// A store of a recovery on a journal that has been scanned: R48. These are functions for the crates of
// this repository, which have the scan: so they have a `requires`, and crate volume does not pass them on.
ghost use Rattle.std.specs.Prelude.{true, List, ◌≡◌, ℕ, ◌*◌, ◌≤◌, ◌<◌, length};
ghost use Rattle.octets.specs.Sectors.{sector_size};
ghost use Rattle.on_disk.specs.Layout.{entry_count, needed, layout_ok};
ghost use Rattle.on_disk.specs.Section.{entry_of};
ghost use Rattle.model.specs.Journal.{section_of};
ghost use Rattle.model.specs.Store.{home_store};
ghost use Rattle.model.specs.State.{staging_ok};
ghost use Rattle.model.specs.Step.{step_of};
ghost use Rattle.stores.specs.Asked.{StoreOfEntry};
ghost use Rattle.stores.specs.Changes.{Changes};
ghost use Rattle.volume_step.specs.Recovery.{StepOfRecovery};
ghost use Rattle.volume_step.specs.Results.{stored_in_recovery, Fills};

use crate::answers;
use journal::journal as sections;
use layout::SECTOR_SIZE;
use model::{Phase, Refusal, State, Step};
use on_disk::Layout;
use section::Location;
use stores::changes;
use stores::changes::Part;

// The logical sector of the entry that x names.
pub fn sector_of(v: &[u8], g: Layout, x: Location) -> u64
    requires { (layout_ok g ≡ true) × (needed g * sector_size ≤ length v.now) × (x.section < g.sections) × (x.entry < entry_count g.width) }
    ensures { result ≡ (entry_of g.width (section_of g v.now x.section) x.entry).sector }
{
    section::entry_sector(sections::section_of(v, g, x.section), g.width, x.entry)
}

// A store of the replay goes to sector `at`. Store k is next, if there are more; else the volume is filling.
pub fn replayed(s: &mut State, at: usize, k: usize, more: bool) -> Step
    ensures { (result, s.new) ≡ stored_in_recovery s.old at k more }
{
    if more {
        return answers::stored(s, at, Phase::Recovering(k));
    }
    answers::filled(s, at)
}

// Store k of the replay, which x names: its content goes to `out`; `more` says whether there is one after it.
pub(crate) fn next_store(
    s: &mut State,
    v: &[u8],
    k: usize,
    x: Location,
    more: bool,
    out: &mut [u8],
) -> Result<Step, Refusal>
    requires { StepOfRecovery s.old v.now k x more × (length out.old ≡ sector_size) }
    ensures { (st : List ℕ) → staging_ok s.old.layout st ≡ true → Fills out.old (step_of s.old v.now st) result s.new out.new st }
{
    let g = s.layout;
    let section = sections::section_of(v, g, x.section);
    let sector = section::entry_sector(section, g.width, x.entry);
    if g.provided as u64 <= sector {
        return Err(Refusal::JournalRange(x.section, x.entry));
    }
    let at = stores::home_store(v, g, section, x.entry, sector as usize, x.store, out);
    Ok(replayed(s, at, k + 1, more))
}

// The bytes of the volume that the store which x names changes, of an entry of the logical sector `sector`: they go to the front of `content`. To store
// them leaves the volume that the store does, and moves the tag's bytes alone where that moves the sector with them.
pub fn replayed_part(
    v: &[u8],
    g: Layout,
    x: Location,
    sector: usize,
    content: &mut [u8; SECTOR_SIZE],
) -> Part
    requires { StoreOfEntry g (section_of g v.now x.section) x.entry sector x.store × (needed g * sector_size ≤ length v.now) × (x.section < g.sections) }
    ensures { Changes v.now (home_store g v.now (entry_of g.width (section_of g v.now x.section) x.entry) x.store) result content.new }
{
    let section = sections::section_of(v, g, x.section);
    changes::home_part(g, section, x.entry, sector, x.store, content)
}
