// What is tested of loans and states: the model's specs/State.antt.
ghost use Rattle.std.specs.Prelude.{true, ◌&&◌, ◌≡◌, ◌*◌, ◌≤◌, ◌<◌, leb, length};
ghost use Rattle.octets.specs.Sectors.{sector_size};
ghost use Rattle.on_disk.specs.Layout.{entry_count, section_size, needed, layout_ok};
ghost use Rattle.on_disk.specs.Section.{entry_of};
ghost use Rattle.model.specs.Journal.{replay};
ghost use Rattle.model.specs.Store.{home_count, steps_of};
ghost use Rattle.model.specs.State.{place_ok, state_ok, staging_ok, staged_ok, volume_loan_ok, volume_ok, is_filling, is_recovering};

use layout::{MOST_SECTIONS, SECTOR_SIZE};
use model::{Phase, State};
use on_disk::Layout;

// No commit may be given this id.
pub const LAST_ID: u64 = u64::MAX;

// Whether the place of a phase exists, as far as neither volume nor staging is needed: of an entry, three stores.
fn place_ok(g: Layout, count: usize, id: u64, p: Phase) -> bool
    requires { layout_ok g ≡ true }
    ensures { result ≡ place_ok g count id p }
{
    match p {
        Phase::Filling => true,
        Phase::Committing(j) => j < layout::section_size(g.width) && 0 < count && id < LAST_ID,
        Phase::WritingBack(i, h) => i < count && h < layout::MOST_HOME_STORES,
        Phase::Recovering(_) => count == 0,
    }
}

// Whether a state is sound, as far as neither is needed.
#[tactic(auto, unfolding(model::specs::State::state_ok))]
pub fn state_ok(s: State) -> bool
    ensures { result ≡ state_ok s }
{
    let g = s.layout;
    layout::layout_ok(g)
        && s.count <= layout::entry_count(g.width)
        && s.id != 0
        && place_ok(g, s.count, s.id, s.phase)
}

// Whether a staging loan is as long as a section.
#[tactic(auto, unfolding(model::specs::State::staging_ok))]
pub fn staging_ok(g: Layout, st: &[u8]) -> bool
    requires { layout_ok g ≡ true }
    ensures { result ≡ staging_ok g st.now }
{
    st.len() == layout::section_size(g.width) * SECTOR_SIZE
}

pub fn is_filling(p: Phase) -> bool
    ensures { result ≡ is_filling p }
{
    matches!(p, Phase::Filling)
}

pub fn is_recovering(p: Phase) -> bool
    ensures { result ≡ is_recovering p }
{
    matches!(p, Phase::Recovering(_))
}

// Whether st is a staging loan of its length, in which the place of a sound state exists: a third store only for an entry whose tag crosses.
#[tactic(auto, unfolding(model::specs::State::staged_ok))]
pub fn staged_ok(s: State, st: &[u8]) -> bool
    requires { state_ok s ≡ true }
    ensures { result ≡ staged_ok s st.now }
{
    let g = s.layout;
    if !staging_ok(g, st) {
        return false;
    }
    match s.phase {
        Phase::WritingBack(i, h) => h < staged_stores(g, st, i),
        _ => true,
    }
}

// How many stores bring staged entry i home.
fn staged_stores(g: Layout, st: &[u8], i: usize) -> usize
    requires { (layout_ok g ≡ true) × (i < entry_count g.width) × (length st.now ≡ section_size g.width * sector_size) }
    ensures { result ≡ home_count g (entry_of g.width st.now i) }
{
    layout::home_stores(g, section::entry_sector(st, g.width, i))
}

// Whether v is a volume that the layout fits.
pub fn layout_fits(g: Layout, v: &[u8]) -> bool
    requires { layout_ok g ≡ true }
    ensures { result ≡ volume_loan_ok v.now && leb (needed g * sector_size) (length v.now) }
{
    layout::volume_loan_ok(v) && layout::needed(g) * SECTOR_SIZE <= v.len()
}

// Whether v is a volume that the layout fits, and on which the place of a sound state exists.
#[tactic(auto, unfolding(model::specs::State::volume_ok))]
pub fn volume_ok(s: State, v: &[u8]) -> bool
    requires { state_ok s ≡ true }
    ensures { result ≡ volume_ok s v.now }
{
    let g = s.layout;
    if !layout_fits(g, v) {
        return false;
    }
    match s.phase {
        Phase::Recovering(k) => k < recovery_steps(v, g),
        _ => true,
    }
}

// How many steps a recovery of the volume takes.
fn recovery_steps(v: &[u8], g: Layout) -> usize
    requires { (layout_ok g ≡ true) × (needed g * sector_size ≤ length v.now) }
    ensures { result ≡ steps_of g (replay g v.now) }
{
    let mut ids = [0u64; MOST_SECTIONS];
    journal::journal::scan(v, g, &mut ids);
    journal::journal::count_steps(&ids, v, g)
}
