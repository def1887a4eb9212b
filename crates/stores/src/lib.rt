// The stores of a step: R43, R44, R46; the model's specs/Store.antt and specs/Step.antt. Each function fills `out`, which is as
// long as a sector, with what a sector of the volume is to hold, and gives that sector's number. None of them stores it.
//
// These are functions for the crates of this repository, which test the state, the loans and the entry's sector first: so each has a `requires`, and
// every caller shows it.
#![tactic(auto)]

pub mod changes;
pub mod tags;

ghost use Rattle.std.specs.Prelude.{List, ◌≡◌, ℕ, ◌+◌, ◌*◌, ◌/◌, ◌%◌, ◌≤◌, length};
ghost use Rattle.octets.specs.Parts.{part, patch};
ghost use Rattle.octets.specs.Sectors.{sector_size, sector_at};
ghost use Rattle.on_disk.specs.Layout.{needed};
ghost use Rattle.on_disk.specs.Section.{entry_of};
ghost use Rattle.model.specs.Store.{home_store};
ghost use Rattle.model.specs.JournalStep.{commit_store};
ghost use Rattle.stores.specs.Asked.{SectorOfCommit, StoreOfEntry};

use crate::tags::TagPiece;
use layout::SECTOR_SIZE;
use model::State;
use on_disk::Layout;
use section::{ID_AT, NUMBER_SIZE};

// Sector j of the section that a batch is committed to: staging's, with the id put in.
pub fn commit_store(s: State, st: &[u8], j: usize, out: &mut [u8]) -> usize
    requires { SectorOfCommit s st.now j × (length out.old ≡ sector_size) }
    ensures { (v : List ℕ) → record { at = result; content = out.new } ≡ commit_store s v st.now j }
{
    let g = s.layout;
    octets::copy_at(out, 0, st, j * SECTOR_SIZE, ID_AT);
    octets::put_number(out, ID_AT, NUMBER_SIZE, s.id);
    layout::section_at(g, journal::journal::section_for(g, s.id)) + j
}

// The sector with some bytes of a tag: the volume's, with only these replaced, so that the neighbours' tags stay.
fn tag_store(v: &[u8], tag: &[u8], p: TagPiece, out: &mut [u8]) -> usize
    requires { ((p.byte / sector_size + 1) * sector_size ≤ length v.now) × (p.byte % sector_size + p.size ≤ sector_size) × (p.from + p.size ≤ length tag.now) × (length out.old ≡ sector_size) }
    ensures { (result ≡ p.byte / sector_size) × (out.new ≡ patch (sector_at v.now (p.byte / sector_size)) (p.byte % sector_size) (part tag.now p.from p.size)) }
{
    let at = p.byte / SECTOR_SIZE;
    octets::copy_at(out, 0, v, at * SECTOR_SIZE, SECTOR_SIZE);
    octets::copy_at(out, p.byte % SECTOR_SIZE, tag, p.from, p.size);
    at
}

// Store h of those that bring entry i of a section home, be it staging or a section of the journal: its data sector, then the sector in which its tag begins,
// then the next one, if the tag goes on in it.
pub fn home_store(
    v: &[u8],
    g: Layout,
    section: &[u8],
    i: usize,
    sector: usize,
    h: usize,
    out: &mut [u8],
) -> usize
    requires { StoreOfEntry g section.now i sector h × (needed g * sector_size ≤ length v.now) × (length out.old ≡ sector_size) }
    ensures { record { at = result; content = out.new } ≡ home_store g v.now (entry_of g.width section.now i) h }
{
    if h == 0 {
        section::entry_data(section, g.width, i, out);
        return layout::data_at(g, sector);
    }
    let tag = section::entry_tag(section, g.width, i);
    tag_store(v, tag, tags::tag_piece(g, sector, h), out)
}
