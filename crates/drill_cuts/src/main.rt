// Power cuts, drilled: two batches on a fresh volume, cut after every store of them, and again after every store of the recovery that follows; then
// the volume recovers and every sector is read, as the ledger has it: R5.
//
// A line for each number of sections, then with every call under a key (R105), then on a layout on which a tag lies across two sectors (R116), so that some cuts
// come between the two stores of that tag. With one section, the second batch goes over the first in the journal; with two, a recovery may replay both. A drill
// has as many steps in its last recovery as R40 counts stores, so it is done recovering only if that is the number.
#![tactic(auto)]

mod case;
mod script;
mod tally;

use case::Case;
use drill::Moment;
use model::Refusal;
use script::Script;
use std::io;
use tally::Tally;

// The bytes of the larger volume, and of a section.
const VOLUME: usize = 110592;

const STAGING: usize = 45056;

// The bytes of the key.
const KEY: usize = 20;

// What a drill is lent.
#[derive(Drop)]
struct Loans {
    volume: [u8; VOLUME],
    staging: [u8; STAGING],
    script: Script,
}

fn main(rt: HostRuntime) -> io::Result<()> {
    let mut loans = Loans {
        volume: [0; VOLUME],
        staging: [0; STAGING],
        script: Script::new(),
    };
    let mut out = io::writer(&rt);
    let key = [75u8; KEY];
    lines(&mut out, None, false, &mut loans)?;
    lines(&mut out, Some(&key), false, &mut loans)?;
    lines(&mut out, None, true, &mut loans)
}

// A line for each number of sections.
fn lines<W: io::Write>(
    out: &mut W,
    key: Option<&[u8]>,
    crossing: bool,
    loans: &mut Loans,
) -> io::Result<()> {
    for sections in 1..=2 {
        let case = Case {
            key,
            crossing,
            sections,
        };
        drills(case, loans).print(out, case)?;
    }
    Ok(())
}

// Every drill of a case.
fn drills(case: Case, loans: &mut Loans) -> Tally {
    let mut all = Tally::default();
    for stores in 0..=case.stores() {
        recoveries(case, loans, stores, &mut all);
    }
    all
}

// The drills with the first cut after so many stores.
fn recoveries(case: Case, loans: &mut Loans, stores: usize, all: &mut Tally) {
    for again in 0..=case.replayed(stores) {
        let last = one_drill(case, loans, stores, again);
        all.add(case, last, &loans.volume, &loans.staging, stores);
    }
}

// One drill on a fresh volume, and what is live at its end.
fn one_drill(
    case: Case,
    loans: &mut Loans,
    stores: usize,
    again: usize,
) -> Result<Moment, Refusal> {
    loans.script.put(case, stores, again);
    loans.volume.fill(0);
    let g = case.layout();
    let script = loans.script.bytes();
    match case.key {
        None => drill::play(g, script, &mut loans.volume, &mut loans.staging),
        Some(key) => drill::play_keyed(g, key, script, &mut loans.volume, &mut loans.staging),
    }
}
