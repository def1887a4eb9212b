// What the drills come to.
use crate::case::Case;
use drill::Moment;
use model::{Refusal, State};
use std::io;
use volume::SECTOR_SIZE;

#[derive(Clone, Copy, Default)]
pub(crate) struct Tally {
    drills: usize,
    // those after which the volume was open and done recovering
    settled: usize,
    // the sectors read after those, and how many of them read as the ledger has them
    read: usize,
    agree: usize,
}

impl Tally {
    // One more drill, and what it left. If the volume is done recovering, every sector is read.
    pub(crate) fn add(
        &mut self,
        case: Case,
        last: Result<Moment, Refusal>,
        v: &[u8],
        st: &[u8],
        stores: usize,
    ) {
        self.drills = self.drills.wrapping_add(1);
        if let Ok(
            Moment {
                live: Some(s),
                settled: true,
            },
        ) = last
        {
            self.settled = self.settled.wrapping_add(1);
            self.read = self.read.wrapping_add(case.provided());
            self.agree = self.agree.wrapping_add(agreeing(case, s, v, st, stores));
        }
    }

    // A line.
    pub(crate) fn print<W: io::Write>(self, out: &mut W, case: Case) -> io::Result<()> {
        if case.key.is_some() {
            out.write_all(b"with a key, ")?;
        }
        if case.crossing {
            out.write_all(b"a tag across two sectors, ")?;
        }
        writeln!(
            out,
            "sections {}: drills {}, done recovering {}, sectors read {}, as the ledger has them {}",
            case.sections, self.drills, self.settled, self.read, self.agree
        )
    }
}

// How many sectors read as the ledger has them after so many stores.
fn agreeing(case: Case, s: State, v: &[u8], st: &[u8], stores: usize) -> usize {
    (0..case.provided())
        .filter(|&sector| reads(case, s, v, st, sector, case.expected(sector, stores)))
        .count()
}

// Whether a read of the sector gives 512 bytes of that value.
fn reads(case: Case, s: State, v: &[u8], st: &[u8], sector: usize, value: u8) -> bool {
    let mut bytes = [0u8; SECTOR_SIZE];
    let answer = match case.key {
        None => volume::read::read(s, v, st, sector, &mut bytes),
        Some(key) => volume::read::read_keyed(s, v, st, sector, &mut bytes, key),
    };
    answer.is_ok() && bytes == [value; SECTOR_SIZE]
}
