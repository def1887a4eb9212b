// The examples of R92, run by the volume's own calls: r 0, T 32, N 16, S 1, P 16, so 120 sectors.
//
// Sector 5 is written with 512 bytes of one value, and read back at the end: the value that is printed is that of all 512 bytes.
#![tactic(auto)]

mod calls;

use calls::Course;
use model::{Refusal, State};
use std::io::{self, BufWriter, Write};

// The bytes of 120 sectors, and of a section of 88.
const VOLUME: usize = 61440;

const STAGING: usize = 45056;

// More writes than a batch takes.
const MOST_WRITES: usize = 100;

// What ends the examples early: a line that cannot be printed, or a call that is refused where none should be.
#[derive(Drop)]
enum Failure {
    Io(io::Error),
    Refused(Refusal),
}

impl From<io::Error> for Failure {
    fn from(error: io::Error) -> Failure {
        Failure::Io(error)
    }
}

impl From<Refusal> for Failure {
    fn from(refusal: Refusal) -> Failure {
        Failure::Refused(refusal)
    }
}

fn main(rt: HostRuntime) -> io::Result<()> {
    let mut v = [0u8; VOLUME];
    let mut st = [0u8; STAGING];
    let mut out = BufWriter::new(rt.alloc(), io::writer(&rt))?;
    match examples(&mut out, &mut v, &mut st) {
        Ok(()) => {}
        Err(Failure::Io(error)) => return Err(error),
        Err(Failure::Refused(refusal)) => {
            let number = u32::from(refusal);
            writeln!(out, "refused {number}")?;
        }
    }
    out.flush()
}

fn examples<W: Write>(out: &mut W, v: &mut [u8], st: &mut [u8]) -> Result<(), Failure> {
    full_batch(out, v, st)?;
    one_write(out, v, st)?;
    cut_after(out, v, st, 87)?;
    cut_after(out, v, st, 88)?;
    same_sector_twice(out, v, st)
}

// A batch takes 80 writes; one more is refused 8.
fn full_batch<W: Write>(out: &mut W, v: &mut [u8], st: &mut [u8]) -> Result<(), Failure> {
    let mut s = calls::fresh(v, st)?;
    for taken in 0..MOST_WRITES {
        if let Err(refusal) = calls::write(&mut s, st, 1) {
            let number = u32::from(refusal);
            writeln!(out, "writes taken {taken}, the next refused {number}")?;
            break;
        }
    }
    Ok(())
}

// One write: 88 stores to the journal, by the last of which it is acknowledged, then its data and its tag, and the volume is filling.
fn one_write<W: Write>(out: &mut W, v: &mut [u8], st: &mut [u8]) -> Result<(), Failure> {
    let mut s = calls::fresh(v, st)?;
    calls::write(&mut s, st, 1)?;
    write!(out, "one write: stores to")?;
    let course = calls::commit(out, &mut s, v, st, true)?;
    write!(out, "\none write")?;
    ending(out, course, s, v, st)
}

// One sector twice in a batch: 88 stores and four, and the later bytes.
fn same_sector_twice<W: Write>(out: &mut W, v: &mut [u8], st: &mut [u8]) -> Result<(), Failure> {
    let mut s = calls::fresh(v, st)?;
    calls::write(&mut s, st, 1)?;
    calls::write(&mut s, st, 2)?;
    let course = calls::commit(out, &mut s, v, st, false)?;
    write!(out, "the same sector twice")?;
    ending(out, course, s, v, st)
}

// A cut before the 88th store loses the write, one behind it does not.
fn cut_after<W: Write>(
    out: &mut W,
    v: &mut [u8],
    st: &mut [u8],
    stores: usize,
) -> Result<(), Failure> {
    commit_part(v, st, stores)?;
    write!(out, "one write, a cut after store {stores}")?;
    let s = recover(out, v, st)?;
    held(out, s, v, st)
}

// One write, and so many stores of its commit.
fn commit_part(v: &mut [u8], st: &mut [u8], stores: usize) -> Result<(), Refusal> {
    let mut s = calls::fresh(v, st)?;
    calls::write(&mut s, st, 1)?;
    volume::flush::flush(&mut s)?;
    volume::advance::advance(&mut s, v, st, stores);
    Ok(())
}

// Opened again, and stepped until the volume is filling.
fn recover<W: Write>(out: &mut W, v: &mut [u8], st: &mut [u8]) -> Result<State, Failure> {
    let opened = volume::open::open(v, st, 0)?;
    let stores = opened.stores;
    write!(out, ": stores to come {stores}")?;
    let mut s = opened.state;
    volume::advance::advance(&mut s, v, st, stores);
    Ok(s)
}

fn ending<W: Write>(
    out: &mut W,
    course: Course,
    s: State,
    v: &[u8],
    st: &[u8],
) -> Result<(), Failure> {
    let Course {
        stores,
        acknowledged,
    } = course;
    write!(
        out,
        ": acknowledged by store {acknowledged}, filling after store {stores}"
    )?;
    held(out, s, v, st)
}

fn held<W: Write>(out: &mut W, s: State, v: &[u8], st: &[u8]) -> Result<(), Failure> {
    match calls::value(s, v, st)? {
        Some(value) => writeln!(out, ", sector 5 reads {value}")?,
        None => writeln!(out, ", sector 5 reads more than one value")?,
    }
    Ok(())
}
