// The volume's calls as the examples make them, on one layout and one logical sector.
use crate::Failure;
use model::{Refusal, Says, State, Step};
use on_disk::Layout;
use std::io::{self, Write};
use volume::SECTOR_SIZE;

// The logical sector that is written and read.
const SECTOR: usize = 5;

// More steps than any example takes.
const MOST_STEPS: usize = 200;

// The stores from a flush to filling: how many, and the one by which the batch was acknowledged.
#[derive(Clone, Copy)]
pub(crate) struct Course {
    pub(crate) stores: usize,
    pub(crate) acknowledged: usize,
}

fn layout() -> Layout {
    Layout {
        reserved: 0,
        shift: 4,
        width: 32,
        sections: 1,
        provided: 16,
    }
}

// The volume made new, and opened.
pub(crate) fn fresh(v: &mut [u8], st: &mut [u8]) -> Result<State, Refusal> {
    v.fill(0);
    volume::format::format(v, layout())?;
    let opened = volume::open::open(v, st, 0)?;
    Ok(opened.state)
}

pub(crate) fn write(s: &mut State, st: &mut [u8], value: u8) -> Result<(), Refusal> {
    volume::write::write(s, st, SECTOR, &[value; SECTOR_SIZE])
}

// The batch flushed, and stepped until the volume is filling; each sector stored is printed where that is asked.
pub(crate) fn commit<W: Write>(
    out: &mut W,
    s: &mut State,
    v: &mut [u8],
    st: &mut [u8],
    printed: bool,
) -> Result<Course, Failure> {
    volume::flush::flush(s)?;
    let mut acknowledged = 0;
    for stores in 1..=MOST_STEPS {
        let step = volume::step::step(s, v, st)?;
        if printed {
            print_store(out, step)?;
        }
        match step.says {
            Says::Nothing => {}
            Says::Acknowledged => acknowledged = stores,
            Says::Filling => {
                return Ok(Course {
                    stores,
                    acknowledged,
                });
            }
        }
    }
    Ok(Course {
        stores: MOST_STEPS,
        acknowledged,
    })
}

fn print_store<W: Write>(out: &mut W, step: Step) -> io::Result<()> {
    match step.stored {
        Some(at) => write!(out, " {at}"),
        None => write!(out, " none"),
    }
}

// The value of every byte of the sector, where they are all of one.
pub(crate) fn value(s: State, v: &[u8], st: &[u8]) -> Result<Option<u8>, Refusal> {
    let mut bytes = [0u8; SECTOR_SIZE];
    volume::read::read(s, v, st, SECTOR, &mut bytes)?;
    let first = bytes[0];
    Ok(bytes.iter().all(|b| *b == first).then_some(first))
}
