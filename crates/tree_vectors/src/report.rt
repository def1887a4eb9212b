// What the lines are made of.
use std::io::{self, Write};
use tree::Refusal;

// The number (R71) that a call answers, for 12 the level, and the end of the line.
pub(crate) fn answer<W: Write>(out: &mut W, answer: Result<(), Refusal>) -> io::Result<()> {
    write!(out, ": {}", answer.map_or_else(u32::from, |()| 0))?;
    match answer {
        Err(Refusal::DataDiffers) => out.write_all(b" level -1")?,
        Err(Refusal::LevelDiffers(l)) => write!(out, " level {l}")?,
        _ => (),
    }
    out.write_all(b"\n")
}
