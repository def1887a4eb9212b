// Bytes in hexadecimal, for the programs that print digests.
#![tactic(auto)]

use std::io::{self, Write};

// Prints two digits for each byte, in lower case, and no line end.
pub fn print<W: Write>(out: &mut W, bytes: &[u8]) -> io::Result<()> {
    for b in bytes {
        write!(out, "{b:02x}")?;
    }
    Ok(())
}
