// A message digested in both forms, and the end of its line.
use digest::{DIGEST_SIZE, TooLong};
use std::io::{self, Write};

// The longest piece. A block is 64 bytes, so pieces of 1, 2, .. 97 bytes in turn end at each place of a block and go past its end.
const LONGEST: usize = 97;

// Prints ` DIGEST` where both forms give it, else ` differs`.
pub(crate) fn print_digest<W: Write>(out: &mut W, message: &[u8]) -> io::Result<()> {
    match (digest::sha256(message), in_pieces(message)) {
        (Ok(one), Ok(many)) if one == many => {
            out.write_all(b" ")?;
            hexadecimal::print(out, &one)?;
            out.write_all(b"\n")
        }
        _ => out.write_all(b" differs\n"),
    }
}

// The digest of a message that is added in uneven pieces.
fn in_pieces(message: &[u8]) -> Result<[u8; DIGEST_SIZE], TooLong> {
    let mut s = digest::fresh();
    let mut rest = message;
    let mut size = 1;
    while !rest.is_empty() {
        let (piece, behind) = rest.split_at(rest.len().min(size));
        s = digest::update(s, piece)?;
        rest = behind;
        size = size % LONGEST + 1;
    }
    digest::finish(s)
}
