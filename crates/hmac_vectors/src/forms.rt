// A mac made in both forms, and the end of its line.
ghost use Rattle.std.specs.Prelude.{◌≤◌, length};

use std::io::{self, Write};

// Prints the first n bytes of the mac, ` MAC`, where both forms give it, else ` differs`; or ` refused NUMBER`.
pub(crate) fn print_mac<W: Write>(
    out: &mut W,
    key: &[u8],
    message: &[u8],
    n: usize,
) -> io::Result<()>
    requires { (length key.now ≤ 257) × (length message.now ≤ 200) × (n ≤ 32) }
{
    match hmac::hmac(key, message) {
        Ok(mac) => print_both(out, mac, in_parts(key, message), n),
        Err(e) => writeln!(out, " refused {}", u32::from(e)),
    }
}

// The mac by a kept key, of the message in two parts.
fn in_parts(key: &[u8], message: &[u8]) -> [u8; 32]
    requires { (length key.now ≤ 257) × (length message.now ≤ 200) }
{
    let kept = hmac::keep(key);
    let half = message.len() / 2;
    hmac::mac_of_two(kept, &message[..half], &message[half..])
}

fn print_both<W: Write>(out: &mut W, one: [u8; 32], other: [u8; 32], n: usize) -> io::Result<()>
    requires { n ≤ 32 }
{
    if one != other {
        return out.write_all(b" differs\n");
    }
    out.write_all(b" ")?;
    hexadecimal::print(out, &one[..n])?;
    out.write_all(b"\n")
}
