// Vectors of SHA-256: one line each, `NAME DIGEST`, the digest in hexadecimal. Each message is digested in one call and in pieces; where the
// two differ, or a call is refused, the line is `NAME differs`.
//
// The expected lines are in the file stdout beside src/. Their digests are published for
// - abc and fips-448, a message of one block and one of two: NIST's examples for FIPS 180-4;
// - million-a: FIPS 180-2, appendix B;
// - empty: NIST's byte-oriented test vectors for SHA-256, length 0;
// - nist-bd to zeros-1000000: NIST's additional tests for SHA-256, the first ten.
// The others are those of sha256sum: fips-896, a message that FIPS 180-2 has for SHA-512, and length-0 to length-300, where byte i of
// length-n is (7 i + 13 n) mod 256. tests/digest_vectors.sh has sha256sum make all of them again.
#![tactic(auto)]

mod forms;

ghost use Rattle.std.specs.Prelude.{◌≤◌};

use forms::print_digest;
use std::io::{self, BufWriter, Write};

// The most bytes of a message of one byte repeated, but for the million.
const REPEATED_MOST: usize = 1005;

// The most bytes of a message length-n.
const PATTERN_MOST: usize = 300;

fn main(rt: HostRuntime) -> io::Result<()> {
    let mut out = BufWriter::new(rt.alloc(), io::writer(&rt))?;
    fips(&mut out)?;
    nist(&mut out)?;
    lengths(&mut out)?;
    out.flush()
}

fn fips<W: Write>(out: &mut W) -> io::Result<()> {
    vector(out, b"empty", b"")?;
    vector(out, b"abc", b"abc")?;
    vector(
        out,
        b"fips-448",
        b"abcdbcdecdefdefgefghfghighijhijkijkljklmklmnlmnomnopnopq",
    )?;
    vector(
        out,
        b"fips-896",
        b"abcdefghbcdefghicdefghijdefghijkefghijklfghijklmghijklmnhijklmnoijklmnopjklmnopqklmnopqrlmnopqrsmnopqrstnopqrstu",
    )?;
    million(out, b"million-a", b'a')
}

fn nist<W: Write>(out: &mut W) -> io::Result<()> {
    vector(out, b"nist-bd", b"\xbd")?;
    vector(out, b"nist-c98c8e55", b"\xc9\x8c\x8e\x55")?;
    repeated(out, b"zeros-55", 0, 55)?;
    repeated(out, b"zeros-56", 0, 56)?;
    repeated(out, b"zeros-57", 0, 57)?;
    repeated(out, b"zeros-64", 0, 64)?;
    repeated(out, b"zeros-1000", 0, 1000)?;
    repeated(out, b"nist-a-1000", b'A', 1000)?;
    repeated(out, b"nist-u-1005", b'U', 1005)?;
    million(out, b"zeros-1000000", 0)
}

fn lengths<W: Write>(out: &mut W) -> io::Result<()> {
    for n in 0..=PATTERN_MOST {
        pattern(out, n)?;
    }
    Ok(())
}

// The line of one message.
fn vector<W: Write>(out: &mut W, name: &[u8], message: &[u8]) -> io::Result<()> {
    out.write_all(name)?;
    print_digest(out, message)
}

// The line of n bytes x.
fn repeated<W: Write>(out: &mut W, name: &[u8], x: u8, n: usize) -> io::Result<()>
    requires { n ≤ 1005 }
{
    let mut message = [0u8; REPEATED_MOST];
    message[..n].fill(x);
    vector(out, name, &message[..n])
}

// The line of a million bytes x.
fn million<W: Write>(out: &mut W, name: &[u8], x: u8) -> io::Result<()> {
    let message = [x; 1000000];
    vector(out, name, &message)
}

// The line length-n: byte i of the message is (7 i + 13 n) mod 256.
fn pattern<W: Write>(out: &mut W, n: usize) -> io::Result<()>
    requires { n ≤ 300 }
{
    let mut message = [0u8; PATTERN_MOST];
    for (i, byte) in message.iter_mut().enumerate() {
        *byte = ((i * 7 + n * 13) % 256) as u8;
    }
    write!(out, "length-{n}")?;
    print_digest(out, &message[..n])
}
