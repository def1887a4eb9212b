// Vectors of HMAC with SHA-256: one line each, `NAME MAC`, the mac in hexadecimal, or `NAME refused NUMBER`. Each mac is made in one call, and by a
// kept key from the message in two parts; where the two differ, the line is `NAME differs`.
//
// The expected lines are in the file stdout beside src/.
// - rfc4231-1 to rfc4231-7: the cases of RFC 4231, section 4, with the values printed there; of case 5 the first 16 bytes.
// - key-0 to key-257: a key of each length n, whose byte i is (7 i + 5 n) mod 256. The message has (7 n) mod 201 bytes, so each length up to 200 is
//   met; its byte i is (7 i + 13 n) mod 256. The macs are those of openssl; keys of 0 and 257 bytes are refused, R106.
// tests/hmac_vectors.sh has openssl make all of them again.
#![tactic(auto)]

mod forms;

ghost use Rattle.std.specs.Prelude.{◌≤◌, length};

use forms::print_mac;
use hmac::MOST_KEY;
use std::io::{self, BufWriter, Write};

// The bytes of a mac.
const MAC_SIZE: usize = 32;

// The most bytes of a message key-n.
const MESSAGE_MOST: usize = 200;

fn main(rt: HostRuntime) -> io::Result<()> {
    let mut out = BufWriter::new(rt.alloc(), io::writer(&rt))?;
    short_keys(&mut out)?;
    truncated(&mut out)?;
    long_keys(&mut out)?;
    lengths(&mut out)?;
    out.flush()
}

fn short_keys<W: Write>(out: &mut W) -> io::Result<()> {
    let b = [0x0bu8; 20];
    vector(out, b"rfc4231-1", &b, b"Hi There")?;
    vector(out, b"rfc4231-2", b"Jefe", b"what do ya want for nothing?")?;
    let a = [0xaau8; 20];
    let d = [0xddu8; 50];
    vector(out, b"rfc4231-3", &a, &d)?;
    let c = [0xcdu8; 50];
    vector(
        out,
        b"rfc4231-4",
        b"\x01\x02\x03\x04\x05\x06\x07\x08\x09\x0a\x0b\x0c\x0d\x0e\x0f\x10\x11\x12\x13\x14\x15\x16\x17\x18\x19",
        &c,
    )
}

// The RFC prints 128 bits of this mac.
fn truncated<W: Write>(out: &mut W) -> io::Result<()> {
    let c = [0x0cu8; 20];
    out.write_all(b"rfc4231-5")?;
    print_mac(out, &c, b"Test With Truncation", 16)
}

// Keys longer than a block.
fn long_keys<W: Write>(out: &mut W) -> io::Result<()> {
    let a = [0xaau8; 131];
    vector(
        out,
        b"rfc4231-6",
        &a,
        b"Test Using Larger Than Block-Size Key - Hash Key First",
    )?;
    vector(
        out,
        b"rfc4231-7",
        &a,
        b"This is a test using a larger than block-size key and a larger than block-size data. The key needs to be hashed before being used by the HMAC algorithm.",
    )
}

// The line of one key and message.
fn vector<W: Write>(out: &mut W, name: &[u8], key: &[u8], message: &[u8]) -> io::Result<()>
    requires { (length key.now ≤ 257) × (length message.now ≤ 200) }
{
    out.write_all(name)?;
    print_mac(out, key, message, MAC_SIZE)
}

fn lengths<W: Write>(out: &mut W) -> io::Result<()> {
    for n in 0..=MOST_KEY + 1 {
        pattern(out, n)?;
    }
    Ok(())
}

// The line key-n.
fn pattern<W: Write>(out: &mut W, n: usize) -> io::Result<()>
    requires { n ≤ 257 }
{
    let mut key = [0u8; MOST_KEY + 1];
    let mut message = [0u8; MESSAGE_MOST];
    let size = 7 * n % (MESSAGE_MOST + 1);
    fill(&mut key, 5 * n);
    fill(&mut message, 13 * n);
    write!(out, "key-{n}")?;
    print_mac(out, &key[..n], &message[..size], MAC_SIZE)
}

// Sets byte i of d to (7 i + x) mod 256.
fn fill(d: &mut [u8], x: usize)
    requires { (length d.old ≤ 257) × (x ≤ 65535) }
{
    for (i, byte) in d.iter_mut().enumerate() {
        *byte = ((i * 7 + x) % 256) as u8;
    }
}
