// The bench program: R88. Reads an image from standard input and prints its report; volume_report says what that is.
#![tactic(auto)]

ghost use Rattle.std.specs.Prelude.{◌≤◌, length, IfOk};

use std::io::{self, Read, Write};
use volume_report::{REPORT_SIZE, report};

// One byte more than the longest image, so that a longer input is seen to be one.
const INPUT_SIZE: usize = 65537;

fn main(rt: HostRuntime) -> io::Result<()> {
    let mut image = [0u8; INPUT_SIZE];
    let mut text = [0u8; REPORT_SIZE];
    let length = read_full(&mut rt.stdin(), &mut image)?;
    let printed = report(&mut image[..length], &mut text);
    io::writer(&rt).write_all(&text[..printed])
}

// Reads until buf is full or the input ends, and gives how many bytes it put at the start of buf.
fn read_full<R: Read>(input: &mut R, buf: &mut [u8]) -> io::Result<usize>
    ensures { IfOk result (λ n. n ≤ length buf.new) }
{
    let mut done = 0;
    while done < buf.len() {
        let n = input.read(&mut buf[done..])?;
        if n == 0 {
            break;
        }
        done += n;
    }
    Ok(done)
}
