// The calls that read a sector and verify many, on buffers, as crate gaffreel exports them: R50, R51. What each leaves is defined in specs/Reads.antt.
//
// A call takes numbers and byte slices, and answers a number, as those of crate c_setup do. After a refusal every buffer but the answer's is as it was.
#![tactic(auto)]

ghost use Rattle.std.specs.Prelude.{◌≡◌};
ghost use Rattle.c_read.specs.Reads.{read_call, verify_call};

use c_numbers::{answer_size, refuse, wrong_length};
use c_replies::{plain_reply, put_reply};
use c_volume_state::decode;

// Reads a sector's bytes into a buffer. Refused where the answer's buffer has a wrong length, where the state's buffer holds no state, or as
// reading is.
#[tactic(auto, unfolding(crate::specs::Reads::read_call, c_numbers::specs::Called::called))]
pub fn read(
    state: &[u8],
    v: &[u8],
    staging: &[u8],
    sector: usize,
    bytes: &mut [u8],
    answer: &mut [u8],
) -> u32
    ensures { record { number = result; left = bytes.new; answer = answer.new }
        ≡ read_call state.now v.now staging.now sector bytes.old answer.old }
{
    if answer.len() != answer_size() {
        return wrong_length();
    }
    let Some(s) = decode(state) else {
        return refuse(answer);
    };
    let said = volume::read::read(s, v, staging, sector, bytes);
    put_reply(plain_reply(said), answer)
}

// Verifies so many sectors. Refused where the answer's buffer has a wrong length, where the state's buffer holds no state, or as verifying is.
#[tactic(auto, unfolding(crate::specs::Reads::verify_call, c_numbers::specs::Called::called))]
pub fn verify(state: &[u8], v: &[u8], first: usize, count: usize, answer: &mut [u8]) -> u32
    ensures { record { number = result; left = tt; answer = answer.new }
        ≡ verify_call state.now v.now first count answer.old }
{
    if answer.len() != answer_size() {
        return wrong_length();
    }
    let Some(s) = decode(state) else {
        return refuse(answer);
    };
    let said = volume::verify::verify(s, v, first, count);
    put_reply(plain_reply(said), answer)
}
