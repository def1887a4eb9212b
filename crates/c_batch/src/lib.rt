// The calls that make and commit a batch, on buffers, as crate gaffreel exports them: R41, R42. What each leaves is defined in
// specs/Batch.antt.
//
// A call takes numbers and byte slices, and answers a number, as those of crate c_setup do. After a refusal every buffer but the answer's is as it was.
#![tactic(auto)]

ghost use Rattle.std.specs.Prelude.{◌≡◌};
ghost use Rattle.c_batch.specs.Batch.{write_call, flush_call};

use c_numbers::{answer_size, refuse, wrong_length};
use c_replies::{flush_reply, plain_reply, put_reply};
use c_volume_state::{decode, encode};

// Adds a sector's bytes to the batch in staging. Refused where the answer's buffer has a wrong length, where the state's buffer holds no
// state, or as writing is.
#[tactic(auto, unfolding(crate::specs::Batch::write_call, c_numbers::specs::Called::called))]
pub fn write(
    state: &mut [u8],
    staging: &mut [u8],
    sector: usize,
    bytes: &[u8],
    answer: &mut [u8],
) -> u32
    ensures { record { number = result; left = record { state = state.exit.now; staging = staging.new }; answer = answer.new }
        ≡ write_call state.entry.now staging.old sector bytes.now answer.old }
{
    if answer.len() != answer_size() {
        return wrong_length();
    }
    let Some(mut s) = decode(state) else {
        return refuse(answer);
    };
    let said = volume::write::write(&mut s, staging, sector, bytes);
    encode(s, state);
    put_reply(plain_reply(said), answer)
}

// Begins to commit the batch, or acknowledges an empty one. Refused likewise.
#[tactic(auto, unfolding(crate::specs::Batch::flush_call, c_numbers::specs::Called::called))]
pub fn flush(state: &mut [u8], answer: &mut [u8]) -> u32
    ensures { record { number = result; left = state.new; answer = answer.new }
        ≡ flush_call state.old answer.old }
{
    if answer.len() != answer_size() {
        return wrong_length();
    }
    let Some(mut s) = decode(state) else {
        return refuse(answer);
    };
    let said = volume::flush::flush(&mut s);
    encode(s, state);
    put_reply(flush_reply(said), answer)
}
