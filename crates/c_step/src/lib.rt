// The calls that store, on buffers, as crate gaffreel exports them: R43. What each leaves is defined in specs/Steps.antt.
//
// A call takes numbers and byte slices, and answers a number, as those of crate c_setup do. After a refusal every buffer but the answer's is as it was; of
// several steps, those before the refused one stay made.
#![tactic(auto)]

ghost use Rattle.std.specs.Prelude.{◌≡◌};
ghost use Rattle.c_step.specs.Steps.{step_buffers, step_call, advance_call, next_store_buffers, next_store_call};

use c_numbers::{answer_size, refuse, wrong_length};
use c_replies::{put_reply, step_reply};
use c_volume_state::{decode, encode};

// Makes the next store, or none when filling. Refused where the answer's buffer has a wrong length, where the state's buffer holds no
// state, or as stepping is.
#[tactic(auto, unfolding(crate::specs::Steps::step_call, c_numbers::specs::Called::called))]
pub fn step(state: &mut [u8], v: &mut [u8], staging: &mut [u8], answer: &mut [u8]) -> u32
    ensures { record { number = result; left = step_buffers state.new v.new staging.new; answer = answer.new }
        ≡ step_call state.old v.old staging.old answer.old }
{
    if answer.len() != answer_size() {
        return wrong_length();
    }
    let Some(mut s) = decode(state) else {
        return refuse(answer);
    };
    let said = volume::step::step(&mut s, v, staging);
    encode(s, state);
    put_reply(step_reply(said, 0, 0), answer)
}

// Makes so many steps, one after the other. Refused likewise; state, volume and staging are then as the steps before left them, and the answer
// has their counts.
#[tactic(auto, unfolding(crate::specs::Steps::advance_call, c_numbers::specs::Called::called))]
pub fn advance(
    state: &mut [u8],
    v: &mut [u8],
    staging: &mut [u8],
    steps: usize,
    answer: &mut [u8],
) -> u32
    ensures { record { number = result; left = step_buffers state.new v.new staging.new; answer = answer.new }
        ≡ advance_call state.old v.old staging.old steps answer.old }
{
    if answer.len() != answer_size() {
        return wrong_length();
    }
    let Some(mut s) = decode(state) else {
        return refuse(answer);
    };
    let advanced = volume::advance::advance(&mut s, v, staging, steps);
    encode(s, state);
    let acknowledged = u64::from(advanced.acknowledged);
    let reply = step_reply(advanced.answer, advanced.done as u64, acknowledged);
    put_reply(reply, answer)
}

// Makes a step but for its store, which is left to the volume's owner: the answer names the sector, and its content goes to the sector's buffer. Refused
// as a step is, and where the sector's buffer has a wrong length.
#[tactic(auto, unfolding(crate::specs::Steps::next_store_call, c_numbers::specs::Called::called))]
pub fn next_store(
    state: &mut [u8],
    v: &[u8],
    staging: &mut [u8],
    sector: &mut [u8],
    answer: &mut [u8],
) -> u32
    ensures { record { number = result; left = next_store_buffers state.new staging.new sector.new; answer = answer.new }
        ≡ next_store_call state.old v.now staging.old sector.old answer.old }
{
    if answer.len() != answer_size() {
        return wrong_length();
    }
    let Some(mut s) = decode(state) else {
        return refuse(answer);
    };
    let told = volume::next_store::next_store(&mut s, v, staging, sector);
    encode(s, state);
    put_reply(step_reply(told, 0, 0), answer)
}
