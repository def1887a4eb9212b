// The calls that make and open a volume, on buffers, as crate gaffreel exports them: R35 to R40. What each leaves is defined in
// specs/Setup.antt.
//
// A call takes numbers and byte slices, and answers a number: 0 where it was carried out, else that of a refusal (R71). What it
// says besides goes to an answer's buffer. After a refusal every other buffer is as it was.
//
// Crates c_volume_state and c_replies lay out the buffers.
#![tactic(auto)]

ghost use Rattle.std.specs.Prelude.{◌≡◌};
ghost use Rattle.c_setup.specs.Setup.{layout_with, format_call, query_call, open_call};

use c_numbers::{answer_size, layout_size, refuse, volume_state_size, wrong_length};
use c_replies::{open_reply, plain_reply, put_held, put_opened, put_reply, query_reply};
use on_disk::Layout;

// Formats a volume for a layout. Refused where the answer's buffer has a wrong length, or as formatting is.
#[tactic(auto, unfolding(crate::specs::Setup::format_call, c_numbers::specs::Called::called))]
pub fn format(
    v: &mut [u8],
    reserved: usize,
    shift: usize,
    width: usize,
    sections: usize,
    provided: usize,
    answer: &mut [u8],
) -> u32
    ensures { record { number = result; left = v.new; answer = answer.new }
        ≡ format_call v.old (layout_with reserved shift width sections provided) answer.old }
{
    if answer.len() != answer_size() {
        return wrong_length();
    }
    let g = Layout {
        reserved,
        shift,
        width,
        sections,
        provided,
    };
    let said = volume::format::format(v, g);
    put_reply(plain_reply(said), answer)
}

// The numbers that a volume's superblock holds, and the bytes that staging must have. Refused where the answer's or the layout's buffer has a
// wrong length, or as querying is.
#[tactic(auto, unfolding(crate::specs::Setup::query_call, c_numbers::specs::Called::called))]
pub fn query(v: &[u8], reserved: usize, layout: &mut [u8], answer: &mut [u8]) -> u32
    ensures { record { number = result; left = layout.new; answer = answer.new }
        ≡ query_call v.now reserved layout.old answer.old }
{
    if answer.len() != answer_size() {
        return wrong_length();
    }
    if layout.len() != layout_size() {
        return refuse(answer);
    }
    let said = volume::query::query(v, reserved);
    put_held(said, layout);
    put_reply(query_reply(said), answer)
}

// Opens a volume: its state, and an empty batch in staging. Refused where the answer's or the state's buffer has a wrong length, or as opening is.
#[tactic(auto, unfolding(crate::specs::Setup::open_call, c_numbers::specs::Called::called))]
pub fn open(
    v: &[u8],
    staging: &mut [u8],
    reserved: usize,
    state: &mut [u8],
    answer: &mut [u8],
) -> u32
    ensures { record { number = result; left = record { staging = staging.exit.now; state = state.new }; answer = answer.new }
        ≡ open_call v.now staging.entry.now reserved state.old answer.old }
{
    if answer.len() != answer_size() {
        return wrong_length();
    }
    if state.len() != volume_state_size() {
        return refuse(answer);
    }
    let said = volume::open::open(v, staging, reserved);
    put_opened(said, state);
    put_reply(open_reply(said), answer)
}
