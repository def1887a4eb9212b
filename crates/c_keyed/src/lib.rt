// The calls of a volume whose tags are under a key, on buffers, as crate gaffreel exports them: R105, R106. What each leaves is defined in
// specs/Keyed.antt.
//
// Each is the call of that name in crate c_setup, c_batch or c_read, with a key of 1 to 256 bytes that is lent behind what the call of crate volume
// is lent. After a refusal every buffer but the answer's is as it was.
#![tactic(auto)]

ghost use Rattle.std.specs.Prelude.{◌≡◌};
ghost use Rattle.c_setup.specs.Setup.{layout_with};
ghost use Rattle.c_keyed.specs.Keyed.{format_keyed_call, open_keyed_call, write_keyed_call, read_keyed_call, verify_keyed_call};

use c_numbers::{answer_size, refuse, volume_state_size, wrong_length};
use c_replies::{open_reply, plain_reply, put_opened, put_reply};
use c_volume_state::{decode, encode};
use on_disk::Layout;

// Formats a volume for a layout. Refused where the answer's buffer has a wrong length, or as formatting is.
#[tactic(auto, unfolding(crate::specs::Keyed::format_keyed_call, c_numbers::specs::Called::called))]
pub fn format_keyed(
    v: &mut [u8],
    reserved: usize,
    shift: usize,
    width: usize,
    sections: usize,
    provided: usize,
    key: &[u8],
    answer: &mut [u8],
) -> u32
    ensures { record { number = result; left = v.new; answer = answer.new }
        ≡ format_keyed_call v.old (layout_with reserved shift width sections provided) key.now answer.old }
{
    if answer.len() != answer_size() {
        return wrong_length();
    }
    let g = Layout {
        reserved,
        shift,
        width,
        sections,
        provided,
    };
    let said = volume::format::format_keyed(v, g, key);
    put_reply(plain_reply(said), answer)
}

// Opens a volume: its state, and an empty batch in staging. Refused where the answer's or the state's buffer has a wrong length, or as opening is.
#[tactic(auto, unfolding(crate::specs::Keyed::open_keyed_call, c_numbers::specs::Called::called))]
pub fn open_keyed(
    v: &[u8],
    staging: &mut [u8],
    reserved: usize,
    key: &[u8],
    state: &mut [u8],
    answer: &mut [u8],
) -> u32
    ensures { record { number = result; left = record { staging = staging.exit.now; state = state.new }; answer = answer.new }
        ≡ open_keyed_call v.now staging.entry.now reserved key.now state.old answer.old }
{
    if answer.len() != answer_size() {
        return wrong_length();
    }
    if state.len() != volume_state_size() {
        return refuse(answer);
    }
    let said = volume::open::open_keyed(v, staging, reserved, key);
    put_opened(said, state);
    put_reply(open_reply(said), answer)
}

// Adds a sector's bytes to the batch in staging. Refused where the answer's buffer has a wrong length, where the state's buffer holds no
// state, or as writing is.
#[tactic(auto, unfolding(crate::specs::Keyed::write_keyed_call, c_numbers::specs::Called::called))]
pub fn write_keyed(
    state: &mut [u8],
    staging: &mut [u8],
    sector: usize,
    bytes: &[u8],
    key: &[u8],
    answer: &mut [u8],
) -> u32
    ensures { record { number = result; left = record { state = state.exit.now; staging = staging.new }; answer = answer.new }
        ≡ write_keyed_call state.entry.now staging.old sector bytes.now key.now answer.old }
{
    if answer.len() != answer_size() {
        return wrong_length();
    }
    let Some(mut s) = decode(state) else {
        return refuse(answer);
    };
    let said = volume::write::write_keyed(&mut s, staging, sector, bytes, key);
    encode(s, state);
    put_reply(plain_reply(said), answer)
}

// Reads a sector's bytes into a buffer. Refused where the answer's buffer has a wrong length, where the state's buffer holds no state, or as
// reading is.
#[tactic(auto, unfolding(crate::specs::Keyed::read_keyed_call, c_numbers::specs::Called::called))]
pub fn read_keyed(
    state: &[u8],
    v: &[u8],
    staging: &[u8],
    sector: usize,
    bytes: &mut [u8],
    key: &[u8],
    answer: &mut [u8],
) -> u32
    ensures { record { number = result; left = bytes.new; answer = answer.new }
        ≡ read_keyed_call state.now v.now staging.now sector bytes.old key.now answer.old }
{
    if answer.len() != answer_size() {
        return wrong_length();
    }
    let Some(s) = decode(state) else {
        return refuse(answer);
    };
    let said = volume::read::read_keyed(s, v, staging, sector, bytes, key);
    put_reply(plain_reply(said), answer)
}

// Verifies so many sectors. Refused where the answer's buffer has a wrong length, where the state's buffer holds no state, or as verifying is.
#[tactic(auto, unfolding(crate::specs::Keyed::verify_keyed_call, c_numbers::specs::Called::called))]
pub fn verify_keyed(
    state: &[u8],
    v: &[u8],
    first: usize,
    count: usize,
    key: &[u8],
    answer: &mut [u8],
) -> u32
    ensures { record { number = result; left = tt; answer = answer.new }
        ≡ verify_keyed_call state.now v.now first count key.now answer.old }
{
    if answer.len() != answer_size() {
        return wrong_length();
    }
    let Some(s) = decode(state) else {
        return refuse(answer);
    };
    let said = volume::verify::verify_keyed(s, v, first, count, key);
    put_reply(plain_reply(said), answer)
}
