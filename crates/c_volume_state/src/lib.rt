// A volume's state and layout in a buffer: specs/VolumeState.antt.
//
// A state is thirteen numbers of 8 bytes each, little-endian: the layout's eight, of which the last three have no meaning yet and are 0, which phase, the
// two of its place, the count, the id.
//
// These are functions for crate c_replies and the volume's calls on buffers. A buffer's length is tested once, by `decode` or by the call; so a function
// that writes may have a `requires`, and every caller shows it.
#![tactic(auto)]

ghost use Rattle.std.specs.Prelude.{◌≡◌, ◌≤◌, length, OnSome};
ghost use Rattle.octets.specs.Choice.{pick};
ghost use Rattle.octets.specs.Parts.{patch};
ghost use Rattle.c_numbers.specs.Sizes.{layout_size, volume_state_size};
ghost use Rattle.c_volume_state.specs.VolumeState.{phase_numbers_of, phase_of, is_phase, layout_bytes_of, layout_of, encode_of, unused_are_zero, state_in};

use c_numbers::{number_at, put_numbers, volume_state_size};
use model::{Phase, State};
use on_disk::Layout;

// The places of a state's numbers behind its layout's.
const PHASE: usize = 8;

const FIRST: usize = 9;

const SECOND: usize = 10;

const COUNT: usize = 11;

const ID: usize = 12;

// The number of each phase.
const FILLING: u64 = 0;

const COMMITTING: u64 = 1;

const WRITING_BACK: u64 = 2;

const RECOVERING: u64 = 3;

// A phase as it lies in a buffer: which it is, and the two numbers of its place, 0 where it has none.
#[derive(Clone, Copy)]
pub(crate) struct PhaseNumbers {
    phase: u64,
    first: u64,
    second: u64,
}

// The numbers of a phase.
fn phase_numbers(p: Phase) -> PhaseNumbers
    ensures { result ≡ phase_numbers_of p }
{
    let (phase, first, second) = match p {
        Phase::Filling => (FILLING, 0, 0),
        Phase::Committing(j) => (COMMITTING, j, 0),
        Phase::WritingBack(i, h) => (WRITING_BACK, i, h),
        Phase::Recovering(k) => (RECOVERING, k, 0),
    };
    PhaseNumbers {
        phase,
        first: first as u64,
        second: second as u64,
    }
}

// The phase of three numbers, if they are those of one.
#[tactic(auto, unfolding(crate::specs::VolumeState::phase_of, crate::specs::VolumeState::is_phase))]
fn phase_of(phase: u64, first: u64, second: u64) -> Option<Phase>
    ensures { result ≡ pick (is_phase phase first second) (Some (phase_of phase first second)) None }
{
    match (phase, first, second) {
        (FILLING, 0, 0) => Some(Phase::Filling),
        (COMMITTING, j, 0) => Some(Phase::Committing(j as usize)),
        (WRITING_BACK, i, h) => Some(Phase::WritingBack(i as usize, h as usize)),
        (RECOVERING, k, 0) => Some(Phase::Recovering(k as usize)),
        _ => None,
    }
}

// A layout written to the start of a buffer.
#[tactic(auto, unfolding(crate::specs::VolumeState::layout_numbers_of))]
pub fn put_layout(g: Layout, buffer: &mut [u8])
    requires { layout_size ≤ length buffer.old }
    ensures { buffer.new ≡ patch buffer.old 0 (layout_bytes_of g) }
{
    let numbers = [
        g.reserved as u64,
        g.shift as u64,
        g.width as u64,
        g.sections as u64,
        g.provided as u64,
        0,
        0,
        0,
    ];
    put_numbers(buffer, 0, &numbers);
}

// A state written over a buffer of its length.
pub fn encode(s: State, buffer: &mut [u8])
    requires { length buffer.old ≡ volume_state_size }
    ensures { buffer.new ≡ encode_of s }
{
    put_layout(s.layout, buffer);
    let place = phase_numbers(s.phase);
    let numbers = [place.phase, place.first, place.second, s.count as u64, s.id];
    put_numbers(buffer, PHASE, &numbers);
}

// Whether the numbers of a state that have no meaning yet are 0.
#[tactic(auto, unfolding(crate::specs::VolumeState::unused_are_zero))]
fn unused_are_zero(buffer: &[u8]) -> bool
    requires { length buffer.now ≡ volume_state_size }
    ensures { result ≡ unused_are_zero buffer.now }
{
    number_at(buffer, 5) == 0 && number_at(buffer, 6) == 0 && number_at(buffer, 7) == 0
}

// The layout that a buffer begins with.
#[tactic(auto, unfolding(crate::specs::VolumeState::layout_of))]
fn layout_of(buffer: &[u8]) -> Layout
    requires { layout_size ≤ length buffer.now }
    ensures { result ≡ layout_of buffer.now }
{
    Layout {
        reserved: number_at(buffer, 0) as usize,
        shift: number_at(buffer, 1) as usize,
        width: number_at(buffer, 2) as usize,
        sections: number_at(buffer, 3) as usize,
        provided: number_at(buffer, 4) as usize,
    }
}

// The state that a buffer holds, if it holds one.
#[tactic(auto, unfolding(crate::specs::VolumeState::encodes_state, crate::specs::VolumeState::decode_of))]
pub fn decode(buffer: &[u8]) -> Option<State>
    ensures read { result ≡ state_in buffer.now }
    ensures size { OnSome result (length buffer.now ≡ volume_state_size) }
{
    if buffer.len() != volume_state_size() || !unused_are_zero(buffer) {
        return None;
    }
    let phase = phase_of(
        number_at(buffer, PHASE),
        number_at(buffer, FIRST),
        number_at(buffer, SECOND),
    )?;
    Some(State {
        layout: layout_of(buffer),
        phase,
        count: number_at(buffer, COUNT) as usize,
        id: number_at(buffer, ID),
    })
}
