// The calls of a volume whose tags are under a key: R105, R106; by crate c_keyed, which says what each leaves. The other calls of such a volume are those of
// module volumes.
ghost use Rattle.std.specs.Prelude.{◌≡◌};
ghost use Rattle.c_setup.specs.Setup.{layout_with};
ghost use Rattle.c_keyed.specs.Keyed.{format_keyed_call, open_keyed_call, write_keyed_call, read_keyed_call, verify_keyed_call};

// Formats a volume for a layout.
#[unsafe(no_mangle)]
pub extern "C" fn gaffreel_volume_format_keyed(
    v: &mut [u8],
    reserved: usize,
    shift: usize,
    width: usize,
    sections: usize,
    provided: usize,
    key: &[u8],
    answer: &mut [u8],
) -> u32
    ensures { record { number = result; left = v.new; answer = answer.new }
        ≡ format_keyed_call v.old (layout_with reserved shift width sections provided) key.now answer.old }
{
    c_keyed::format_keyed(v, reserved, shift, width, sections, provided, key, answer)
}

// Opens a volume: its state, and an empty batch in staging.
#[unsafe(no_mangle)]
pub extern "C" fn gaffreel_volume_open_keyed(
    v: &[u8],
    staging: &mut [u8],
    reserved: usize,
    key: &[u8],
    state: &mut [u8],
    answer: &mut [u8],
) -> u32
    ensures { record { number = result; left = record { staging = staging.exit.now; state = state.new }; answer = answer.new }
        ≡ open_keyed_call v.now staging.entry.now reserved key.now state.old answer.old }
{
    c_keyed::open_keyed(v, staging, reserved, key, state, answer)
}

// Adds a sector's bytes to the batch in staging.
#[unsafe(no_mangle)]
pub extern "C" fn gaffreel_volume_write_keyed(
    state: &mut [u8],
    staging: &mut [u8],
    sector: usize,
    bytes: &[u8],
    key: &[u8],
    answer: &mut [u8],
) -> u32
    ensures { record { number = result; left = record { state = state.exit.now; staging = staging.new }; answer = answer.new }
        ≡ write_keyed_call state.entry.now staging.old sector bytes.now key.now answer.old }
{
    c_keyed::write_keyed(state, staging, sector, bytes, key, answer)
}

// Reads a sector's bytes into a buffer.
#[unsafe(no_mangle)]
pub extern "C" fn gaffreel_volume_read_keyed(
    state: &[u8],
    v: &[u8],
    staging: &[u8],
    sector: usize,
    bytes: &mut [u8],
    key: &[u8],
    answer: &mut [u8],
) -> u32
    ensures { record { number = result; left = bytes.new; answer = answer.new }
        ≡ read_keyed_call state.now v.now staging.now sector bytes.old key.now answer.old }
{
    c_keyed::read_keyed(state, v, staging, sector, bytes, key, answer)
}

// Verifies so many sectors, from this one on.
#[unsafe(no_mangle)]
pub extern "C" fn gaffreel_volume_verify_keyed(
    state: &[u8],
    v: &[u8],
    first: usize,
    count: usize,
    key: &[u8],
    answer: &mut [u8],
) -> u32
    ensures { record { number = result; left = tt; answer = answer.new }
        ≡ verify_keyed_call state.now v.now first count key.now answer.old }
{
    c_keyed::verify_keyed(state, v, first, count, key, answer)
}
