// The volume's calls: R35 to R51; by crates c_setup, c_batch, c_read and c_step, which say what each leaves.
ghost use Rattle.std.specs.Prelude.{◌≡◌};
ghost use Rattle.c_setup.specs.Setup.{layout_with, format_call, query_call, open_call};
ghost use Rattle.c_batch.specs.Batch.{write_call, flush_call};
ghost use Rattle.c_read.specs.Reads.{read_call, verify_call};
ghost use Rattle.c_step.specs.Steps.{step_buffers, step_call, advance_call, next_store_buffers, next_store_call};

// Formats a volume for a layout.
#[unsafe(no_mangle)]
pub extern "C" fn gaffreel_volume_format(
    v: &mut [u8],
    reserved: usize,
    shift: usize,
    width: usize,
    sections: usize,
    provided: usize,
    answer: &mut [u8],
) -> u32
    ensures { record { number = result; left = v.new; answer = answer.new }
        ≡ format_call v.old (layout_with reserved shift width sections provided) answer.old }
{
    c_setup::format(v, reserved, shift, width, sections, provided, answer)
}

// The numbers that a volume's superblock holds, and the bytes that staging must have.
#[unsafe(no_mangle)]
pub extern "C" fn gaffreel_volume_query(
    v: &[u8],
    reserved: usize,
    layout: &mut [u8],
    answer: &mut [u8],
) -> u32
    ensures { record { number = result; left = layout.new; answer = answer.new }
        ≡ query_call v.now reserved layout.old answer.old }
{
    c_setup::query(v, reserved, layout, answer)
}

// Opens a volume: its state, and an empty batch in staging.
#[unsafe(no_mangle)]
pub extern "C" fn gaffreel_volume_open(
    v: &[u8],
    staging: &mut [u8],
    reserved: usize,
    state: &mut [u8],
    answer: &mut [u8],
) -> u32
    ensures { record { number = result; left = record { staging = staging.exit.now; state = state.new }; answer = answer.new }
        ≡ open_call v.now staging.entry.now reserved state.old answer.old }
{
    c_setup::open(v, staging, reserved, state, answer)
}

// Adds a sector's bytes to the batch in staging.
#[unsafe(no_mangle)]
pub extern "C" fn gaffreel_volume_write(
    state: &mut [u8],
    staging: &mut [u8],
    sector: usize,
    bytes: &[u8],
    answer: &mut [u8],
) -> u32
    ensures { record { number = result; left = record { state = state.exit.now; staging = staging.new }; answer = answer.new }
        ≡ write_call state.entry.now staging.old sector bytes.now answer.old }
{
    c_batch::write(state, staging, sector, bytes, answer)
}

// Begins to commit the batch, or acknowledges an empty one.
#[unsafe(no_mangle)]
pub extern "C" fn gaffreel_volume_flush(state: &mut [u8], answer: &mut [u8]) -> u32
    ensures { record { number = result; left = state.new; answer = answer.new }
        ≡ flush_call state.old answer.old }
{
    c_batch::flush(state, answer)
}

// Makes the next store, or none when filling.
#[unsafe(no_mangle)]
pub extern "C" fn gaffreel_volume_step(
    state: &mut [u8],
    v: &mut [u8],
    staging: &mut [u8],
    answer: &mut [u8],
) -> u32
    ensures { record { number = result; left = step_buffers state.new v.new staging.new; answer = answer.new }
        ≡ step_call state.old v.old staging.old answer.old }
{
    c_step::step(state, v, staging, answer)
}

// Makes a step but for its store, which is left to the volume's owner.
#[unsafe(no_mangle)]
pub extern "C" fn gaffreel_volume_next_store(
    state: &mut [u8],
    v: &[u8],
    staging: &mut [u8],
    sector: &mut [u8],
    answer: &mut [u8],
) -> u32
    ensures { record { number = result; left = next_store_buffers state.new staging.new sector.new; answer = answer.new }
        ≡ next_store_call state.old v.now staging.old sector.old answer.old }
{
    c_step::next_store(state, v, staging, sector, answer)
}

// Makes so many steps, one after the other.
#[unsafe(no_mangle)]
pub extern "C" fn gaffreel_volume_advance(
    state: &mut [u8],
    v: &mut [u8],
    staging: &mut [u8],
    steps: usize,
    answer: &mut [u8],
) -> u32
    ensures { record { number = result; left = step_buffers state.new v.new staging.new; answer = answer.new }
        ≡ advance_call state.old v.old staging.old steps answer.old }
{
    c_step::advance(state, v, staging, steps, answer)
}

// Reads a sector's bytes into a buffer.
#[unsafe(no_mangle)]
pub extern "C" fn gaffreel_volume_read(
    state: &[u8],
    v: &[u8],
    staging: &[u8],
    sector: usize,
    bytes: &mut [u8],
    answer: &mut [u8],
) -> u32
    ensures { record { number = result; left = bytes.new; answer = answer.new }
        ≡ read_call state.now v.now staging.now sector bytes.old answer.old }
{
    c_read::read(state, v, staging, sector, bytes, answer)
}

// Verifies so many sectors, from this one on.
#[unsafe(no_mangle)]
pub extern "C" fn gaffreel_volume_verify(
    state: &[u8],
    v: &[u8],
    first: usize,
    count: usize,
    answer: &mut [u8],
) -> u32
    ensures { record { number = result; left = tt; answer = answer.new }
        ≡ verify_call state.now v.now first count answer.old }
{
    c_read::verify(state, v, first, count, answer)
}
