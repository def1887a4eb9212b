// What the buffers and calls of the C interface have in common: numbers one behind the other, specs/Numbers.antt; the length of each kind of buffer,
// specs/Sizes.antt; the numbers of a call that was carried out, and of one that found a wrong length, specs/Outcome.antt; and how a volume's call refuses a
// bad buffer, specs/Called.antt.
//
// These are for the crates c_*. Each length and number stands behind a function, whose contract holds it to its definition. A call tests a
// buffer's length once; so a function here may have a `requires`, and every caller shows it.
#![tactic(auto)]

ghost use Rattle.std.specs.Prelude.{◌≡◌, ◌+◌, ◌*◌, ◌≤◌, length};
ghost use Rattle.octets.specs.Parts.{patch};
ghost use Rattle.digest.specs.Sha256.{digest_size};
ghost use Rattle.c_numbers.specs.Numbers.{number_bytes, number_at};
ghost use Rattle.c_numbers.specs.Sizes.{digest_state_size, level_size, layout_size, volume_state_size, answer_size};
ghost use Rattle.c_numbers.specs.Outcome.{done, wrong_length};
ghost use Rattle.c_numbers.specs.Called.{no_values};

// The length of a number of a state, a layout or an answer, in bytes.
const NUMBER_SIZE: usize = 8;

// ---- numbers that a call answers

const DONE: u32 = 0;

const WRONG_LENGTH: u32 = 1;

// The number of a call that was carried out.
pub fn done() -> u32
    ensures { result ≡ done }
{
    DONE
}

// The number where a buffer has a wrong length, or the state's holds no state.
pub fn wrong_length() -> u32
    ensures { result ≡ wrong_length }
{
    WRONG_LENGTH
}

// ---- lengths of buffers, in bytes

const DIGEST_STATE_SIZE: usize = 104;

const LEVEL_SIZE: usize = 4;

const LAYOUT_SIZE: usize = 64;

const VOLUME_STATE_SIZE: usize = 104;

const ANSWER_SIZE: usize = 40;

// A digest, and a root digest.
pub fn digest_size() -> usize
    ensures { result ≡ digest_size }
{
    digest::DIGEST_SIZE
}

// The state of a digest.
pub fn digest_state_size() -> usize
    ensures { result ≡ digest_state_size }
{
    DIGEST_STATE_SIZE
}

// A failing level of a hash tree.
pub fn level_size() -> usize
    ensures { result ≡ level_size }
{
    LEVEL_SIZE
}

// A volume's layout.
pub fn layout_size() -> usize
    ensures { result ≡ layout_size }
{
    LAYOUT_SIZE
}

// A volume's state.
pub fn volume_state_size() -> usize
    ensures { result ≡ volume_state_size }
{
    VOLUME_STATE_SIZE
}

// What a volume's call says.
pub fn answer_size() -> usize
    ensures { result ≡ answer_size }
{
    ANSWER_SIZE
}

// ---- numbers in a buffer

// Number k.
pub fn number_at(buffer: &[u8], k: usize) -> u64
    requires { 8 * k + 8 ≤ length buffer.now }
    ensures { result ≡ number_at buffer.now k }
{
    octets::number(buffer, NUMBER_SIZE * k, NUMBER_SIZE)
}

// Writes numbers one behind the other, from number k on.
pub fn put_numbers(buffer: &mut [u8], k: usize, numbers: &[u64])
    requires { 8 * (k + length numbers.now) ≤ length buffer.old }
    ensures { buffer.new ≡ patch buffer.old (8 * k) (number_bytes 8 numbers.now) }
{
    for (j, n) in numbers.iter().enumerate() {
        octets::put_number(buffer, NUMBER_SIZE * (k + j), NUMBER_SIZE, *n);
    }
}

// Refuses a volume's call that found a buffer bad: writes the answer's numbers, and gives the number that the call answers.
pub fn refuse(answer: &mut [u8]) -> u32
    requires { length answer.old ≡ answer_size }
    ensures { (result ≡ wrong_length) × (answer.new ≡ no_values) }
{
    put_numbers(answer, 0, &[0; 5]);
    wrong_length()
}
