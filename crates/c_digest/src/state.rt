// A digest, and the state of one, in a buffer: specs/DigestState.antt.
//
// A state is the words, each in 4 bytes, then the tail, then the count in 8 bytes, all little-endian. Any bytes of that length are a state.
//
// A call tests a buffer's length once; so a function here may have a `requires`, and every caller shows it.
ghost use Rattle.std.specs.Prelude.{◌≡◌, length};
ghost use Rattle.octets.specs.Parts.{patch};
ghost use Rattle.digest.specs.Sha256.{digest_size};
ghost use Rattle.c_numbers.specs.Sizes.{digest_state_size};
ghost use Rattle.c_digest.specs.DigestState.{words_of, word_bytes_of, encode_of, decode_of};

use digest::State;

// Indexes in bytes.
const TAIL_AT: usize = 32;

const COUNT_AT: usize = 96;

// A digest copied into a buffer of its length. (By value, so that the array's length is known.)
pub fn put_digest(bytes: [u8; 32], buffer: &mut [u8])
    requires { length buffer.old ≡ digest_size }
    ensures { buffer.new ≡ bytes }
{
    buffer.copy_from_slice(&bytes);
}

// The state in a buffer of its length.
pub fn decode(buffer: &[u8]) -> State
    requires { length buffer.now ≡ digest_state_size }
    ensures { result ≡ decode_of buffer.now }
{
    let words = read_words(buffer);
    let mut tail = [0u8; 64];
    tail.copy_from_slice(&buffer[TAIL_AT..TAIL_AT + 64]);
    let count = octets::number(buffer, COUNT_AT, 8);
    State { words, tail, count }
}

// The words of the state in a buffer.
fn read_words(buffer: &[u8]) -> [u32; 8]
    requires { length buffer.now ≡ digest_state_size }
    ensures { result ≡ words_of 8 buffer.now }
{
    let mut words = [0u32; 8];
    for (i, word) in words.iter_mut().enumerate() {
        *word = octets::number(buffer, 4 * i, 4) as u32;
    }
    words
}

// A state written over a buffer of its length.
pub fn encode(s: State, buffer: &mut [u8])
    requires { length buffer.old ≡ digest_state_size }
    ensures { buffer.new ≡ encode_of s }
{
    put_words(s.words, buffer);
    buffer[TAIL_AT..TAIL_AT + 64].copy_from_slice(&s.tail);
    octets::put_number(buffer, COUNT_AT, 8, s.count);
}

// The words written from index 0.
fn put_words(words: [u32; 8], buffer: &mut [u8])
    requires { length buffer.old ≡ digest_state_size }
    ensures { (buffer.new ≡ patch buffer.old 0 (word_bytes_of words)) × (length words ≡ 8) }
{
    for (i, word) in words.iter().enumerate() {
        octets::put_number(buffer, 4 * i, 4, u64::from(*word));
    }
}
