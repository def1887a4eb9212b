// HMAC with SHA-256: RFC 2104, R104.
//
// What each call returns is defined in specs/Call.antt and specs/Kept.antt; `hmac` itself is in specs/Hmac.antt. Of `sha256` this crate uses the
// digest's promise alone.
#![tactic(auto)]

ghost use Rattle.std.specs.Prelude.{◌≡◌, ◌++◌, map, ◌+◌, ◌≤◌, length};
ghost use Rattle.std.specs.Int.Bits.{bit_xor};
ghost use Rattle.octets.specs.Answer.{number_in};
ghost use Rattle.digest.specs.Pieces.{limit, absorb_of, close_of};
ghost use Rattle.hmac.specs.Answer.{answer_of};
ghost use Rattle.hmac.specs.Hmac.{block_of, key_ok};
ghost use Rattle.hmac.specs.Kept.{hash_behind, key_of, mac_of};
ghost use Rattle.hmac.specs.Call.{message_limit, called, mac_call_of};

// The longest key that a call takes, in bytes.
pub const MOST_KEY: usize = 256;

// The bytes of a block of SHA-256, as a length and as a count.
const BLOCK_SIZE: usize = 64;

const BLOCK: u64 = BLOCK_SIZE as u64;

// The bytes of the two pads.
const IPAD: u8 = 0x36;

const OPAD: u8 = 0x5c;

// The most bytes that a message may have: the digest's limit less the padded block.
const MESSAGE_LIMIT: u64 = (1 << 61) - 1 - 64;

// What is kept of a key: the hash values behind the two padded blocks. Any value of it may be handed in.
#[derive(Clone, Copy)]
pub struct Key {
    pub inner: [u32; 8],
    pub outer: [u32; 8],
}

// Why a call is refused; specs/Answer.antt has number and values of each.
#[derive(Clone, Copy, Debug, PartialEq, Eq)]
pub enum Refusal {
    // The key is empty or longer than 256 bytes.
    KeyLength,
    // The message is longer than the limit.
    TooLong,
}

// The number of a refusal, R71.
impl From<Refusal> for u32 {
    ghost from_gives = { λ e n. n ≡ number_in (answer_of e) };

    fn from(e: Refusal) -> u32 {
        match e {
            Refusal::KeyLength => 2,
            Refusal::TooLong => 1,
        }
    }
}

// Whether a call takes a key of this length.
pub fn key_ok(key: &[u8]) -> bool
    ensures { result ≡ key_ok key.now }
{
    (1..=MOST_KEY).contains(&key.len())
}

// The key as one block.
fn key_block(key: &[u8]) -> [u8; 64]
    requires { length key.now ≤ limit }
    ensures { result ≡ block_of key.now }
{
    let mut block = [0u8; 64];
    if BLOCK_SIZE < key.len() {
        let digest = digest::sha256(key).unwrap();
        block[..32].copy_from_slice(&digest);
    } else {
        block[..key.len()].copy_from_slice(key);
    }
    block
}

// A block, each byte xored with x.
fn xored(mut block: [u8; 64], x: u8) -> [u8; 64]
    ensures { result ≡ map (λ b. bit_xor b x) block }
{
    for b in &mut block {
        *b ^= x;
    }
    block
}

// The hash value behind one block.
fn hash_behind(block: [u8; 64]) -> [u32; 8]
    ensures { result ≡ hash_behind block }
{
    digest::update(digest::fresh(), &block).unwrap().words
}

// What is kept of a key.
pub fn keep(key: &[u8]) -> Key
    requires { length key.now ≤ limit }
    ensures { result ≡ key_of key.now }
{
    let block = key_block(key);
    let inner = hash_behind(xored(block, IPAD));
    let outer = hash_behind(xored(block, OPAD));
    Key { inner, outer }
}

// What a kept key gives for a message that is lent in two parts: a sector's number and its bytes.
pub fn mac_of_two(key: Key, first: &[u8], second: &[u8]) -> [u8; 32]
    requires { length first.now + length second.now ≤ message_limit }
    ensures { (result ≡ mac_of key (first.now ++ second.now)) × (length result ≡ 32) }
{
    let digest = digest::digest_behind(key.inner, BLOCK, first, second);
    digest::digest_behind(key.outer, BLOCK, &digest, &[])
}

// The mac of a message that is lent whole. Refused where the key has no or more than 256 bytes, or the message is past the limit.
pub fn hmac(key: &[u8], message: &[u8]) -> Result<[u8; 32], Refusal>
    ensures { called result ≡ mac_call_of key.now message.now }
{
    if !key_ok(key) {
        return Err(Refusal::KeyLength);
    }
    if MESSAGE_LIMIT < message.len() as u64 {
        return Err(Refusal::TooLong);
    }
    Ok(mac_of_two(keep(key), message, &[]))
}
