// SHA-256 over pieces: R10 to R12.
//
// What each call returns is defined in specs/Pieces.antt. The digest itself is `sha256` of specs/Sha256.antt, which crates
// above see by the laws in specs/Sha256/Promise.antt alone.
#![tactic(auto)]

mod pieces;

ghost use Rattle.std.specs.Prelude.{◌+◌, ◌≤◌, ◌≡◌, ◌++◌, length};
ghost use Rattle.octets.specs.Answer.{number_in};
ghost use Rattle.digest.specs.Answer.{answer_of};
ghost use Rattle.digest.specs.Pieces.{limit, behind_of, fresh_of, absorb_of, updated, update_of, closed, close_of, finish_of, digest_of};

// The length of a digest, in bytes.
pub const DIGEST_SIZE: usize = 32;

// A digest in the making (R94): the hash value of the whole blocks so far, the unfinished block, and how many bytes there were in all.
// Any value of it may be handed in.
#[derive(Clone, Copy)]
pub struct State {
    pub words: [u32; 8],
    pub tail: [u8; 64],
    pub count: u64,
}

// Refused: the message is, or would become, longer than the limit. specs/Answer.antt has number and values.
#[derive(Clone, Copy, Debug, PartialEq, Eq)]
pub struct TooLong;

// The number of the refusal, R71.
impl From<TooLong> for u32 {
    ghost from_gives = { λ e n. n ≡ number_in (answer_of e) };

    fn from(_e: TooLong) -> u32 {
        1
    }
}

// The most bytes that a message may have, R12: FIPS 180-4 counts its bits in 64 bits.
const LIMIT: u64 = (1 << 61) - 1;

// The state before any piece.
pub fn fresh() -> State
    ensures { result ≡ fresh_of }
{
    State {
        words: [
            0x6a09e667, 0xbb67ae85, 0x3c6ef372, 0xa54ff53a, 0x510e527f, 0x9b05688c, 0x1f83d9ab,
            0x5be0cd19,
        ],
        tail: [0u8; 64],
        count: 0,
    }
}

// A piece added. Refused where the total would pass the limit.
pub fn update(s: State, piece: &[u8]) -> Result<State, TooLong>
    ensures { updated s result ≡ update_of s piece.now }
{
    if LIMIT < s.count.saturating_add(piece.len() as u64) {
        return Err(TooLong);
    }
    Ok(pieces::absorb(s, piece))
}

// The digest of all the pieces. Refused where the state is past the limit.
pub fn finish(s: State) -> Result<[u8; DIGEST_SIZE], TooLong>
    ensures { closed result ≡ finish_of s }
{
    if LIMIT < s.count {
        return Err(TooLong);
    }
    Ok(pieces::close(s))
}

// The digest of a message that is lent whole.
pub fn sha256(message: &[u8]) -> Result<[u8; DIGEST_SIZE], TooLong>
    ensures { closed result ≡ digest_of message.now }
{
    finish(update(fresh(), message)?)
}

// The digest of two parts behind whole blocks, so many bytes of them with that hash value; all within the limit, which the callers have tested. For the
// crates here: no state is handed over, and none stands in an answer on the way, so it takes less stack than two pieces and a finish.
pub fn digest_behind(h: [u32; 8], before: u64, first: &[u8], second: &[u8]) -> [u8; DIGEST_SIZE]
    requires { before + (length first.now + length second.now) ≤ limit }
    ensures { result ≡ close_of (absorb_of (behind_of h before) (first.now ++ second.now)) }
{
    let s = State {
        words: h,
        tail: [0u8; 64],
        count: before,
    };
    let one = pieces::absorb(s, first);
    let both = pieces::absorb(one, second);
    pieces::close(both)
}

// The digest of a message that is lent in two parts: a sector's number and its bytes, a salt and a block.
pub fn sha256_of_two(first: &[u8], second: &[u8]) -> Result<[u8; DIGEST_SIZE], TooLong>
    ensures { closed result ≡ digest_of (first.now ++ second.now) }
{
    let length = (first.len() as u64).saturating_add(second.len() as u64);
    if LIMIT < length {
        return Err(TooLong);
    }
    Ok(digest_behind(fresh().words, 0, first, second))
}
