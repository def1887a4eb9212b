// SHA-256 on buffers, as crate gaffreel exports it: R10 to R12. What each call leaves is defined in specs/Sha256.antt.
//
// A call takes numbers and byte slices, and one that can refuse answers a number: 0 where it was carried out, else that of
// a refusal (R71). After a refusal every buffer is as it was.
//
// A state lies between two calls in a buffer of the caller's, which module state lays out. Any bytes of its length are a state.
#![tactic(auto)]

pub mod state;

ghost use Rattle.std.specs.Prelude.{◌≡◌};
ghost use Rattle.c_digest.specs.Sha256.{sha256_call, new_call, update_call, finish_call};

use c_numbers::{digest_size, digest_state_size, done, wrong_length};
use state::{decode, encode, put_digest};

// The digest of a message that is lent whole. Refused where the digest's buffer has a wrong length, or the message is past the limit.
pub fn sha256(message: &[u8], digest: &mut [u8]) -> u32
    ensures { record { number = result; buffer = digest.new } ≡ sha256_call message.now digest.old }
{
    if digest.len() != digest_size() {
        return wrong_length();
    }
    match digest::sha256(message) {
        Ok(bytes) => {
            put_digest(bytes, digest);
            done()
        }
        Err(e) => u32::from(e),
    }
}

// The state before any piece. Refused where its buffer has a wrong length.
pub fn new(state: &mut [u8]) -> u32
    ensures { record { number = result; buffer = state.new } ≡ new_call state.old }
{
    if state.len() != digest_state_size() {
        return wrong_length();
    }
    encode(digest::fresh(), state);
    done()
}

// A piece added to the state. Refused where its buffer has a wrong length, or the total would pass the limit.
pub fn update(state: &mut [u8], piece: &[u8]) -> u32
    ensures { record { number = result; buffer = state.new } ≡ update_call state.old piece.now }
{
    if state.len() != digest_state_size() {
        return wrong_length();
    }
    match digest::update(decode(state), piece) {
        Ok(next) => {
            encode(next, state);
            done()
        }
        Err(e) => u32::from(e),
    }
}

// The digest of all the pieces; the state stays, and may take further ones. Refused where a buffer has a wrong length, or the state is
// past the limit.
pub fn finish(state: &[u8], digest: &mut [u8]) -> u32
    ensures { record { number = result; buffer = digest.new } ≡ finish_call state.now digest.old }
{
    if state.len() != digest_state_size() {
        return wrong_length();
    }
    if digest.len() != digest_size() {
        return wrong_length();
    }
    match digest::finish(decode(state)) {
        Ok(bytes) => {
            put_digest(bytes, digest);
            done()
        }
        Err(e) => u32::from(e),
    }
}
