// HMAC with SHA-256 on buffers, as crate gaffreel exports it: R104, R106. What the call leaves is defined in specs/Hmac.antt.
//
// The call takes byte slices, and answers a number: 0 where it was carried out, else that of a refusal (R71). After a refusal the digest's buffer is
// as it was.
#![tactic(auto)]

ghost use Rattle.std.specs.Prelude.{◌≡◌};
ghost use Rattle.c_hmac.specs.Hmac.{hmac_call};

use c_digest::state::put_digest;
use c_numbers::{digest_size, done, wrong_length};

// The 32 bytes that a key gives for a message that is lent whole. Refused where the digest's buffer has a wrong length, the key has no or more than 256
// bytes, or the message is past the limit.
pub fn hmac_sha256(key: &[u8], message: &[u8], digest: &mut [u8]) -> u32
    ensures { record { number = result; buffer = digest.new }
        ≡ hmac_call key.now message.now digest.old }
{
    if digest.len() != digest_size() {
        return wrong_length();
    }
    match hmac::hmac(key, message) {
        Ok(bytes) => {
            put_digest(bytes, digest);
            done()
        }
        Err(e) => u32::from(e),
    }
}
