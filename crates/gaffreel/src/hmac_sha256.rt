// HMAC with SHA-256 (RFC 2104), by crate c_hmac, which says what the call leaves.
ghost use Rattle.std.specs.Prelude.{◌≡◌};
ghost use Rattle.c_hmac.specs.Hmac.{hmac_call};

// The 32 bytes that a key gives for a message that is lent whole.
#[unsafe(no_mangle)]
pub extern "C" fn gaffreel_hmac_sha256(key: &[u8], message: &[u8], digest: &mut [u8]) -> u32
    ensures { record { number = result; buffer = digest.new }
        ≡ hmac_call key.now message.now digest.old }
{
    c_hmac::hmac_sha256(key, message, digest)
}
