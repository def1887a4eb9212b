// The calls of SHA-256 (FIPS 180-4), by crate c_digest, which says what each leaves.
ghost use Rattle.std.specs.Prelude.{◌≡◌};
ghost use Rattle.c_digest.specs.Sha256.{sha256_call, new_call, update_call, finish_call};

// The digest of a message that is lent whole.
#[unsafe(no_mangle)]
pub extern "C" fn gaffreel_sha256(message: &[u8], digest: &mut [u8]) -> u32
    ensures { record { number = result; buffer = digest.new } ≡ sha256_call message.now digest.old }
{
    c_digest::sha256(message, digest)
}

// The state before any piece.
#[unsafe(no_mangle)]
pub extern "C" fn gaffreel_sha256_new(state: &mut [u8]) -> u32
    ensures { record { number = result; buffer = state.new } ≡ new_call state.old }
{
    c_digest::new(state)
}

// A piece added to the state.
#[unsafe(no_mangle)]
pub extern "C" fn gaffreel_sha256_update(state: &mut [u8], piece: &[u8]) -> u32
    ensures { record { number = result; buffer = state.new } ≡ update_call state.old piece.now }
{
    c_digest::update(state, piece)
}

// The digest of all the pieces.
#[unsafe(no_mangle)]
pub extern "C" fn gaffreel_sha256_finish(state: &[u8], digest: &mut [u8]) -> u32
    ensures { record { number = result; buffer = digest.new } ≡ finish_call state.now digest.old }
{
    c_digest::finish(state, digest)
}
