// Operations on 32-bit words and the functions of SHA-256: FIPS 180-4, sections 3.2 and 4.1.2.
ghost use Rattle.std.specs.Prelude.{◌≡◌, ◌<◌};
ghost use Rattle.compression.specs.Words.{rotr, Ch, Maj, Σ₀, Σ₁, σ₀, σ₁};

// The rotation right by n bits, by shifts and or: R96. Written so, it compiles to one instruction.
fn rotate(x: u32, n: u32) -> u32
    requires { (0 < n) × (n < 32) }
    ensures { result ≡ rotr n x }
{
    (x >> n) | (x << (32 - n))
}

pub(crate) fn ch(x: u32, y: u32, z: u32) -> u32
    ensures { result ≡ Ch x y z }
{
    (x & y) ^ (!x & z)
}

pub(crate) fn maj(x: u32, y: u32, z: u32) -> u32
    ensures { result ≡ Maj x y z }
{
    (x & y) ^ (x & z) ^ (y & z)
}

pub(crate) fn big_sigma0(x: u32) -> u32
    ensures { result ≡ Σ₀ x }
{
    rotate(x, 2) ^ rotate(x, 13) ^ rotate(x, 22)
}

pub(crate) fn big_sigma1(x: u32) -> u32
    ensures { result ≡ Σ₁ x }
{
    rotate(x, 6) ^ rotate(x, 11) ^ rotate(x, 25)
}

pub(crate) fn small_sigma0(x: u32) -> u32
    ensures { result ≡ σ₀ x }
{
    rotate(x, 7) ^ rotate(x, 18) ^ (x >> 3)
}

pub(crate) fn small_sigma1(x: u32) -> u32
    ensures { result ≡ σ₁ x }
{
    rotate(x, 17) ^ rotate(x, 19) ^ (x >> 10)
}
