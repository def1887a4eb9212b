// Bytes of a slice: little-endian numbers, compare, copy and fill. Indexes and lengths are in bytes.
//
// These are helpers for the crates of this repository, which test the length of a loan once, in the call that takes it.
// So each requires that the bytes it names lie inside its slices, and its callers show that.
#![tactic(auto)]

ghost use Rattle.std.specs.Prelude.{◌≡◌, ◌+◌, ◌^◌, ◌≤◌, ◌<◌, length, replicate};
ghost use Rattle.octets.specs.Numbers.{le, value};
ghost use Rattle.octets.specs.Parts.{part, patch, same};

// The number in the n bytes of s from index `at`, the least significant first.
pub fn number(s: &[u8], at: usize, n: usize) -> u64
    requires { (n ≤ 8) × (at + n ≤ length s.now) }
    ensures { (result ≡ value (part s.now at n)) × (result < 256 ^ n) }
{
    let mut bytes = [0u8; 8];
    bytes[..n].copy_from_slice(&s[at..at + n]);
    u64::from_le_bytes(bytes)
}

// Sets the n bytes of s from index `at` to those of x, the least significant first; what does not fit is left out.
pub fn put_number(s: &mut [u8], at: usize, n: usize, x: u64)
    requires { at + n ≤ length s.old }
    ensures { s.new ≡ patch s.old at (le n x) }
{
    let mut v = x;
    for b in s[at..at + n].iter_mut() {
        *b = (v % 256) as u8;
        v /= 256;
    }
}

// Whether the n bytes of a from index x are those of b from index y. All are looked at: the fold does not end where they differ.
pub fn same_at(a: &[u8], x: usize, b: &[u8], y: usize, n: usize) -> bool
    requires { (x + n ≤ length a.now) × (y + n ≤ length b.now) }
    ensures { result ≡ same (part a.now x n) (part b.now y n) }
{
    let pairs = a[x..x + n].iter().zip(b[y..y + n].iter());
    pairs.fold(true, |same, (p, q)| same & (*p == *q))
}

// Sets the n bytes of d from index `at` to those of s from index `from`. By a loop: `copy_from_slice` compiles to a call of memmove where the compiler does
// not see that the two lie apart, and the archive asks a firmware for memcpy and memset alone.
pub fn copy_at(d: &mut [u8], at: usize, s: &[u8], from: usize, n: usize)
    requires { (at + n ≤ length d.old) × (from + n ≤ length s.now) }
    ensures { d.new ≡ patch d.old at (part s.now from n) }
{
    for i in 0..n {
        d[at + i] = s[from + i];
    }
}

// Sets the n bytes of d from index `at` to x.
pub fn fill_at(d: &mut [u8], at: usize, n: usize, x: u8)
    requires { at + n ≤ length d.old }
    ensures { d.new ≡ patch d.old at (replicate n x) }
{
    d[at..at + n].fill(x);
}
