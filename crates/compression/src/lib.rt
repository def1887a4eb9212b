// The compression of SHA-256, R10: one block, by the message schedule and the 64 rounds. FIPS 180-4, section 6.2.2.
//
// These are functions for the crates of this repository. The digest hands on whole blocks alone; so a function here may have a `requires`, and every
// caller shows it.
#![tactic(auto)]

mod words;

ghost use Rattle.std.specs.Prelude.{◌≡◌, ℕ, ◌+◌, ◌*◌, ◌%◌, ◌<◌, ◌≤◌, List, length};
ghost use Rattle.compression.specs.Compression.{word_of, schedule_of, variables_of, round_of, rounds_of, added_of, compress_of};
ghost use Rattle.compression.specs.Ring.{ring_of};

// The round constants, section 4.2.2. Each is read where it lies, in read-only memory: the table is not copied to the stack.
const CONSTANTS: [u32; 64] = [
    0x428a2f98, 0x71374491, 0xb5c0fbcf, 0xe9b5dba5, 0x3956c25b, 0x59f111f1, 0x923f82a4, 0xab1c5ed5,
    0xd807aa98, 0x12835b01, 0x243185be, 0x550c7dc3, 0x72be5d74, 0x80deb1fe, 0x9bdc06a7, 0xc19bf174,
    0xe49b69c1, 0xefbe4786, 0x0fc19dc6, 0x240ca1cc, 0x2de92c6f, 0x4a7484aa, 0x5cb0a9dc, 0x76f988da,
    0x983e5152, 0xa831c66d, 0xb00327c8, 0xbf597fc7, 0xc6e00bf3, 0xd5a79147, 0x06ca6351, 0x14292967,
    0x27b70a85, 0x2e1b2138, 0x4d2c6dfc, 0x53380d13, 0x650a7354, 0x766a0abb, 0x81c2c92e, 0x92722c85,
    0xa2bfe8a1, 0xa81a664b, 0xc24b8b70, 0xc76c51a3, 0xd192e819, 0xd6990624, 0xf40e3585, 0x106aa070,
    0x19a4c116, 0x1e376c08, 0x2748774c, 0x34b0bcb5, 0x391c0cb3, 0x4ed8aa4a, 0x5b9cca4f, 0x682e6ff3,
    0x748f82ee, 0x78a5636f, 0x84c87814, 0x8cc70208, 0x90befffa, 0xa4506ceb, 0xbef9a3f7, 0xc67178f2,
];

// The working variables.
#[derive(Clone, Copy)]
pub struct Variables {
    pub a: u32,
    pub b: u32,
    pub c: u32,
    pub d: u32,
    pub e: u32,
    pub f: u32,
    pub g: u32,
    pub h: u32,
}

// Word t of a block, its most significant byte first.
fn word(b: &[u8], t: usize) -> u32
    requires { (t < 16) × (length b.now ≡ 64) }
    ensures { result ≡ word_of b.now t }
{
    let at = 4 * t;
    u32::from_be_bytes([b[at], b[at + 1], b[at + 2], b[at + 3]])
}

// Puts the word of round t in the ring: a word of the block.
fn put_block_word(b: &[u8], t: usize, w: &mut [u32; 16])
    requires { (t < 16) × (length b.now ≡ 64) × (w.old ≡ ring_of t b.now) }
    ensures { w.new ≡ ring_of (t + 1) b.now }
{
    w[t] = word(b, t);
}

// Puts the word of round t in the ring: made of words that stand there, it replaces the oldest of them, that of round t - 16.
fn put_next_word(t: usize, w: &mut [u32; 16])
    requires { (16 ≤ t) × (t < 64) }
    ensures { (b : List ℕ) → w.old ≡ ring_of t b → w.new ≡ ring_of (t + 1) b }
{
    w[t % 16] = words::small_sigma1(w[(t - 2) % 16])
        .wrapping_add(w[(t - 7) % 16])
        .wrapping_add(words::small_sigma0(w[(t - 15) % 16]))
        .wrapping_add(w[(t - 16) % 16]);
}

// Puts the words of rounds t to t + 3 in the ring.
fn put_words(b: &[u8], t: usize, w: &mut [u32; 16])
    requires { (t % 4 ≡ 0) × (t < 64) × (length b.now ≡ 64) × (w.old ≡ ring_of t b.now) }
    ensures { w.new ≡ ring_of (t + 4) b.now }
{
    for i in t..t + 4 {
        if i < 16 {
            put_block_word(b, i, w);
        } else {
            put_next_word(i, w);
        }
    }
}

fn round(v: Variables, k: u32, w: u32) -> Variables
    ensures { result ≡ round_of v k w }
{
    let Variables {
        a,
        b,
        c,
        d,
        e,
        f,
        g,
        h,
    } = v;
    let t1 = h
        .wrapping_add(words::big_sigma1(e))
        .wrapping_add(words::ch(e, f, g))
        .wrapping_add(k)
        .wrapping_add(w);
    let t2 = words::big_sigma0(a).wrapping_add(words::maj(a, b, c));
    Variables {
        a: t1.wrapping_add(t2),
        b: a,
        c: b,
        d: c,
        e: d.wrapping_add(t1),
        f: e,
        g: f,
        h: g,
    }
}

// Rounds t to t + 3, with their words from the ring.
fn four_rounds(v: Variables, t: usize, w: &[u32; 16]) -> Variables
    requires { (t % 4 ≡ 0) × (t < 64) }
    ensures { (s : Variables) (b : List ℕ) → w.now ≡ ring_of (t + 4) b → v ≡ rounds_of t s (schedule_of 64 b)
        → result ≡ rounds_of (t + 4) s (schedule_of 64 b) }
{
    let v1 = round(v, CONSTANTS[t], w[t % 16]);
    let v2 = round(v1, CONSTANTS[t + 1], w[(t + 1) % 16]);
    let v3 = round(v2, CONSTANTS[t + 2], w[(t + 2) % 16]);
    round(v3, CONSTANTS[t + 3], w[(t + 3) % 16])
}

// The 64 rounds, four to a turn: each turn's words are put in the ring, then used. The ring is the one place that words of the schedule are kept in.
fn rounds(s: Variables, b: &[u8]) -> Variables
    requires { length b.now ≡ 64 }
    ensures { result ≡ rounds_of 64 s (schedule_of 64 b.now) }
{
    let mut w = [0u32; 16];
    let mut v = s;
    for turn in 0..16 {
        let t = 4 * turn;
        put_words(b, t, &mut w);
        v = four_rounds(v, t, &w);
    }
    v
}

fn variables_from(h: [u32; 8]) -> Variables
    ensures { result ≡ variables_of h }
{
    let [a, b, c, d, e, f, g, h] = h;
    Variables {
        a,
        b,
        c,
        d,
        e,
        f,
        g,
        h,
    }
}

fn added(v: Variables, h: [u32; 8]) -> [u32; 8]
    ensures { result ≡ added_of v h }
{
    [
        v.a.wrapping_add(h[0]),
        v.b.wrapping_add(h[1]),
        v.c.wrapping_add(h[2]),
        v.d.wrapping_add(h[3]),
        v.e.wrapping_add(h[4]),
        v.f.wrapping_add(h[5]),
        v.g.wrapping_add(h[6]),
        v.h.wrapping_add(h[7]),
    ]
}

// The hash value after a block of 64 bytes, from the one before it.
pub fn compress(h: [u32; 8], b: &[u8]) -> [u32; 8]
    requires { length b.now ≡ 64 }
    ensures { result ≡ compress_of h b.now }
{
    added(rounds(variables_from(h), b), h)
}
