// The tag: the one place where it is computed, by the rule of R14 or that of a key, R105.
ghost use Rattle.std.specs.Prelude.{true, ◌≡◌, ◌++◌, length};
ghost use Rattle.octets.specs.Numbers.{le};
ghost use Rattle.octets.specs.Sectors.{sector_size};
ghost use Rattle.hmac.specs.Hmac.{key_ok};
ghost use Rattle.sound.specs.Rule.{digest_by, keyed_of};

use hmac::Key;

// The rule that a call goes by. Any value of it may be handed in.
#[derive(Clone, Copy)]
pub enum Rule {
    // that of R14
    Plain,
    // that of a key, of which the hash values behind its two blocks are kept, so that a sector costs a tag one compression more, and not three
    Keyed(Key),
}

impl Rule {
    // The rule of a key.
    pub fn of_key(key: &[u8]) -> Rule
        requires { key_ok key.now ≡ true }
        ensures { result ≡ keyed_of key.now }
    {
        Rule::Keyed(hmac::keep(key))
    }

    // What the rule gives for logical sector s with its bytes; the first T bytes of it are the tag.
    pub fn tag(self, s: usize, bytes: &[u8]) -> [u8; 32]
        requires { length bytes.now ≡ sector_size }
        ensures { (result ≡ digest_by self (le 8 s ++ bytes.now)) × (length result ≡ 32) }
    {
        let mut number = [0u8; 8];
        octets::put_number(&mut number, 0, 8, s as u64);
        match self {
            Rule::Plain => digest::sha256_of_two(&number, bytes).unwrap(),
            Rule::Keyed(key) => hmac::mac_of_two(key, &number, bytes),
        }
    }
}
