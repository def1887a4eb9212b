// The check of a whole volume: R88. The volume is opened, its recovery is finished in memory, and each sector is read.
#![tactic(auto)]

ghost use Rattle.std.specs.Prelude.{◌≡◌, length};
ghost use Rattle.model.specs.Refusal.{open_answer};
ghost use Rattle.volume_check.specs.Check.{recover_of, is_bad, Flagged};

use layout::SECTOR_SIZE;
use model::{Opened, Refusal, State};

// Opens a volume, and finishes its recovery. Answers the state, and how many stores were to come.
pub fn recover(v: &mut [u8], st: &mut [u8], r: usize) -> Result<Opened, Refusal>
    ensures { record { answer = open_answer result; volume = v.new; staging = st.new } ≡ recover_of r v.old st.old }
{
    let mut opened = volume::open::open(v, st, r)?;
    volume::advance::advance(&mut opened.state, v, st, opened.stores);
    Ok(opened)
}

// Whether the volume provides a sector and cannot give its bytes.
fn is_bad(s: State, v: &[u8], st: &[u8], n: usize) -> bool
    ensures { result ≡ is_bad s v.now st.now n }
{
    let mut bytes = [0u8; SECTOR_SIZE];
    n < s.layout.provided && volume::read::read(s, v, st, n, &mut bytes).is_err()
}

// Which sectors are bad, a byte for each, as many as are lent: 1 for a bad one, else 0. Answers how many are.
pub fn bad_sectors(s: State, v: &[u8], st: &[u8], flags: &mut [u8]) -> usize
    ensures { Flagged (is_bad s v.now st.now) (length flags.old) result flags.new }
{
    let mut count = 0;
    for i in 0..flags.len() {
        let bad = u8::from(is_bad(s, v, st, i));
        flags[i] = bad;
        count += usize::from(bad);
    }
    count
}
