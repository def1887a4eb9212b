// The store of a step, made.
ghost use Rattle.std.specs.Prelude.{◌≡◌, ◌+◌, ◌*◌, ◌≤◌, length};
ghost use Rattle.octets.specs.Parts.{part, patch};
ghost use Rattle.octets.specs.Sectors.{sector_size, put_sector};
ghost use Rattle.model.specs.Refusal.{step_answer};
ghost use Rattle.model.specs.NextStore.{store_named};
ghost use Rattle.volume_step.specs.Results.{Inside};

use layout::SECTOR_SIZE;
use model::{Refusal, Step};

// Stores the first n bytes of `content`, from the volume's byte `byte` on. No other line of the library writes to a volume that has been formatted.
pub fn put_part(v: &mut [u8], byte: usize, content: &[u8], n: usize)
    requires { (byte + n ≤ length v.old) × (n ≤ length content.now) }
    ensures { v.new ≡ patch v.old byte (part content.now 0 n) }
{
    octets::copy_at(v, byte, content, 0, n);
}

// Stores a sector.
fn put(v: &mut [u8], at: usize, content: &[u8; SECTOR_SIZE])
    requires { (at + 1) * sector_size ≤ length v.old }
    ensures { v.new ≡ put_sector v.old at content.now }
{
    put_part(v, at * SECTOR_SIZE, content, SECTOR_SIZE);
}

// Makes the store that a step's answer names.
pub(crate) fn make(v: &mut [u8], answer: Result<Step, Refusal>, content: &[u8; SECTOR_SIZE])
    requires { Inside v.old (step_answer answer) }
    ensures { v.new ≡ store_named v.old (step_answer answer) content.now }
{
    if let Ok(
        Step {
            stored: Some(at),
            ..
        },
    ) = answer
    {
        put(v, at, content);
    }
}
