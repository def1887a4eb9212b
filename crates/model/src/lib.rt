// The volume's types: R52, R71.
//
// What each call means, over any tag function, is defined in specs/, one file to a call; the ledger and demand 3 stand there too. The on-disk format is in
// the crate below; the code that meets these definitions is in the crates above.
#![tactic(auto)]

ghost use Rattle.std.specs.Prelude.{◌≡◌};
ghost use Rattle.model.specs.Refusal.{refusal_of, step_answer};
ghost use Rattle.model.specs.StepResult.{step_acknowledges, step_settles};

use on_disk::Layout;

// What the volume is doing, and the place it has come to.
#[derive(Clone, Copy)]
pub enum Phase {
    // The batch in staging takes writes.
    Filling,
    // Sector j of the section is stored next.
    Committing(usize),
    // Of entry i, store h is made next: its data for 0, its tag for 1, what of the tag lies in the next sector for 2.
    WritingBack(usize, usize),
    // Store k of the replay is made next.
    Recovering(usize),
}

// What a caller keeps between calls, beside volume and staging.
#[derive(Clone, Copy)]
pub struct State {
    pub layout: Layout,
    pub phase: Phase,
    // the entries of the batch in staging
    pub count: usize,
    // the next commit id to be given
    pub id: u64,
}

// The refusals of R71, with what is also returned. `refusal_of` of specs/Refusal.antt gives number and values.
#[derive(Clone, Copy)]
pub enum Refusal {
    // 1: a loan has a wrong length, or a state is not sound
    Malformed,
    // 2: a parameter is out of range
    Parameter,
    // 3: at format the superblock is not zero, at open it is
    Superblock,
    // 4: the superblock is not valid
    Invalid,
    // 5: the volume is shorter than its layout, which needs so many sectors
    Short(usize),
    // 6: a logical sector is not below P: an argument, a staged entry, an entry of a section
    Range,
    StagedRange(usize),
    JournalRange(usize, usize),
    // 7: a tag does not fit: that of a sector, of an entry of a section
    TagMismatch(usize),
    JournalTagMismatch(usize, usize),
    // 8: the batch is full
    Full,
    // 9: not now
    NotNow,
    // 10: the commit ids are used up
    Exhausted,
    // 11: a whole section stands in the wrong place
    Misplaced(usize),
}

// The number of a refusal: R71.
impl From<Refusal> for u32 {
    ghost from_gives = { λ r n. n ≡ (refusal_of r).number };

    fn from(r: Refusal) -> u32 {
        match r {
            Refusal::Malformed => 1,
            Refusal::Parameter => 2,
            Refusal::Superblock => 3,
            Refusal::Invalid => 4,
            Refusal::Short(_) => 5,
            Refusal::Range | Refusal::StagedRange(_) | Refusal::JournalRange(_, _) => 6,
            Refusal::TagMismatch(_) | Refusal::JournalTagMismatch(_, _) => 7,
            Refusal::Full => 8,
            Refusal::NotNow => 9,
            Refusal::Exhausted => 10,
            Refusal::Misplaced(_) => 11,
        }
    }
}

// What query gives: the numbers that the superblock holds, and the bytes that the staging loan must have.
#[derive(Clone, Copy)]
pub struct Held {
    pub layout: Layout,
    pub staging: usize,
}

// What open gives: the state, and how many stores are to come before the volume is filling.
#[derive(Clone, Copy)]
pub struct Opened {
    pub state: State,
    pub stores: usize,
}

// What flush did.
#[derive(Clone, Copy)]
pub enum Flushed {
    // The batch was empty: it is acknowledged at once.
    Acknowledged,
    // Committing begins.
    Begun,
}

// What a step says besides the sector that it stored.
#[derive(Clone, Copy)]
pub enum Says {
    Nothing,
    // The batch is acknowledged: it is on the volume.
    Acknowledged,
    // The volume is filling.
    Filling,
}

// What a step did to the volume, and what it says.
#[derive(Clone, Copy)]
pub struct Step {
    // the sector that was stored, if one was
    pub stored: Option<usize>,
    pub says: Says,
}

// Whether a step acknowledged the batch.
pub fn acknowledges(a: Result<Step, Refusal>) -> bool
    ensures { result ≡ step_acknowledges (step_answer a) }
{
    matches!(
        a,
        Ok(Step {
            says: Says::Acknowledged,
            ..
        })
    )
}

// Whether a step said that the volume is filling.
pub fn says_filling(a: Result<Step, Refusal>) -> bool
    ensures { result ≡ step_settles (step_answer a) }
{
    matches!(
        a,
        Ok(Step {
            says: Says::Filling,
            ..
        })
    )
}

// What advance hands back: the last step's answer (nothing stored, and nothing said, where no step was asked), how many steps did something, and whether
// one acknowledged the batch.
#[derive(Clone, Copy)]
pub struct Advanced {
    pub answer: Result<Step, Refusal>,
    pub done: usize,
    pub acknowledged: bool,
}
