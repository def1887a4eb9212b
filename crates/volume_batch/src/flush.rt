// Flush: R42, R75; the model's specs/Flush.antt.
ghost use Rattle.std.specs.Prelude.{◌≡◌};
ghost use Rattle.model.specs.Refusal.{flush_answer};
ghost use Rattle.model.specs.Flush.{flush_of};

use model::{Flushed, Phase, Refusal, State};
use sound::state::{self, LAST_ID};

// An empty batch is acknowledged at once; otherwise committing begins.
pub fn flush(s: &mut State) -> Result<Flushed, Refusal>
    ensures { record { answer = flush_answer result; state = s.new } ≡ flush_of s.old }
{
    if !state::state_ok(*s) {
        return Err(Refusal::Malformed);
    }
    if !state::is_filling(s.phase) {
        return Err(Refusal::NotNow);
    }
    if s.count == 0 {
        return Ok(Flushed::Acknowledged);
    }
    if s.id == LAST_ID {
        return Err(Refusal::Exhausted);
    }
    s.phase = Phase::Committing(0);
    Ok(Flushed::Begun)
}
