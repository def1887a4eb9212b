// Step: R43, R76; the model's specs/Step.antt.
ghost use Rattle.model.specs.Step.{step_of};
ghost use Rattle.volume_step.specs.Results.{Leaves, LeavesBoth};

use crate::{next_store, store};
use layout::SECTOR_SIZE;
use model::{Refusal, State, Step};

// Makes one sector store, or none when filling.
pub fn step(s: &mut State, v: &mut [u8], st: &mut [u8]) -> Result<Step, Refusal>
    ensures { Leaves v.old (step_of s.old v.old st.old) result s.new v.new st.new }
{
    let mut content = [0u8; SECTOR_SIZE];
    step_through(s, v, st, &mut content)
}

// The same with a sector lent for the content, as next_store has it, so that a caller of many steps makes it once.
pub fn step_through(
    s: &mut State,
    v: &mut [u8],
    st: &mut [u8],
    content: &mut [u8; SECTOR_SIZE],
) -> Result<Step, Refusal>
    ensures { LeavesBoth v.old content.old (step_of s.old v.old st.old) result s.new v.new content.new st.new }
{
    let answer = next_store::next_store(s, v, st, content);
    store::make(v, answer, content);
    answer
}
