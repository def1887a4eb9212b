// The two ways in which a step that made a store most often ends: with more to come, and with none.
ghost use Rattle.std.specs.Prelude.{◌≡◌};
ghost use Rattle.model.specs.State.{in_phase};

use model::{Phase, Says, State, Step};

// A sector was stored, and more are to come.
pub(crate) fn stored(s: &mut State, at: usize, p: Phase) -> Step
    ensures { (result ≡ record { stored = Some at; says = Says.Nothing }) × (s.new ≡ in_phase s.old p) }
{
    s.phase = p;
    Step {
        stored: Some(at),
        says: Says::Nothing,
    }
}

// The last sector was stored: the volume is filling.
pub(crate) fn filled(s: &mut State, at: usize) -> Step
    ensures { (result ≡ record { stored = Some at; says = Says.Filling }) × (s.new ≡ record { layout = s.old.layout; phase = Phase.Filling; count = 0; id = s.old.id }) }
{
    s.phase = Phase::Filling;
    s.count = 0;
    Step {
        stored: Some(at),
        says: Says::Filling,
    }
}
