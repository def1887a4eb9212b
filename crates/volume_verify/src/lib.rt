// The call that verifies many sectors: verify. No rule has it; each sector is tested as a read tests it (R51). For any input it gives exactly what the
// definition of its name in the model's specs gives, and it has no `requires`; crate volume passes it on with the others.
#![tactic(auto)]

pub mod verify;
