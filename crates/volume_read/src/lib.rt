// The call that reads a sector: read. R50, R51. For any input it gives exactly what the definition of its name in the model's
// specs gives, and it has no `requires`; crate volume passes it on with the others.
#![tactic(auto)]

pub mod fits;
pub mod read;
