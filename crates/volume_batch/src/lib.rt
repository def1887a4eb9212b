// The calls that fill a batch and end it: write and flush. R41, R42. For any input each gives exactly what the definition of its
// name in the model's specs gives, and none has a `requires`; crate volume passes them on with the others.
#![tactic(auto)]

pub mod flush;
pub mod write;
