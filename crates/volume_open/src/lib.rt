// The calls that look at a volume before any other: query and open. R37 to R40, R73.
//
// Each takes any volume, staging or parameter, and gives exactly what the definition of its name in the model's specs gives, with the
// tag: answer and every lent byte afterwards. No call has a `requires`. Crate volume passes these calls on beside its own.
#![tactic(auto)]

pub mod open;
pub mod query;
