// The call that makes a volume: format. R35, R36.
//
// It takes any volume and parameters, and gives exactly what the definition of its name in the model's specs gives, with the tag of R14: answer and
// every lent byte afterwards. It has no `requires`. Crate volume passes it on beside its own calls.
#![tactic(auto)]

pub mod format;
