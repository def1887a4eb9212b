// The call that makes one store, step, and the call that leaves it to be made, next_store. R43.
//
// Each takes any state, volume and staging, and gives exactly what the definition of its name in the model's specs gives: answer, state and every lent
// byte afterwards. They have no `requires`. Crate volume passes them on beside its own calls.
#![tactic(auto)]

mod answers;
pub mod next_store;
pub mod recovery;
pub mod step;
pub mod store;
