// The journal: which sections are whole, their order in a replay and the stores of each; and where a store of the replay stands.
//
// Its functions are for the crates of this repository. The calls test loans and layout once; so a function here may have
// a `requires`, and every caller shows it.
#![tactic(auto)]

pub mod journal;
