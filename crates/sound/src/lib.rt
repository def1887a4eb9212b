// What the volume's calls share beside the journal: the tests of loans and states, and the tag (R14).
//
// These are functions for the crates of this repository. The calls test loans and layout once; so a function here may have
// a `requires`, and every caller shows it.
#![tactic(auto)]

pub mod state;
pub mod tag;
