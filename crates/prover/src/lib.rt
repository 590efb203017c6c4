// The honest comparator: outputs made, committed, answered. Each state is moved into the next, so that
// nothing is committed before its outputs are made, and a commitment is answered once.
#![tactic(auto)]

pub mod honest;
pub mod secrets;
pub mod states;
