// The two plaintext-equivalence proofs of a comparator: their check, and their honest maker.
#![tactic(auto)]

pub mod check;
pub mod equation;
pub mod proofs;
