// What a comparator's challenges are drawn over: the codes of its key, inputs and outputs, and of commitments.
#![tactic(auto)]

mod codes;
pub mod comparison;
pub mod drawing;
