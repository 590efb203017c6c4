// The check of a whole round file: its records are run on a board, one after the other.
#![tactic(auto)]

mod events;
pub mod file;
pub mod finish;
pub mod records;
pub mod report;
pub mod round;
pub mod wanted;
