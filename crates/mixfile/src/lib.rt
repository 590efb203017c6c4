// An honest server's turn on a round file: its comparators' records behind what the file holds.
#![tactic(auto)]

pub mod file;
mod records;
mod turn;
