// The board of a round: quotes are posted, servers step or are expelled, and at the end the round is judged.
#![tactic(auto)]

pub mod board;
pub mod events;
pub mod setup;
pub mod verdict;
