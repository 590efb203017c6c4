// Witnesses of the acceptance drill: what each shows, and which is refused first.
#![tactic(auto)]

pub mod examining;
pub mod posted;
mod proof;
mod reading;
pub mod samples;
