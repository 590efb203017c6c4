#![tactic(auto)]

pub mod kind;
mod number;
pub mod parts;
pub mod reader;
pub mod record;
pub mod writer;
