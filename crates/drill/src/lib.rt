// The acceptance drill: what a comparator's witnesses say of it. Either its outputs are its inputs
// re-encrypted, in an order and by exponents that are named, or a private key comes to light.
#![tactic(auto)]

pub mod concluding;
pub mod drilling;
pub mod finding;
