// Arithmetic modulo small primes: a kind of exponents, and the group of the residues of one order.
#![tactic(auto)]

mod arithmetic;
pub mod exponent;
pub mod modulo23;
pub mod residue;
