// Group 1: the residues modulo 23 whose 11th power is 1, from the generator 2.
use crate::exponent::PrimeOrder;
use crate::residue::{Residues, Subgroup};
use std::marker::PhantomData;

pub const PRIME: u32 = 23;

pub const ORDER: u32 = 11;

pub const GENERATOR: u32 = 2;

pub const CHALLENGE_BITS: u32 = 3;

#[derive(Clone, Copy)]
pub struct Modulo23;

impl PrimeOrder<ORDER, CHALLENGE_BITS> for Modulo23 {
    ghost tested = { tt };
}

impl Subgroup<PRIME, ORDER, GENERATOR> for Modulo23 {
    ghost tested = { tt };
}

pub type ResiduesModulo23 = Residues<PRIME, ORDER, GENERATOR, CHALLENGE_BITS, Modulo23>;

pub const RESIDUES_MODULO_23: ResiduesModulo23 = Residues {
    marker: PhantomData,
};
