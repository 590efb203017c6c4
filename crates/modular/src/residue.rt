// The group of the residues a modulo a prime P with a^Q = 1.
ghost use Rattle.std.specs.Prelude.{◌≡◌, T, Some, decimal, MatchOption, refl};
ghost use Rattle.modular.specs.ResidueLaws.{residue_laws};
ghost use Rattle.modular.specs.Residues.{member, Residue as ResiduePoint, subgroup_test, residues};

use crate::arithmetic::{multiply_modulo, power_modulo};
use crate::exponent::{Modular, PrimeOrder};
use group::codes::{FOUR_BYTES, read_four_bytes, write_four_bytes};
use group::{Group, WrongLength};
use std::fmt;
use std::marker::PhantomData;

// A marker type's word that P, Q and the generator G make a group.
pub trait Subgroup<const P: u32, const Q: u32, const G: u32>: Copy {
    ghost tested: { T (subgroup_test P Q G) };
}

// An element: a number below P whose Q-th power is 1.
#[derive(Clone, Copy)]
pub struct Residue<const P: u32, const Q: u32> {
    value: u32,
    ghost member: { T (member P Q value) },
}

impl<const P: u32, const Q: u32> fmt::Display for Residue<P, Q> {
    ghost output = { λ x. Some (decimal x.value) };

    fn fmt<W: fmt::Write>(&self, f: &mut fmt::Formatter<W>) -> fmt::Result {
        let value = self.value;
        write!(f, "{value}")
    }
}

// The group of these elements, with challenges of L bits.
#[derive_where(Clone, Copy)]
pub struct Residues<const P: u32, const Q: u32, const G: u32, const L: u32, M> {
    pub(crate) marker: PhantomData<M>,
}

impl<const P: u32, const Q: u32, const G: u32, const L: u32, M: Subgroup<P, Q, G>> Residues<
    P,
    Q,
    G,
    L,
    M,
> {
    // The element that a number is; none where it is no element. No TryFrom: its error would tell nothing more, and every
    // caller wants an Option.
    fn element(number: u32) -> Option<Residue<P, Q>>
        ensures { MatchOption result (T (member P Q number) → ⊥) (λ e. e.value ≡ number) }
    {
        if number < P && power_modulo(number, Q, P) == 1 {
            Some(Residue { value: number })
        } else {
            None
        }
    }
}

impl<
    const P: u32,
    const Q: u32,
    const G: u32,
    const L: u32,
    M: Subgroup<P, Q, G> + PrimeOrder<Q, L>,
> Group for Residues<P, Q, G, L, M> {
    type Element = Residue<P, Q>;

    type Exponent = Modular<Q, L, M>;

    const WIDTH: usize = FOUR_BYTES;

    ghost WIDTH = { 4 };

    ghost Point = { ResiduePoint P Q };

    ghost point = { λ x. (x.value, x.member) };

    ghost operations = { residues P Q G M.Subgroup.tested };

    ghost laws = { residue_laws P Q G M.Subgroup.tested };

    fn order(&self) -> u32 {
        Q
    }

    fn one(&self) -> Residue<P, Q> {
        Residue { value: 1 }
    }

    fn generator(&self) -> Residue<P, Q> {
        Residue { value: G }
    }

    fn multiply(&self, a: Residue<P, Q>, b: Residue<P, Q>) -> Residue<P, Q> {
        Residue {
            value: multiply_modulo(a.value, b.value, P),
        }
    }

    fn invert(&self, a: Residue<P, Q>) -> Residue<P, Q> {
        Residue {
            value: power_modulo(a.value, Q - 1, P),
        }
    }

    fn raise(&self, a: Residue<P, Q>, e: Modular<Q, L, M>) -> Residue<P, Q> {
        self.raise_word(a, e.word())
    }

    fn equals(&self, a: Residue<P, Q>, b: Residue<P, Q>) -> bool {
        a.value == b.value
    }

    fn write(&self, a: Residue<P, Q>, out: &mut [u8]) -> Result<(), WrongLength> {
        write_four_bytes(a.value, out)
    }

    fn read(&self, code: &[u8]) -> Option<Residue<P, Q>> {
        Self::element(read_four_bytes(code)?)
    }

    ghost wide = { refl };
}
