// Exponents modulo a prime order of at most 13 bits.
ghost use Rattle.std.specs.Prelude.{◌≡◌, ◌%◌, ◌<◌, T};
ghost use Rattle.std.proofs.Common.{rules};
ghost use Rattle.modular.specs.Laws.{modular_laws};
ghost use Rattle.modular.specs.Modular.{modular, order_test};

use crate::arithmetic::{multiply_modulo, power_modulo};
use group::Exponent;
use std::alloc::AllocError;
use std::marker::PhantomData;

// A marker type's word that Q is a prime order with room for challenges of L bits.
pub trait PrimeOrder<const Q: u32, const L: u32>: Copy {
    ghost tested: { T (order_test Q L) };
}

// An exponent: a number below Q. `Clone` and `Copy` are written by hand: where a struct has both a type parameter and a
// ghost field, the language derives neither, by `derive` or by `derive_where`.
#[derive_where(PartialEq)]
pub struct Modular<const Q: u32, const L: u32, M> {
    value: u32,
    marker: PhantomData<M>,
    ghost small: { value < Q },
}

impl<const Q: u32, const L: u32, M> Clone for Modular<Q, L, M> {
    ghost is_clone = { λ x y. y ≡ x };

    ghost is_infallible = { λ _. Unit {0} };

    fn clone(&self) -> Result<Self, AllocError> {
        Ok(*self)
    }
}

impl<const Q: u32, const L: u32, M> Copy for Modular<Q, L, M> {}

impl<const Q: u32, const L: u32, M: PrimeOrder<Q, L>> Modular<Q, L, M> {
    // The exponent as a word, for the groups of these kinds; nothing above them turns an exponent into one.
    pub fn word(self) -> u64
        ensures { result ≡ self.value }
    {
        u64::from(self.value)
    }

    // The remainder of n.
    fn reduced(n: u64) -> Self
        ensures { result.value ≡ n % Q }
    {
        Modular {
            value: (n % Q as u64) as u32,
            marker: PhantomData,
        }
    }
}

impl<const Q: u32, const L: u32, M: PrimeOrder<Q, L>> Exponent for Modular<Q, L, M> {
    type Posted = u32;

    ghost exponents = { modular Q L };

    ghost laws = { modular_laws Q L M.PrimeOrder.tested };

    ghost value = { λ x. x.value };

    ghost below = { λ x. x.small };

    ghost number = { λ n. n };

    fn order() -> u32 {
        Q
    }

    fn challenge_bits() -> u32 {
        L
    }

    fn from_word(word: u64) -> Self {
        Modular::reduced(word)
    }

    fn challenge(word: u64) -> u64 {
        word % (1u64 << L)
    }

    fn read(posted: u32) -> Option<Self> {
        if posted >= Q {
            return None;
        }
        Some(Modular {
            value: posted,
            marker: PhantomData,
        })
    }

    fn same_posted(a: u32, b: u32) -> bool {
        a == b
    }

    fn post(self) -> u32 {
        self.value
    }

    fn add(self, other: Self) -> Self {
        Modular::reduced(self.value as u64 + other.value as u64)
    }

    fn subtract(self, other: Self) -> Self {
        Modular::reduced(self.value as u64 + (Q as u64 - other.value as u64))
    }

    fn multiply(self, other: Self) -> Self {
        Modular {
            value: multiply_modulo(self.value, other.value, Q),
            marker: PhantomData,
        }
    }

    fn invert(self) -> Self {
        Modular {
            value: power_modulo(self.value, Q - 2, Q),
            marker: PhantomData,
        }
    }

    ghost compared = { Prim.search rules };
}
