// Group 2: the polynomials in t over bits but 0, modulo t^13 + t^4 + t^3 + t + 1, from the generator t.
#![tactic(auto)]

ghost use Rattle.std.specs.Prelude.{◌≡◌, ℕ, ◌<◌, T, Some, decimal, MatchOption, bit_xor, refl};
ghost use Rattle.polynomial.specs.Laws.{polynomial_laws};
ghost use Rattle.polynomial.specs.Polynomials.{nonzero, Nonzero, polynomials};
ghost use Rattle.polynomial.specs.Product.{times_t, product};

use group::codes::{FOUR_BYTES, read_four_bytes, write_four_bytes};
use group::{Group, WrongLength};
use modular::exponent::{Modular, PrimeOrder};
use std::fmt;

pub const ORDER: u32 = 8191;

pub const CHALLENGE_BITS: u32 = 12;

// The number of t^13 + t^4 + t^3 + t + 1.
const MODULUS: u32 = 8219;

// A polynomial times t: where t^13 comes up, the modulus is taken off. That a number has no bit above t^12 stands as a clause
// here and below, and in no type: `Polynomial` is of what is not zero, and a second type for what may be is no plainer.
fn multiply_by_t(a: u32) -> u32
    requires { a < 8192 }
    ensures { result ≡ times_t a }
{
    (2 * a) ^ (MODULUS * (a / 4096))
}

// The product of two polynomials: a, a times t, and on, each where the bit of b stands.
fn multiply(a: u32, b: u32) -> u32
    requires { a < 8192 }
    ensures is { result ≡ product 13 a b }
    ensures linear { (c : ℕ) → c < 8192 → product 13 (bit_xor a c) b ≡ bit_xor result (product 13 c b) }
{
    let mut sum = 0;
    let mut shifted = a;
    let mut bits = b;
    for turn in 0..13u32 {
        sum ^= shifted * (bits % 2);
        shifted = multiply_by_t(shifted);
        bits /= 2;
    }
    sum
}

// An element: a polynomial that is not 0.
#[derive(Clone, Copy)]
pub struct Polynomial {
    value: u32,
    ghost nonzero: { T (nonzero value) },
}

impl fmt::Display for Polynomial {
    ghost output = { λ x. Some (decimal x.value) };

    fn fmt<W: fmt::Write>(&self, f: &mut fmt::Formatter<W>) -> fmt::Result {
        let value = self.value;
        write!(f, "{value}")
    }
}

// The element that a number is; none where it is no element. No TryFrom: its error would tell nothing more, and every caller
// wants an Option.
fn element(number: u32) -> Option<Polynomial>
    ensures { MatchOption result (T (nonzero number) → ⊥) (λ e. e.value ≡ number) }
{
    if 0 < number && number < 8192 {
        Some(Polynomial { value: number })
    } else {
        None
    }
}

// The group of these elements; it is also the word on the order of its exponents.
#[derive(Clone, Copy)]
pub struct Polynomials;

impl PrimeOrder<ORDER, CHALLENGE_BITS> for Polynomials {
    ghost tested = { tt };
}

impl Group for Polynomials {
    type Element = Polynomial;

    type Exponent = Modular<ORDER, CHALLENGE_BITS, Polynomials>;

    const WIDTH: usize = FOUR_BYTES;

    ghost WIDTH = { 4 };

    ghost Point = { Nonzero };

    ghost point = { λ x. (x.value, x.nonzero) };

    ghost operations = { polynomials };

    ghost laws = { polynomial_laws };

    fn order(&self) -> u32 {
        ORDER
    }

    fn one(&self) -> Polynomial {
        Polynomial { value: 1 }
    }

    fn generator(&self) -> Polynomial {
        Polynomial { value: 2 }
    }

    fn multiply(&self, a: Polynomial, b: Polynomial) -> Polynomial {
        Polynomial {
            value: multiply(a.value, b.value),
        }
    }

    fn invert(&self, a: Polynomial) -> Polynomial {
        self.raise_word(a, 8190)
    }

    fn raise(&self, a: Polynomial, e: Modular<ORDER, CHALLENGE_BITS, Polynomials>) -> Polynomial {
        self.raise_word(a, e.word())
    }

    fn equals(&self, a: Polynomial, b: Polynomial) -> bool {
        a.value == b.value
    }

    fn write(&self, a: Polynomial, out: &mut [u8]) -> Result<(), WrongLength> {
        write_four_bytes(a.value, out)
    }

    fn read(&self, code: &[u8]) -> Option<Polynomial> {
        element(read_four_bytes(code)?)
    }

    ghost wide = { refl };
}
