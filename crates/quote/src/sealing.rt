// One quote, sealed, re-encrypted and opened again, over any group.
ghost use Rattle.std.specs.Result.{MatchResult};
ghost use Rattle.group.specs.Codes.{four_bytes};
ghost use Rattle.quote.specs.Quotes.{quote_meaning, Sealed, Unfit};

use elgamal::{Ciphertext, decrypt, encrypt, public_key, reencrypt};
use group::reading::{read_exponent, read_number};
use group::{Exponent, Group};
use refusal::Refusal;
use std::fmt;

// What is to be sealed: numbers as they were written, which may be unfit.
#[derive(Clone, Copy)]
pub struct Sealing {
    pub private: u32,
    pub message: u32,
    pub gamma: u32,
    pub r: u32,
}

// A quote under its key: as it was sealed, as it was re-encrypted, and what it opens to.
#[derive(Clone, Copy)]
pub struct Quote<E> {
    pub key: E,
    pub sealed: Ciphertext<E>,
    pub mixed: Ciphertext<E>,
    pub opened: E,
}

impl<E: fmt::Display> fmt::Display for Quote<E> {
    fn fmt<W: fmt::Write>(&self, f: &mut fmt::Formatter<W>) -> fmt::Result {
        let key = &self.key;
        let sealed = &self.sealed;
        let mixed = &self.mixed;
        let opened = &self.opened;
        write!(
            f,
            "key {key} sealed {} {} mixed {} {} opened {opened}",
            sealed.alpha, sealed.beta, mixed.alpha, mixed.beta
        )
    }
}

// Judges the numbers in their order, and seals.
pub fn seal<G: Group>(g: &G, numbers: Sealing) -> Result<Quote<G::Element>, Refusal>
where
    G::Exponent: Exponent<Posted = u32>,
    ensures { MatchResult result
        (λ q. ((m : G.Group.Point) × Sealed G.Group.operations G.Exponent.Exponent.exponents.order (G.Exponent.Exponent.number numbers.private) (four_bytes numbers.message) (G.Exponent.Exponent.number numbers.gamma) (G.Exponent.Exponent.number numbers.r) m (quote_meaning G.Group.point q)))
        (λ f. Unfit G.Group.operations G.Exponent.Exponent.exponents.order (G.Exponent.Exponent.number numbers.private) (four_bytes numbers.message) (G.Exponent.Exponent.number numbers.gamma) (G.Exponent.Exponent.number numbers.r) f) }
{
    let private = read_exponent::<G::Exponent>(numbers.private, 0)?;
    let key = public_key(g, private, 0)?;
    let message = read_number(g, numbers.message, 0)?;
    let gamma = read_exponent::<G::Exponent>(numbers.gamma, 0)?;
    let r = read_exponent::<G::Exponent>(numbers.r, 0)?;
    let sealed = encrypt(g, key, message, gamma);
    let mixed = reencrypt(g, key, sealed, r);
    let opened = decrypt(g, private, mixed);
    Ok(Quote {
        key,
        sealed,
        mixed,
        opened,
    })
}
