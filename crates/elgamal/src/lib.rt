// ElGamal ciphertexts over any lawful group: one text for all of them.
#![tactic(auto)]

ghost use Rattle.std.specs.Prelude.{◌≡◌, MatchResult, ◌≢◌};
ghost use Rattle.elgamal.specs.Mapping.{CiphertextMapped, CiphertextUnmapped};
ghost use Rattle.refusal.specs.Table.{refused_at};
ghost use Rattle.refusal.specs.declared.Reason.TheVariants.{KeyIsOne};
ghost use Rattle.group.specs.Operations.{power};
ghost use Rattle.elgamal.specs.Ciphertexts.{meaning, encrypted, reencrypted, multiplied, plaintext, Carries, SamePlaintext, Joins, Multiplies};

use group::Group;
use refusal::{Reason, Refusal};

// A pair of elements of one group.
#[derive(Clone, Copy)]
pub struct Ciphertext<E> {
    pub alpha: E,
    pub beta: E,
}

impl<E: Drop> Ciphertext<E> {
    // The ciphertext whose parts a step makes of these, or what the step fails with.
    // That a step can always be called is asked of it here and in each `try_map` of the crates above: it is no
    // fact of a value of ours.
    pub fn try_map<T: Drop, R, F: Fn(E) -> Result<T, R>>(self, step: &F) -> Result<Ciphertext<T>, R>
        requires { F.IsAlwaysCallable step.now }
        ensures { MatchResult result (CiphertextMapped (F.post step.now) self) (CiphertextUnmapped (F.post step.now) self) }
    {
        let Ciphertext { alpha, beta } = self;
        Ok(Ciphertext {
            alpha: step(alpha)?,
            beta: step(beta)?,
        })
    }
}

// The public key of a private one; the one is refused, at the place that the caller names.
pub fn public_key<G: Group>(
    g: &G,
    private: G::Exponent,
    place: usize,
) -> Result<G::Element, Refusal>
    ensures { MatchResult result (λ y. (G.Group.point y ≡ power G.Group.operations G.Group.operations.base (G.Exponent.Exponent.value private)) × (G.Group.point y ≢ G.Group.operations.one)) (λ f. (f ≡ refused_at KeyIsOne place) × (power G.Group.operations G.Group.operations.base (G.Exponent.Exponent.value private) ≡ G.Group.operations.one)) }
{
    let key = g.raise(g.generator(), private);
    if g.equals(key, g.one()) {
        return Err(Reason::KeyIsOne.at(place));
    }
    Ok(key)
}

// The message, encrypted under the key by gamma.
pub fn encrypt<G: Group>(
    g: &G,
    key: G::Element,
    message: G::Element,
    gamma: G::Exponent,
) -> Ciphertext<G::Element>
    ensures is { meaning G.Group.point result ≡ encrypted G.Group.operations (G.Group.point key) (G.Group.point message) (G.Exponent.Exponent.value gamma) }
    ensures carries { Carries G.Group.operations (G.Group.point key) (meaning G.Group.point result) (G.Group.point message) }
{
    Ciphertext {
        alpha: g.multiply(message, g.raise(key, gamma)),
        beta: g.raise(g.generator(), gamma),
    }
}

// The ciphertext, re-encrypted under the key by r.
pub fn reencrypt<G: Group>(
    g: &G,
    key: G::Element,
    c: Ciphertext<G::Element>,
    r: G::Exponent,
) -> Ciphertext<G::Element>
    ensures is { meaning G.Group.point result ≡ reencrypted G.Group.operations (G.Group.point key) (meaning G.Group.point c) (G.Exponent.Exponent.value r) }
    ensures keeps { SamePlaintext G.Group.operations (G.Group.point key) (meaning G.Group.point result) (meaning G.Group.point c) }
    ensures joins { Joins G.Group.operations (G.Group.point key) (meaning G.Group.point c) (meaning G.Group.point result) (G.Exponent.Exponent.value r) }
{
    Ciphertext {
        alpha: g.multiply(c.alpha, g.raise(key, r)),
        beta: g.multiply(c.beta, g.raise(g.generator(), r)),
    }
}

// Two ciphertexts, multiplied part by part.
pub fn multiply<G: Group>(
    g: &G,
    c: Ciphertext<G::Element>,
    d: Ciphertext<G::Element>,
) -> Ciphertext<G::Element>
    ensures is { meaning G.Group.point result ≡ multiplied G.Group.operations (meaning G.Group.point c) (meaning G.Group.point d) }
    ensures multiplies { Multiplies G.Group.operations (meaning G.Group.point c) (meaning G.Group.point d) }
{
    Ciphertext {
        alpha: g.multiply(c.alpha, d.alpha),
        beta: g.multiply(c.beta, d.beta),
    }
}

// What the ciphertext decrypts to under the private key.
pub fn decrypt<G: Group>(g: &G, private: G::Exponent, c: Ciphertext<G::Element>) -> G::Element
    ensures { G.Group.point result ≡ plaintext G.Group.operations (G.Exponent.Exponent.value private) (meaning G.Group.point c) }
{
    g.multiply(c.alpha, g.invert(g.raise(c.beta, private)))
}
