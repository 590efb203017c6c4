// The equation of a plaintext-equivalence proof.
ghost use Rattle.std.specs.Prelude.{◌≡◌};
ghost use Rattle.elgamal.specs.Ciphertexts.{meaning};
ghost use Rattle.equivalence.specs.Equations.{folded_key, folded_quotient, accepted};

use elgamal::Ciphertext;
use group::Group;

// The quotient of two elements.
fn divide<G: Group>(g: &G, a: G::Element, b: G::Element) -> G::Element
    ensures { G.Group.point result ≡ G.Group.operations.times (G.Group.point a) (G.Group.operations.inverse (G.Group.point b)) }
{
    g.multiply(a, g.invert(b))
}

// The key and the generator, folded by z.
pub fn fold_key<G: Group>(g: &G, key: G::Element, z: G::Exponent) -> G::Element
    ensures { G.Group.point result ≡ folded_key G.Group.operations (G.Group.point key) (G.Exponent.Exponent.value z) }
{
    g.multiply(g.raise(key, z), g.generator())
}

// What a new ciphertext is over an old one, folded by z.
pub fn fold_quotient<G: Group>(
    g: &G,
    old: Ciphertext<G::Element>,
    new: Ciphertext<G::Element>,
    z: G::Exponent,
) -> G::Element
    ensures { G.Group.point result ≡ folded_quotient G.Group.operations (meaning G.Group.point old) (meaning G.Group.point new) (G.Exponent.Exponent.value z) }
{
    let alpha = divide(g, new.alpha, old.alpha);
    let beta = divide(g, new.beta, old.beta);
    g.multiply(g.raise(alpha, z), beta)
}

// Whether the answer to the challenge upon the commitment is right, for a folded key and quotient.
pub fn accepts<G: Group>(
    g: &G,
    key: G::Element,
    quotient: G::Element,
    commitment: G::Element,
    challenge: u64,
    answer: G::Exponent,
) -> bool
    ensures { result ≡ accepted G.Group.operations (G.Group.point key) (G.Group.point quotient) (G.Group.point commitment) challenge (G.Exponent.Exponent.value answer) }
{
    let left = g.raise(key, answer);
    let right = g.multiply(commitment, g.raise_word(quotient, challenge));
    g.equals(left, right)
}
