// The comparator that a task makes.
ghost use Rattle.std.specs.Prelude.{◌≡◌};
ghost use Rattle.elgamal.specs.Ciphertexts.{meaning};
ghost use Rattle.posting.specs.Comparison.{pair_meaning, comparison_meaning};
ghost use Rattle.drillserver.specs.Comparing.{moved_by, made_inputs, made_outputs, made_comparison};

use crate::knowledge::Secrets;
use crate::task::{Outputs, Task, word_of};
use elgamal::{Ciphertext, encrypt, reencrypt};
use group::{Exponent, Group};
use posting::comparison::{Comparison, Pair};

// Two ciphertexts that follow from the seed.
fn make_inputs<G: Group>(g: &G, key: G::Element, seed: u64) -> Pair<G::Element>
    ensures { pair_meaning G.Group.point result ≡ made_inputs G.Group.operations G.Exponent.Exponent.exponents (G.Group.point key) seed }
{
    let m1 = g.raise_word(g.generator(), seed);
    let m2 = g.raise_word(g.generator(), word_of(seed, 2));
    let first = encrypt(g, key, m1, G::Exponent::from_word(word_of(seed, 1)));
    let second = encrypt(g, key, m2, G::Exponent::from_word(word_of(seed, 3)));
    Pair { first, second }
}

// A ciphertext whose parts are multiplied by powers of the base.
fn multiply_parts<G: Group>(
    g: &G,
    c: Ciphertext<G::Element>,
    a: G::Exponent,
    b: G::Exponent,
) -> Ciphertext<G::Element>
    ensures { meaning G.Group.point result ≡ moved_by G.Group.operations (meaning G.Group.point c) (G.Exponent.Exponent.value a) (G.Exponent.Exponent.value b) }
{
    Ciphertext {
        alpha: g.multiply(c.alpha, g.raise(g.generator(), a)),
        beta: g.multiply(c.beta, g.raise(g.generator(), b)),
    }
}

fn make_outputs<G: Group>(
    g: &G,
    key: G::Element,
    inputs: Pair<G::Element>,
    outputs: Outputs,
    secrets: Secrets<G::Exponent>,
) -> Pair<G::Element>
    ensures { pair_meaning G.Group.point result ≡ made_outputs G.Group.operations (G.Group.point key) (pair_meaning G.Group.point inputs) outputs (G.Exponent.Exponent.value secrets.r1) (G.Exponent.Exponent.value secrets.r2) }
{
    let Pair { first, second } = inputs;
    let Secrets { private: _, r1, r2 } = secrets;
    match outputs {
        Outputs::Straight => Pair {
            first: reencrypt(g, key, first, r1),
            second: reencrypt(g, key, second, r2),
        },
        Outputs::Swapped => Pair {
            first: reencrypt(g, key, second, r1),
            second: reencrypt(g, key, first, r2),
        },
        Outputs::Forged => Pair {
            first: multiply_parts(g, first, r1, r2),
            second,
        },
    }
}

pub(crate) fn make_comparison<G: Group>(g: &G, task: Task) -> Comparison<G::Element>
    ensures { comparison_meaning G.Group.point result ≡ made_comparison G.Group.operations G.Exponent.Exponent.exponents task }
{
    let secrets = Secrets::<G::Exponent>::from(task);
    let key = g.raise(g.generator(), secrets.private);
    let inputs = make_inputs(g, key, task.seed);
    let outputs = make_outputs(g, key, inputs, task.kind.outputs, secrets);
    Comparison {
        key,
        inputs,
        outputs,
    }
}
