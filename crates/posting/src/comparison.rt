// What a comparator's proofs speak of: the key, two inputs and two outputs.
ghost use Rattle.std.specs.Prelude.{MatchResult};
ghost use Rattle.posting.specs.Mapping.{PairMapped, PairUnmapped};

use elgamal::Ciphertext;

// The ciphertexts on a comparator's two wires.
#[derive(Clone, Copy)]
pub struct Pair<E> {
    pub first: Ciphertext<E>,
    pub second: Ciphertext<E>,
}

impl<E: Drop> Pair<E> {
    // The pair whose elements a step makes of these, or what the step fails with.
    pub fn try_map<T: Drop, R, F: Fn(E) -> Result<T, R>>(self, step: &F) -> Result<Pair<T>, R>
        requires { F.IsAlwaysCallable step.now }
        ensures { MatchResult result (PairMapped (F.post step.now) self) (PairUnmapped (F.post step.now) self) }
    {
        let Pair { first, second } = self;
        Ok(Pair {
            first: first.try_map(step)?,
            second: second.try_map(step)?,
        })
    }
}

#[derive(Clone, Copy)]
pub struct Comparison<E> {
    pub key: E,
    pub inputs: Pair<E>,
    pub outputs: Pair<E>,
}
