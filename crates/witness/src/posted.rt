// Witnesses as they are posted: an exponent may not be below the order, a challenge may be too wide.
ghost use Rattle.std.specs.Prelude.{◌≡◌};
ghost use Rattle.witness.specs.Refusals.{transcript_challenges};

use group::{Exponent, Group};

// A challenge and the answer to it.
#[derive(Clone, Copy)]
pub struct Answer<N> {
    pub challenge: u64,
    pub exponent: N,
}

// A commitment that was answered twice.
#[derive(Clone, Copy)]
pub struct Transcript<E, N> {
    pub commitment: E,
    pub first: Answer<N>,
    pub second: Answer<N>,
}

impl<E: Copy, N: Copy> Transcript<E, N> {
    // The challenges of both answers. No From: challenges are a part of a transcript, and not what it is converted to.
    pub(crate) fn challenges(self) -> Challenges
        ensures { result ≡ transcript_challenges self }
    {
        Challenges {
            first: self.first.challenge,
            second: self.second.challenge,
        }
    }
}

// The challenges of the first and of the second answer.
#[derive(Clone, Copy)]
pub struct Challenges {
    pub first: u64,
    pub second: u64,
}

// A disjunctive proof that was answered twice: the branch of each setting has its own parts of the challenges.
#[derive(Clone, Copy)]
pub struct Disjunction<E, N> {
    pub challenges: Challenges,
    pub straight: Transcript<E, N>,
    pub swapped: Transcript<E, N>,
}

// A witness: its z, and what was answered at it, a `Transcript` or a `Disjunction`.
#[derive(Clone, Copy)]
pub struct Witness<N, T> {
    pub z: N,
    pub answered: T,
}

// A number as a group's exponents are posted.
type Number<G> = <<G as Group>::Exponent as Exponent>::Posted;

// A witness of the equivalence proof in a group, as it is posted.
pub type PostedEquivalenceWitness<G> = Witness<
    Number<G>,
    Transcript<<G as Group>::Element, Number<G>>,
>;

// A witness of the disjunctive proof in a group, as it is posted.
pub type PostedDisjunctiveWitness<G> = Witness<
    Number<G>,
    Disjunction<<G as Group>::Element, Number<G>>,
>;
