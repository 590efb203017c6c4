// What a server posts with its outputs: both proofs. Exponents are numbers as they were posted.
ghost use Rattle.std.specs.Prelude.{Err, MatchResult};
ghost use Rattle.equivalence.specs.Mapping.{BranchMapped, ProofsMapped, ProofsUnmapped};

// Proves that the product of the outputs is the product of the inputs, re-encrypted.
#[derive(Clone, Copy)]
pub struct EquivalenceProof<E, N> {
    pub commitment: E,
    pub answer: N,
}

// One branch of a disjunctive proof: that an output is the first input, re-encrypted.
#[derive(Clone, Copy)]
pub struct Branch<E, N> {
    pub commitment: E,
    pub challenge: u64,
    pub answer: N,
}

impl<E: Drop, N: Drop> Branch<E, N> {
    // The branch whose commitment a step makes of this one, or what the step fails with.
    pub fn try_map<T: Drop, R, F: Fn(E) -> Result<T, R>>(self, step: &F) -> Result<Branch<T, N>, R>
        requires { F.IsAlwaysCallable step.now }
        ensures { MatchResult result (BranchMapped (F.post step.now) self) (λ e. F.post step.now self.commitment (Err e)) }
    {
        let Branch {
            commitment,
            challenge,
            answer,
        } = self;
        let commitment = step(commitment)?;
        Ok(Branch {
            commitment,
            challenge,
            answer,
        })
    }
}

// Proves that one of the outputs is the first input, re-encrypted, and not which.
#[derive(Clone, Copy)]
pub struct DisjunctiveProof<E, N> {
    pub first: Branch<E, N>,
    pub second: Branch<E, N>,
}

#[derive(Clone, Copy)]
pub struct Proofs<E, N> {
    pub equivalence: EquivalenceProof<E, N>,
    pub disjunction: DisjunctiveProof<E, N>,
}

impl<E: Drop, N: Drop> Proofs<E, N> {
    // The proofs whose commitments a step makes of these, or what the step fails with.
    pub fn try_map<T: Drop, R, F: Fn(E) -> Result<T, R>>(self, step: &F) -> Result<Proofs<T, N>, R>
        requires { F.IsAlwaysCallable step.now }
        ensures { MatchResult result (ProofsMapped (F.post step.now) self) (ProofsUnmapped (F.post step.now) self) }
    {
        let EquivalenceProof { commitment, answer } = self.equivalence;
        let DisjunctiveProof { first, second } = self.disjunction;
        let commitment = step(commitment)?;
        Ok(Proofs {
            equivalence: EquivalenceProof { commitment, answer },
            disjunction: DisjunctiveProof {
                first: first.try_map(step)?,
                second: second.try_map(step)?,
            },
        })
    }
}

// What each of both proofs has of a kind: a z, a challenge, or what it drew.
#[derive(Clone, Copy)]
pub struct OfBoth<T> {
    pub equivalence: T,
    pub disjunction: T,
}
