// The two proofs about a comparison: what each asks of what was answered, and what its witnesses show.
ghost use Rattle.std.specs.Prelude.{◌≡◌, ℕ, true, false, MatchOption};
ghost use Rattle.elgamal.specs.Ciphertexts.{meaning};
ghost use Rattle.posting.specs.Comparison.{comparison_meaning};
ghost use Rattle.witness.specs.Refusals.{transcript_accepted, product_accepted, splits, disjunction_accepted, Proof as ProofMeaning, equivalence_proof, disjunctive_proof};
ghost use Rattle.witness.specs.Samples.{sample_meaning, drawn_meaning, equivalence_sample, drawn};
ghost use Rattle.witness.specs.Witnesses.{transcript_meaning, disjunction_meaning, witness_meaning, equivalence_meaning, disjunctive_meaning};
ghost use Rattle.witness.specs.declared.posted.Disjunction.{Disjunction as DisjunctionMeaning};
ghost use Rattle.witness.specs.declared.posted.Transcript.{Transcript as TranscriptMeaning};
ghost use Rattle.witness.specs.declared.posted.Witness.{Witness as WitnessMeaning};
ghost use Rattle.witness.specs.declared.samples.Drawn.{Drawn as DrawnMeaning};
ghost use Rattle.witness.specs.declared.samples.Sample.{Sample as SampleMeaning};

use crate::posted::{Challenges, Disjunction, Transcript, Witness};
use crate::reading::{read_disjunction, read_transcript};
use crate::samples::{Drawn, Sample, draw_of, gamma_of};
use elgamal::{Ciphertext, multiply};
use equivalence::equation::{accepts, fold_key, fold_quotient};
use group::{Exponent, Group};
use posting::comparison::Comparison;

// A proof about a comparison, which was answered twice at each witness's z.
pub(crate) trait Proof {
    type Exponent: Exponent;

    // What was answered, as it was posted.
    type Posted: Copy;

    // The same with its numbers read.
    type Read: Copy;

    // What a witness shows.
    type Shown;

    ghost Meaning: { Type 0 };

    ghost ShownMeaning: { Type 0 };

    ghost posted_meaning: { Self.Posted → Meaning };

    ghost read_meaning: { Self.Read → Meaning };

    ghost shown_meaning: { Self.Shown → ShownMeaning };

    ghost asks: { Self → ProofMeaning Meaning };

    ghost shown: { WitnessMeaning ℕ Meaning → ShownMeaning };

    // Reads what was answered, where all its numbers are fit.
    fn read(&self, posted: Self::Posted) -> Option<Self::Read>
        ensures { MatchOption result
            ((asks self.now).fits (posted_meaning posted) ≡ false)
            (λ r. ((asks self.now).fits (posted_meaning posted) ≡ true) × (read_meaning r ≡ posted_meaning posted)) };

    // The challenges of both answers.
    fn challenges(&self, read: Self::Read) -> Challenges
        ensures { result ≡ (asks self.now).challenges (read_meaning read) };

    // Whether both answers are accepted.
    fn accepts(&self, z: Self::Exponent, read: Self::Read) -> bool
        ensures { result ≡ (asks self.now).accepted (Self.Exponent.Exponent.value z) (read_meaning read) };

    // What a witness shows.
    fn show(&self, witness: Witness<Self::Exponent, Self::Read>) -> Self::Shown
        ensures { shown_meaning result ≡ shown (witness_meaning Self.Exponent.Exponent.value read_meaning witness) };
}

// That the product of the outputs is that of the inputs re-encrypted. The two proofs have the same fields and are two types,
// since the type says which of the two equations is asked.
#[derive(Drop)]
pub(crate) struct EquivalenceProof<'a, G: Group> {
    pub g: &'a G,
    pub comparison: Comparison<G::Element>,
}

// That the first or the second output is the first input re-encrypted.
#[derive(Drop)]
pub(crate) struct DisjunctiveProof<'a, G: Group> {
    pub g: &'a G,
    pub comparison: Comparison<G::Element>,
}

// Whether both answers are right, that the new ciphertext is the old one re-encrypted.
fn transcript_holds<G: Group>(
    g: &G,
    key: G::Element,
    old: Ciphertext<G::Element>,
    new: Ciphertext<G::Element>,
    z: G::Exponent,
    transcript: Transcript<G::Element, G::Exponent>,
) -> bool
    ensures { result ≡ transcript_accepted G.Group.operations (G.Group.point key) (meaning G.Group.point old) (meaning G.Group.point new) (G.Exponent.Exponent.value z) (transcript_meaning G.Group.point G.Exponent.Exponent.value transcript) }
{
    let Transcript {
        commitment,
        first,
        second,
    } = transcript;
    let folded = fold_key(g, key, z);
    let quotient = fold_quotient(g, old, new, z);
    accepts(
        g,
        folded,
        quotient,
        commitment,
        first.challenge,
        first.exponent,
    ) && accepts(
        g,
        folded,
        quotient,
        commitment,
        second.challenge,
        second.exponent,
    )
}

// Whether the parts of both challenges add up to them, bit by bit.
fn challenges_split<E: Copy, X: Copy>(disjunction: Disjunction<E, X>) -> bool
    ensures { result ≡ splits disjunction }
{
    let Disjunction {
        challenges,
        straight,
        swapped,
    } = disjunction;
    straight.first.challenge ^ swapped.first.challenge == challenges.first
        && straight.second.challenge ^ swapped.second.challenge == challenges.second
}

impl<G: Group> Proof for EquivalenceProof<'_, G> {
    type Exponent = G::Exponent;

    type Posted = Transcript<G::Element, <G::Exponent as Exponent>::Posted>;

    type Read = Transcript<G::Element, G::Exponent>;

    type Shown = Sample<G::Exponent>;

    ghost Meaning = { TranscriptMeaning G.Group.Point ℕ };

    ghost ShownMeaning = { SampleMeaning ℕ };

    ghost posted_meaning = { transcript_meaning G.Group.point G.Exponent.Exponent.number };

    ghost read_meaning = { transcript_meaning G.Group.point G.Exponent.Exponent.value };

    ghost shown_meaning = { sample_meaning G.Exponent.Exponent.value };

    ghost asks = { λ s. equivalence_proof G.Group.operations G.Exponent.Exponent.exponents (comparison_meaning G.Group.point s.comparison) };

    ghost shown = { equivalence_sample G.Exponent.Exponent.exponents };

    fn read(
        &self,
        posted: Transcript<G::Element, <G::Exponent as Exponent>::Posted>,
    ) -> Option<Transcript<G::Element, G::Exponent>> {
        read_transcript::<G::Element, G::Exponent>(posted)
    }

    fn challenges(&self, read: Transcript<G::Element, G::Exponent>) -> Challenges {
        read.challenges()
    }

    fn accepts(&self, z: G::Exponent, read: Transcript<G::Element, G::Exponent>) -> bool {
        let g = self.g;
        let Comparison {
            key,
            inputs,
            outputs,
        } = self.comparison;
        let old = multiply(g, inputs.first, inputs.second);
        let new = multiply(g, outputs.first, outputs.second);
        transcript_holds(g, key, old, new, z, read)
    }

    fn show(
        &self,
        witness: Witness<G::Exponent, Transcript<G::Element, G::Exponent>>,
    ) -> Sample<G::Exponent>
        ensures { sample_meaning G.Exponent.Exponent.value result ≡ equivalence_sample G.Exponent.Exponent.exponents (equivalence_meaning G.Group.point G.Exponent.Exponent.value witness) }
    {
        let Witness { z, answered } = witness;
        Sample {
            z,
            gamma: gamma_of(answered.first, answered.second),
        }
    }
}

impl<G: Group> Proof for DisjunctiveProof<'_, G> {
    type Exponent = G::Exponent;

    type Posted = Disjunction<G::Element, <G::Exponent as Exponent>::Posted>;

    type Read = Disjunction<G::Element, G::Exponent>;

    type Shown = Drawn<G::Exponent>;

    ghost Meaning = { DisjunctionMeaning G.Group.Point ℕ };

    ghost ShownMeaning = { DrawnMeaning ℕ };

    ghost posted_meaning = { disjunction_meaning G.Group.point G.Exponent.Exponent.number };

    ghost read_meaning = { disjunction_meaning G.Group.point G.Exponent.Exponent.value };

    ghost shown_meaning = { drawn_meaning G.Exponent.Exponent.value };

    ghost asks = { λ s. disjunctive_proof G.Group.operations G.Exponent.Exponent.exponents (comparison_meaning G.Group.point s.comparison) };

    ghost shown = { drawn G.Exponent.Exponent.exponents };

    fn read(
        &self,
        posted: Disjunction<G::Element, <G::Exponent as Exponent>::Posted>,
    ) -> Option<Disjunction<G::Element, G::Exponent>> {
        read_disjunction::<G::Element, G::Exponent>(posted)
    }

    fn challenges(&self, read: Disjunction<G::Element, G::Exponent>) -> Challenges {
        read.challenges
    }

    fn accepts(&self, z: G::Exponent, read: Disjunction<G::Element, G::Exponent>) -> bool {
        let g = self.g;
        let Comparison {
            key,
            inputs,
            outputs,
        } = self.comparison;
        let Disjunction {
            challenges: _,
            straight,
            swapped,
        } = read;
        challenges_split(read)
            && transcript_holds(g, key, inputs.first, outputs.first, z, straight)
            && transcript_holds(g, key, inputs.first, outputs.second, z, swapped)
    }

    fn show(
        &self,
        witness: Witness<G::Exponent, Disjunction<G::Element, G::Exponent>>,
    ) -> Drawn<G::Exponent>
        ensures { drawn_meaning G.Exponent.Exponent.value result ≡ drawn G.Exponent.Exponent.exponents (disjunctive_meaning G.Group.point G.Exponent.Exponent.value witness) }
    {
        draw_of(witness)
    }
}
