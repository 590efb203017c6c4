// The check of a comparator: unfit numbers, the source's reach, and then each equation by itself.
ghost use Rattle.std.specs.Prelude.{◌≡◌, ◌+◌, ◌*◌, ◌^◌, ◌<◌, ◌≤◌, true, false, length, is_ok, MatchResult};
ghost use Rattle.clearing.specs.Zeros.{zeros};
ghost use Rattle.posting.specs.Commitments.{commitment_points};
ghost use Rattle.posting.specs.Comparison.{comparison_meaning};
ghost use Rattle.equivalence.specs.Judgement.{branch_meaning, proofs_meaning, branch_fits, numbers_fit, draws, equivalence_accepted, judge_equations, judge, unless, Answered};
ghost use Rattle.equivalence.specs.Equations.{folded_quotient, accepted};
ghost use Rattle.elgamal.specs.Ciphertexts.{meaning};
ghost use Rattle.equivalence.specs.Drawing.{proof_draws_meaning, proof_draws, draws_meaning};
ghost use Rattle.equivalence.specs.Holding.{Holds};
ghost use Rattle.posting.specs.Drawing.{buffer_fits};
ghost use Rattle.refusal.specs.Table.{refused_at};
ghost use Rattle.refusal.specs.declared.Reason.TheVariants.{UnfitLength, UnfitNumber, BeyondReach};

use crate::equation::{accepts, fold_key, fold_quotient};
use crate::proofs::{Branch, DisjunctiveProof, EquivalenceProof, OfBoth, Proofs};
use clearing::Clearing;
use elgamal::{Ciphertext, multiply};
use group::reading::{read_challenge, read_exponent};
use group::{Exponent, Group};
use posting::comparison::Comparison;
use posting::drawing::{Challenger, Commitments, buffer_fits};
use refusal::{Reason, Refusal};
use source::{Source, c_of, z_of};

// What one proof drew: its z and its challenge. In the functions below a comparison and a buffer stand beside the challenger,
// and in no struct: the buffer is lent anew for each proof, and the contracts say of it what it is afterwards.
#[derive(Clone, Copy)]
struct ProofDraws<X> {
    z: X,
    c: u64,
}

// Reads one branch's numbers.
fn read_branch<E: Copy, X: Exponent>(
    branch: Branch<E, X::Posted>,
    place: usize,
) -> Result<Branch<E, X>, Refusal>
    ensures { MatchResult result
        (λ b. (branch_fits X.Exponent.exponents (branch_meaning (λ e. e) X.Exponent.number branch) ≡ true) × (branch_meaning (λ e. e) X.Exponent.value b ≡ branch_meaning (λ e. e) X.Exponent.number branch))
        (λ f. (branch_fits X.Exponent.exponents (branch_meaning (λ e. e) X.Exponent.number branch) ≡ false) × (f ≡ refused_at UnfitNumber place)) }
{
    let Branch {
        commitment,
        challenge,
        answer,
    } = branch;
    let challenge = read_challenge::<X>(challenge, place)?;
    let answer = read_exponent::<X>(answer, place)?;
    Ok(Branch {
        commitment,
        challenge,
        answer,
    })
}

// Reads the posted numbers; any that is unfit is refused.
fn read_proofs<E: Copy, X: Exponent>(
    proofs: Proofs<E, X::Posted>,
    place: usize,
) -> Result<Proofs<E, X>, Refusal>
    ensures { MatchResult result
        (λ p. (numbers_fit X.Exponent.exponents (proofs_meaning (λ e. e) X.Exponent.number proofs) ≡ true) × (proofs_meaning (λ e. e) X.Exponent.value p ≡ proofs_meaning (λ e. e) X.Exponent.number proofs))
        (λ f. (numbers_fit X.Exponent.exponents (proofs_meaning (λ e. e) X.Exponent.number proofs) ≡ false) × (f ≡ refused_at UnfitNumber place)) }
{
    let Proofs {
        equivalence,
        disjunction,
    } = proofs;
    let EquivalenceProof { commitment, answer } = equivalence;
    let DisjunctiveProof { first, second } = disjunction;
    let answer = read_exponent::<X>(answer, place)?;
    let first = read_branch::<E, X>(first, place)?;
    let second = read_branch::<E, X>(second, place)?;
    Ok(Proofs {
        equivalence: EquivalenceProof { commitment, answer },
        disjunction: DisjunctiveProof { first, second },
    })
}

// Draws the two questions of one proof from `first` on: z over the comparison alone, then the challenge over
// its commitments too.
fn draw_proof<G: Group, S: Source>(
    challenger: &Challenger<'_, G, S>,
    comparison: Comparison<G::Element>,
    commitments: Commitments<G::Element>,
    first: u64,
    buffer: &mut [u8],
) -> Result<ProofDraws<G::Exponent>, Refusal>
    requires { (11 * G.Group.operations.width ≤ length buffer.old) × (first + 1 < 2 ^ 64) }
    ensures { MatchResult result
        (λ d. (first + 1 < (S.Source.words challenger.now.source.now).reach) × (proof_draws_meaning G.Exponent.Exponent.value d ≡ proof_draws G.Group.operations G.Exponent.Exponent.exponents (S.Source.words challenger.now.source.now) (comparison_meaning G.Group.point comparison) (commitment_points G.Group.point commitments) first))
        (λ f. ((S.Source.words challenger.now.source.now).reach ≤ first + 1) × (f ≡ refused_at BeyondReach challenger.now.place)) }
{
    let none = Commitments::None;
    let word = challenger.draw_over(comparison, none, first, buffer)?;
    let z = z_of::<G::Exponent>(word);
    let next = first + 1;
    let word = challenger.draw_over(comparison, commitments, next, buffer)?;
    let c = c_of::<G::Exponent>(word);
    Ok(ProofDraws { z, c })
}

// Draws the four questions from `first` on.
fn draw_all<G: Group, S: Source>(
    challenger: &Challenger<'_, G, S>,
    comparison: Comparison<G::Element>,
    proofs: Proofs<G::Element, G::Exponent>,
    first: u64,
    buffer: &mut [u8],
) -> Result<OfBoth<ProofDraws<G::Exponent>>, Refusal>
    requires { 11 * G.Group.operations.width ≤ length buffer.old }
    ensures { MatchResult result
        (λ d. (first + 3 < (S.Source.words challenger.now.source.now).reach) × (draws_meaning G.Exponent.Exponent.value d ≡ draws G.Group.operations G.Exponent.Exponent.exponents (S.Source.words challenger.now.source.now) (comparison_meaning G.Group.point comparison) (proofs_meaning G.Group.point G.Exponent.Exponent.value proofs) first))
        (λ f. ((S.Source.words challenger.now.source.now).reach ≤ first + 3) × (f ≡ refused_at BeyondReach challenger.now.place)) }
{
    if !challenger.reaches(first) {
        return Err(Reason::BeyondReach.at(challenger.place));
    }
    let one = Commitments::One(proofs.equivalence.commitment);
    let equivalence = draw_proof(challenger, comparison, one, first, buffer)?;
    let DisjunctiveProof {
        first: b1,
        second: b2,
    } = proofs.disjunction;
    let two = Commitments::Two(b1.commitment, b2.commitment);
    let disjunction = draw_proof(challenger, comparison, two, first + 2, buffer)?;
    Ok(OfBoth {
        equivalence,
        disjunction,
    })
}

// Whether the equivalence proof's equation holds.
fn equivalence_holds<G: Group>(
    g: &G,
    comparison: Comparison<G::Element>,
    proof: EquivalenceProof<G::Element, G::Exponent>,
    z: G::Exponent,
    c: u64,
) -> bool
    ensures { result ≡ equivalence_accepted G.Group.operations (comparison_meaning G.Group.point comparison) (G.Exponent.Exponent.value z) (G.Group.point proof.commitment) c (G.Exponent.Exponent.value proof.answer) }
{
    let Comparison {
        key,
        inputs,
        outputs,
    } = comparison;
    let old = multiply(g, inputs.first, inputs.second);
    let new = multiply(g, outputs.first, outputs.second);
    accepts(
        g,
        fold_key(g, key, z),
        fold_quotient(g, old, new, z),
        proof.commitment,
        c,
        proof.answer,
    )
}

// Whether a branch's equation holds, for the folded key.
fn branch_holds<G: Group>(
    g: &G,
    folded: G::Element,
    old: Ciphertext<G::Element>,
    new: Ciphertext<G::Element>,
    branch: Branch<G::Element, G::Exponent>,
    z: G::Exponent,
) -> bool
    ensures { result ≡ accepted G.Group.operations (G.Group.point folded) (folded_quotient G.Group.operations (meaning G.Group.point old) (meaning G.Group.point new) (G.Exponent.Exponent.value z)) (G.Group.point branch.commitment) branch.challenge (G.Exponent.Exponent.value branch.answer) }
{
    let Branch {
        commitment,
        challenge,
        answer,
    } = branch;
    accepts(
        g,
        folded,
        fold_quotient(g, old, new, z),
        commitment,
        challenge,
        answer,
    )
}

// Each equation by itself: the product of two would let their errors cancel.
fn check_equations<G: Group>(
    g: &G,
    comparison: Comparison<G::Element>,
    proofs: Proofs<G::Element, G::Exponent>,
    draws: OfBoth<ProofDraws<G::Exponent>>,
    place: usize,
) -> Result<(), Refusal>
    ensures { Answered (judge_equations G.Group.operations (comparison_meaning G.Group.point comparison) (proofs_meaning G.Group.point G.Exponent.Exponent.value proofs) (draws_meaning G.Exponent.Exponent.value draws)) place result }
{
    let Comparison {
        key,
        inputs,
        outputs,
    } = comparison;
    let Proofs {
        equivalence,
        disjunction,
    } = proofs;
    let DisjunctiveProof { first, second } = disjunction;
    let OfBoth {
        equivalence: ProofDraws { z, c },
        disjunction: drawn,
    } = draws;
    if !equivalence_holds(g, comparison, equivalence, z, c) {
        return Err(Reason::ProductProof.at(place));
    }
    if first.challenge ^ second.challenge != drawn.c {
        return Err(Reason::ChallengeSplit.at(place));
    }
    let z = drawn.z;
    let folded = fold_key(g, key, z);
    if !branch_holds(g, folded, inputs.first, outputs.first, first, z) {
        return Err(Reason::FirstBranch.at(place));
    }
    if !branch_holds(g, folded, inputs.first, outputs.second, second, z) {
        return Err(Reason::SecondBranch.at(place));
    }
    Ok(())
}

// The check, within a buffer that fits.
fn check_within<G: Group, S: Source>(
    challenger: &Challenger<'_, G, S>,
    comparison: Comparison<G::Element>,
    proofs: Proofs<G::Element, <G::Exponent as Exponent>::Posted>,
    first: u64,
    buffer: &mut [u8],
) -> Result<(), Refusal>
    requires { 11 * G.Group.operations.width ≤ length buffer.old }
    ensures { Answered (judge G.Group.operations G.Exponent.Exponent.exponents (S.Source.words challenger.now.source.now) (comparison_meaning G.Group.point comparison) (proofs_meaning G.Group.point G.Exponent.Exponent.number proofs) first) challenger.now.place result }
{
    let Challenger { group, place, .. } = *challenger;
    let proofs = read_proofs::<G::Element, G::Exponent>(proofs, place)?;
    let draws = draw_all(challenger, comparison, proofs, first, buffer)?;
    check_equations(group, comparison, proofs, draws, place)
}

// Checks what a server posted for a comparator: taken exactly where every number is fit, the source reaches
// four questions from `first` on, and each equation holds at what was drawn. The buffer ends as zeros.
pub fn check<G: Group, S: Source>(
    challenger: &Challenger<'_, G, S>,
    comparison: Comparison<G::Element>,
    proofs: Proofs<G::Element, <G::Exponent as Exponent>::Posted>,
    first: u64,
    buffer: &mut [u8],
) -> Result<(), Refusal>
    ensures verdict { Answered (unless (buffer_fits G.Group.operations (length buffer.old)) UnfitLength (judge G.Group.operations G.Exponent.Exponent.exponents (S.Source.words challenger.now.source.now) (comparison_meaning G.Group.point comparison) (proofs_meaning G.Group.point G.Exponent.Exponent.number proofs) first)) challenger.now.place result }
    ensures exact { (is_ok result ≡ true → Holds G.Group.operations G.Exponent.Exponent.exponents (S.Source.words challenger.now.source.now) (comparison_meaning G.Group.point comparison) (proofs_meaning G.Group.point G.Exponent.Exponent.number proofs) first)
        × (11 * G.Group.operations.width ≤ length buffer.old → Holds G.Group.operations G.Exponent.Exponent.exponents (S.Source.words challenger.now.source.now) (comparison_meaning G.Group.point comparison) (proofs_meaning G.Group.point G.Exponent.Exponent.number proofs) first → is_ok result ≡ true) }
    ensures cleared { buffer.new ≡ zeros 0 buffer.old }
{
    let buffer = Clearing { places: buffer };
    if !buffer_fits::<G>(buffer.places.len()) {
        return Err(Reason::UnfitLength.at(challenger.place));
    }
    check_within(challenger, comparison, proofs, first, buffer.places)
}
