// Examining witnesses: unfit numbers, equal draws, equal challenges, answers that are not accepted.
ghost use Rattle.std.specs.Prelude.{◌≡◌, ◌+◌, ◌≤◌, true, false, map, length, Some, None, MatchOption, MatchResult};
ghost use Rattle.std.specs.List.{filter_map};
ghost use Rattle.std.specs.Option.{option_map, option_or};
ghost use Rattle.plan.specs.declared.Setting.TheVariants.{Straight, Swapped};
ghost use Rattle.posting.specs.Comparison.{comparison_meaning};
ghost use Rattle.witness.specs.Witnesses.{witness_meaning, equivalence_meaning, disjunctive_meaning};
ghost use Rattle.witness.specs.Refusals.{witness_fits, judge, at_place, refusal_among, shown_where_fit, equivalence_proof, disjunctive_proof};
ghost use Rattle.witness.specs.Samples.{samples_meaning, branch_meaning, equivalence_sample, drawn, on_branch, three_of, three_on};
ghost use Rattle.witness.specs.Examined.{examined_meaning, Examined};

use crate::posted::{PostedDisjunctiveWitness, PostedEquivalenceWitness, Witness};
use crate::proof::{DisjunctiveProof, EquivalenceProof, Proof};
use crate::reading::check_draws;
use crate::samples::{Branch, Examination, Samples, first_three};
use group::{Exponent, Group};
use plan::Setting;
use posting::comparison::Comparison;
use refusal::{Reason, Refusal};

// Reads a witness, where all its numbers are fit.
fn read_witness<P: Proof>(
    proof: &P,
    witness: Witness<<P::Exponent as Exponent>::Posted, P::Posted>,
) -> Option<Witness<P::Exponent, P::Read>>
    ensures { MatchOption result
        (witness_fits P.Exponent.Exponent.exponents (P.asks proof.now) (witness_meaning P.Exponent.Exponent.number P.posted_meaning witness) ≡ false)
        (λ w. (witness_fits P.Exponent.Exponent.exponents (P.asks proof.now) (witness_meaning P.Exponent.Exponent.number P.posted_meaning witness) ≡ true) × (witness_meaning P.Exponent.Exponent.value P.read_meaning w ≡ witness_meaning P.Exponent.Exponent.number P.posted_meaning witness)) }
{
    let Witness { z, answered } = witness;
    let z = P::Exponent::read(z)?;
    let answered = proof.read(answered)?;
    Some(Witness { z, answered })
}

// Refuses a witness for its numbers, its challenges or its answers.
#[tactic(auto, unfolding(crate::specs::Refusals::judgement))]
fn check_witness<P: Proof>(
    proof: &P,
    witness: Witness<<P::Exponent as Exponent>::Posted, P::Posted>,
    place: usize,
) -> Result<(), Refusal>
    ensures { MatchResult result
        (λ _. judge P.Exponent.Exponent.exponents (P.asks proof.now) (witness_meaning P.Exponent.Exponent.number P.posted_meaning witness) ≡ None)
        (λ f. at_place place (judge P.Exponent.Exponent.exponents (P.asks proof.now) (witness_meaning P.Exponent.Exponent.number P.posted_meaning witness)) ≡ Some f) }
{
    let unfit = Reason::UnfitWitnessNumber.at(place);
    let Witness { z, answered } = read_witness(proof, witness).ok_or(unfit)?;
    let challenges = proof.challenges(answered);
    if challenges.first == challenges.second {
        return Err(Reason::EqualChallenges.at(place));
    }
    if !proof.accepts(z, answered) {
        return Err(Reason::UnacceptedAnswer.at(place));
    }
    Ok(())
}

// Refuses the witnesses of one proof, which have the places from `start` on: a slice does not tell where in a list it lies.
fn check_witnesses<P: Proof>(
    proof: &P,
    witnesses: &[Witness<<P::Exponent as Exponent>::Posted, P::Posted>],
    start: usize,
) -> Result<(), Refusal>
    requires { start + length witnesses.now ≤ 8 }
    ensures { MatchResult result
        (λ _. refusal_among P.Exponent.Exponent.exponents (P.asks proof.now) start (map (witness_meaning P.Exponent.Exponent.number P.posted_meaning) witnesses.now) ≡ None)
        (λ f. refusal_among P.Exponent.Exponent.exponents (P.asks proof.now) start (map (witness_meaning P.Exponent.Exponent.number P.posted_meaning) witnesses.now) ≡ Some f) }
{
    check_draws::<P::Exponent, P::Posted>(witnesses, start)?;
    for (i, witness) in witnesses.iter().enumerate() {
        check_witness(proof, *witness, start + i)?;
    }
    Ok(())
}

// What a witness shows, where its numbers are fit.
fn show<P: Proof>(
    proof: &P,
    witness: Witness<<P::Exponent as Exponent>::Posted, P::Posted>,
) -> Option<P::Shown>
    ensures { option_map P.shown_meaning result ≡ shown_where_fit P.Exponent.Exponent.exponents (P.asks proof.now) P.shown (witness_meaning P.Exponent.Exponent.number P.posted_meaning witness) }
{
    Some(proof.show(read_witness(proof, witness)?))
}

// The first three samples of the equivalence proof.
fn product_samples<G: Group>(
    proof: &EquivalenceProof<'_, G>,
    witnesses: &[PostedEquivalenceWitness<G>],
) -> Option<Samples<G::Exponent>>
    ensures { let asks = equivalence_proof G.Group.operations G.Exponent.Exponent.exponents (comparison_meaning G.Group.point proof.now.comparison) in
        option_map (samples_meaning G.Exponent.Exponent.value) result ≡ three_of (filter_map (shown_where_fit G.Exponent.Exponent.exponents asks (equivalence_sample G.Exponent.Exponent.exponents)) (map (equivalence_meaning G.Group.point G.Exponent.Exponent.number) witnesses.now)) }
{
    first_three(witnesses.iter().filter_map(|witness| show(proof, *witness)))
}

// A branch of the disjunctive proof with its first three samples, where it has three.
fn branch_on<G: Group>(
    proof: &DisjunctiveProof<'_, G>,
    witnesses: &[PostedDisjunctiveWitness<G>],
    setting: Setting,
) -> Option<Branch<G::Exponent>>
    ensures { let asks = disjunctive_proof G.Group.operations G.Exponent.Exponent.exponents (comparison_meaning G.Group.point proof.now.comparison) in
        option_map (branch_meaning G.Exponent.Exponent.value) result ≡ three_on setting (filter_map (shown_where_fit G.Exponent.Exponent.exponents asks (drawn G.Exponent.Exponent.exponents)) (map (disjunctive_meaning G.Group.point G.Exponent.Exponent.number) witnesses.now)) }
{
    first_three(
        witnesses
            .iter()
            .filter_map(|witness| show(proof, *witness))
            .filter_map(|drawn| drawn.on(setting)),
    )
    .map(|samples| Branch { setting, samples })
}

// The branch of the disjunctive proof that has three samples, the straight one where both have.
fn choose_branch<G: Group>(
    proof: &DisjunctiveProof<'_, G>,
    witnesses: &[PostedDisjunctiveWitness<G>],
) -> Option<Branch<G::Exponent>>
    ensures { let asks = disjunctive_proof G.Group.operations G.Exponent.Exponent.exponents (comparison_meaning G.Group.point proof.now.comparison) in
        let shown = filter_map (shown_where_fit G.Exponent.Exponent.exponents asks (drawn G.Exponent.Exponent.exponents)) (map (disjunctive_meaning G.Group.point G.Exponent.Exponent.number) witnesses.now) in
        option_map (branch_meaning G.Exponent.Exponent.value) result ≡ option_or (three_on Straight shown) (three_on Swapped shown) }
{
    let straight = branch_on(proof, witnesses, Setting::Straight);
    straight.or_else(|| branch_on(proof, witnesses, Setting::Swapped))
}

// Examines the witnesses of both proofs: the first refusal, or what they show.
pub fn examine<G: Group>(
    g: &G,
    comparison: Comparison<G::Element>,
    equivalence: &[PostedEquivalenceWitness<G>],
    disjunction: &[PostedDisjunctiveWitness<G>],
) -> Result<Examination<G::Exponent>, Refusal>
    ensures { Examined G.Group.operations G.Exponent.Exponent.exponents (comparison_meaning G.Group.point comparison) (map (equivalence_meaning G.Group.point G.Exponent.Exponent.number) equivalence.now) (map (disjunctive_meaning G.Group.point G.Exponent.Exponent.number) disjunction.now) (examined_meaning G.Exponent.Exponent.value result) }
{
    if equivalence.len() != 3 || disjunction.len() != 5 {
        return Err(Reason::UnfitWitnessCount.at(0));
    }
    let product_proof = EquivalenceProof { g, comparison };
    let branch_proof = DisjunctiveProof { g, comparison };
    check_witnesses(&product_proof, equivalence, 0)?;
    check_witnesses(&branch_proof, disjunction, 3)?;
    // No witness is refused: each shows a sample, and of five one branch has three. They are read again, those of the
    // branches once for each branch that is tried, since no memory is allocated; an ArrayVec of what was read would be
    // filled in one pass and picked from in a second, which is no plainer.
    let product = product_samples(&product_proof, equivalence).unwrap();
    let branch = choose_branch(&branch_proof, disjunction).unwrap();
    Ok(Examination { product, branch })
}
