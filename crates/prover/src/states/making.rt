// Making an honest comparator's outputs, its commitments and its answers.
ghost use Rattle.std.specs.Prelude.{◌≡◌, ◌+◌, ◌≤◌, length, OnOk};
ghost use Rattle.clearing.specs.Zeros.{zeros};
ghost use Rattle.equivalence.specs.Judgement.{proofs_meaning};
ghost use Rattle.posting.specs.Commitments.{commitment_points};
ghost use Rattle.posting.specs.Comparison.{pair_meaning, comparison_meaning};
ghost use Rattle.prover.specs.Honest.{by_setting, word_over, answer_of, answered_proofs, equivalence_challenge, disjunction_challenge, equivalence_z, disjunction_z, true_commitment, simulated_commitment};
ghost use Rattle.prover.specs.Secrets.{secrets_meaning};
ghost use Rattle.prover.specs.States.{made_meaning, committed_meaning, message_meaning, outputs_made, committed, answer_message, honest_message, unready, Outcome};

use super::{Committed, Message, OutputsMade};
use crate::secrets::Secrets;
use clearing::Clearing;
use elgamal::reencrypt;
use equivalence::equation::{fold_key, fold_quotient};
use equivalence::proofs::{Branch, DisjunctiveProof, EquivalenceProof, OfBoth, Proofs};
use group::{Exponent, Group};
use plan::Setting;
use posting::comparison::{Comparison, Pair};
use posting::drawing::{Challenger, Commitments, buffer_fits};
use refusal::{Reason, Refusal};
use source::{Source, c_of, z_of};

// The first where the comparator is straight, the second where it is swapped.
fn choose<T: Copy>(setting: Setting, straight: T, swapped: T) -> T
    ensures { result ≡ by_setting setting straight swapped }
{
    match setting {
        Setting::Straight => straight,
        Setting::Swapped => swapped,
    }
}

// Re-encrypts both inputs onto the wires that the setting says.
pub fn make_outputs<G: Group>(
    g: &G,
    key: G::Element,
    inputs: Pair<G::Element>,
    setting: Setting,
    secrets: Secrets<G::Exponent>,
) -> OutputsMade<G::Element, G::Exponent>
    ensures { made_meaning G.Group.point G.Exponent.Exponent.value result ≡ outputs_made G.Group.operations (G.Group.point key) (pair_meaning G.Group.point inputs) setting (secrets_meaning G.Exponent.Exponent.value secrets) }
{
    let Pair { first, second } = inputs;
    let outputs = Pair {
        first: reencrypt(g, key, choose(setting, first, second), secrets.r1),
        second: reencrypt(g, key, choose(setting, second, first), secrets.r2),
    };
    OutputsMade {
        comparison: Comparison {
            key,
            inputs,
            outputs,
        },
        setting,
        secrets,
    }
}

// Draws a word for each proof of a comparator whose four questions begin at `first`: the two on which a z depends, or
// with the offset 1 the two on which a challenge does. The offset is a number and names no kind: it is added to the numbers
// of the questions. Here and below a buffer stands beside the challenger, and in no struct with it: it is lent anew for each
// draw, and the contracts say of it by itself what it is afterwards.
fn draw_both<G: Group, S: Source>(
    challenger: &Challenger<'_, G, S>,
    comparison: Comparison<G::Element>,
    commitments: OfBoth<Commitments<G::Element>>,
    first: u64,
    offset: u64,
    buffer: &mut [u8],
) -> Result<OfBoth<u64>, Refusal>
    requires { offset ≤ 1 }
    ensures { Outcome (unready G.Group.operations (S.Source.words challenger.now.source.now) first (length buffer.old)) challenger.now.place
        (λ w. (w.equivalence ≡ word_over G.Group.operations (S.Source.words challenger.now.source.now) (comparison_meaning G.Group.point comparison) (commitment_points G.Group.point commitments.equivalence) (first + offset))
        × (w.disjunction ≡ word_over G.Group.operations (S.Source.words challenger.now.source.now) (comparison_meaning G.Group.point comparison) (commitment_points G.Group.point commitments.disjunction) (first + 2 + offset))) result }
{
    if !buffer_fits::<G>(buffer.len()) {
        return Err(Reason::UnfitLength.at(challenger.place));
    }
    if !challenger.reaches(first) {
        return Err(Reason::BeyondReach.at(challenger.place));
    }
    let question = first + offset;
    let equivalence = challenger.draw_over(comparison, commitments.equivalence, question, buffer)?;
    let question = first + 2 + offset;
    let disjunction = challenger.draw_over(comparison, commitments.disjunction, question, buffer)?;
    Ok(OfBoth {
        equivalence,
        disjunction,
    })
}

// Draws both z.
fn draw_folds<G: Group, S: Source>(
    challenger: &Challenger<'_, G, S>,
    comparison: Comparison<G::Element>,
    question: u64,
    buffer: &mut [u8],
) -> Result<OfBoth<G::Exponent>, Refusal>
    ensures { Outcome (unready G.Group.operations (S.Source.words challenger.now.source.now) question (length buffer.old)) challenger.now.place
        (λ z. (G.Exponent.Exponent.value z.equivalence ≡ equivalence_z G.Group.operations G.Exponent.Exponent.exponents (S.Source.words challenger.now.source.now) (comparison_meaning G.Group.point comparison) question)
        × (G.Exponent.Exponent.value z.disjunction ≡ disjunction_z G.Group.operations G.Exponent.Exponent.exponents (S.Source.words challenger.now.source.now) (comparison_meaning G.Group.point comparison) question)) result }
{
    let none = OfBoth {
        equivalence: Commitments::None,
        disjunction: Commitments::None,
    };
    let words = draw_both(challenger, comparison, none, question, 0, buffer)?;
    Ok(OfBoth {
        equivalence: z_of::<G::Exponent>(words.equivalence),
        disjunction: z_of::<G::Exponent>(words.disjunction),
    })
}

// The commitment of the branch that is simulated: it fits an answer and a challenge chosen before.
fn simulate<G: Group>(
    g: &G,
    comparison: Comparison<G::Element>,
    setting: Setting,
    z: G::Exponent,
    answer: G::Exponent,
    challenge: u64,
) -> G::Element
    ensures { G.Group.point result ≡ simulated_commitment G.Group.operations (comparison_meaning G.Group.point comparison) setting (G.Exponent.Exponent.value z) (G.Exponent.Exponent.value answer) challenge }
{
    let Comparison {
        key,
        inputs,
        outputs,
    } = comparison;
    let output = choose(setting, outputs.second, outputs.first);
    let right = g.raise_word(fold_quotient(g, inputs.first, output, z), challenge);
    g.multiply(g.raise(fold_key(g, key, z), answer), g.invert(right))
}

// Commits to both proofs, at four questions from `question` on. The buffer ends as zeros.
pub fn commit<G: Group, S: Source>(
    challenger: &Challenger<'_, G, S>,
    made: OutputsMade<G::Element, G::Exponent>,
    question: u64,
    buffer: &mut [u8],
) -> Result<Committed<G::Element, G::Exponent>, Refusal>
    ensures outcome { Outcome (unready G.Group.operations (S.Source.words challenger.now.source.now) question (length buffer.old)) challenger.now.place
        (λ c. committed_meaning G.Group.point G.Exponent.Exponent.value c ≡ committed G.Group.operations G.Exponent.Exponent.exponents (S.Source.words challenger.now.source.now) (made_meaning G.Group.point G.Exponent.Exponent.value made) question) result }
    ensures same_order { OnOk result (G.Group.operations.order ≡ G.Exponent.Exponent.exponents.order) }
    ensures cleared { buffer.new ≡ zeros 0 buffer.old }
{
    let buffer = Clearing { places: buffer };
    let OutputsMade {
        comparison,
        setting,
        secrets,
    } = made;
    let g = challenger.group;
    let z = draw_folds(challenger, comparison, question, buffer.places)?;
    let equivalence = g.raise(
        fold_key(g, comparison.key, z.equivalence),
        secrets.equivalence,
    );
    let known = g.raise(
        fold_key(g, comparison.key, z.disjunction),
        secrets.disjunction,
    );
    let simulated = simulate(
        g,
        comparison,
        setting,
        z.disjunction,
        secrets.answer,
        secrets.challenge,
    );
    Ok(Committed {
        made: OutputsMade {
            comparison,
            setting,
            secrets,
        },
        question,
        equivalence,
        first: choose(setting, known, simulated),
        second: choose(setting, simulated, known),
    })
}

// The answer e + c·r.
fn answer_of<X: Exponent>(e: X, c: u64, r: X) -> X
    ensures { X.Exponent.value result ≡ answer_of X.Exponent.exponents (X.Exponent.value e) c (X.Exponent.value r) }
{
    e.add(X::from_word(c).multiply(r))
}

// Draws both challenges, over the commitments.
fn draw_challenges<G: Group, S: Source>(
    challenger: &Challenger<'_, G, S>,
    comparison: Comparison<G::Element>,
    w: G::Element,
    w1: G::Element,
    w2: G::Element,
    question: u64,
    buffer: &mut [u8],
) -> Result<OfBoth<u64>, Refusal>
    ensures { Outcome (unready G.Group.operations (S.Source.words challenger.now.source.now) question (length buffer.old)) challenger.now.place
        (λ c. (c.equivalence ≡ equivalence_challenge G.Group.operations G.Exponent.Exponent.exponents (S.Source.words challenger.now.source.now) (comparison_meaning G.Group.point comparison) (G.Group.point w) question)
        × (c.disjunction ≡ disjunction_challenge G.Group.operations G.Exponent.Exponent.exponents (S.Source.words challenger.now.source.now) (comparison_meaning G.Group.point comparison) (G.Group.point w1) (G.Group.point w2) question)) result }
{
    let commitments = OfBoth {
        equivalence: Commitments::One(w),
        disjunction: Commitments::Two(w1, w2),
    };
    let words = draw_both(challenger, comparison, commitments, question, 1, buffer)?;
    Ok(OfBoth {
        equivalence: c_of::<G::Exponent>(words.equivalence),
        disjunction: c_of::<G::Exponent>(words.disjunction),
    })
}

// Both proofs, answered: the known branch upon its part of the challenge, the other as it was chosen.
fn respond<E: Copy, X: Exponent>(
    setting: Setting,
    secrets: Secrets<X>,
    c: OfBoth<u64>,
    w: E,
    w1: E,
    w2: E,
) -> Proofs<E, X::Posted>
    ensures { proofs_meaning (λ e. e) X.Exponent.number result ≡ answered_proofs X.Exponent.exponents setting (secrets_meaning X.Exponent.value secrets) w w1 w2 c.equivalence c.disjunction }
{
    let Secrets {
        r1,
        r2,
        equivalence,
        disjunction,
        answer,
        challenge,
    } = secrets;
    let product = answer_of(equivalence, c.equivalence, r1.add(r2)).post();
    let split = c.disjunction ^ challenge;
    let known = answer_of(disjunction, split, choose(setting, r1, r2)).post();
    let chosen = answer.post();
    let first = choose(
        setting,
        branch(w1, split, known),
        branch(w1, challenge, chosen),
    );
    let second = choose(
        setting,
        branch(w2, challenge, chosen),
        branch(w2, split, known),
    );
    Proofs {
        equivalence: EquivalenceProof {
            commitment: w,
            answer: product,
        },
        disjunction: DisjunctiveProof { first, second },
    }
}

fn branch<E, N>(commitment: E, challenge: u64, answer: N) -> Branch<E, N>
    ensures { result ≡ record { commitment = commitment; challenge = challenge; answer = answer } }
{
    Branch {
        commitment,
        challenge,
        answer,
    }
}

// Answers both challenges; the commitment is used up. The buffer ends as zeros.
pub fn answer<G: Group, S: Source>(
    challenger: &Challenger<'_, G, S>,
    committed: Committed<G::Element, G::Exponent>,
    buffer: &mut [u8],
) -> Result<Message<G::Element, <G::Exponent as Exponent>::Posted>, Refusal>
    ensures outcome { Outcome (unready G.Group.operations (S.Source.words challenger.now.source.now) committed.question (length buffer.old)) challenger.now.place
        (λ m. message_meaning G.Group.point G.Exponent.Exponent.number m ≡ answer_message G.Group.operations G.Exponent.Exponent.exponents (S.Source.words challenger.now.source.now) (committed_meaning G.Group.point G.Exponent.Exponent.value committed)) result }
    ensures cleared { buffer.new ≡ zeros 0 buffer.old }
{
    let buffer = Clearing { places: buffer };
    let Committed {
        made,
        question,
        equivalence,
        first,
        second,
    } = committed;
    let OutputsMade {
        comparison,
        setting,
        secrets,
    } = made;
    let c = draw_challenges(
        challenger,
        comparison,
        equivalence,
        first,
        second,
        question,
        buffer.places,
    )?;
    Ok(Message {
        outputs: comparison.outputs,
        proofs: respond(setting, secrets, c, equivalence, first, second),
    })
}
