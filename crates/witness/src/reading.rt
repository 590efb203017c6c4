// Reading what was posted: numbers that are fit, and draws that differ.
ghost use Rattle.std.specs.Prelude.{◌≡◌, ◌+◌, ◌<◌, ◌≤◌, true, false, [], length, Some, None, MatchOption, MatchResult};
ghost use Rattle.witness.specs.Witnesses.{answer_meaning, transcript_meaning, disjunction_meaning};
ghost use Rattle.witness.specs.Refusals.{stands, draws, repeated, challenge_fits, answer_fits, transcript_fits, disjunction_fits};

use crate::posted::{Answer, Challenges, Disjunction, Transcript, Witness};
use group::Exponent;
use refusal::{Reason, Refusal};

// Whether a witness among these has the z.
fn drawn_among<X: Exponent, T: Copy>(z: X::Posted, witnesses: &[Witness<X::Posted, T>]) -> bool
    ensures { result ≡ stands (X.Exponent.number z) (draws X.Exponent.number witnesses.now) }
{
    witnesses.iter().any(|witness| X::same_posted(z, witness.z))
}

// Refuses the first witness that has the z of an earlier one. The places are those of the whole list of witnesses, of which
// these are a part, and a slice does not tell where in a list it lies.
pub(crate) fn check_draws<X: Exponent, T: Copy>(
    witnesses: &[Witness<X::Posted, T>],
    start: usize,
) -> Result<(), Refusal>
    requires { start + length witnesses.now ≤ 8 }
    ensures { MatchResult result
        (λ _. repeated start [] (draws X.Exponent.number witnesses.now) ≡ None)
        (λ f. repeated start [] (draws X.Exponent.number witnesses.now) ≡ Some f) }
{
    for (i, witness) in witnesses.iter().enumerate() {
        if drawn_among::<X, T>(witness.z, &witnesses[0..i]) {
            return Err(Reason::EqualDraws.at(start + i));
        }
    }
    Ok(())
}

// Whether a challenge has no more bits than it may. `group::read_challenge` compares so too, one line in each: that one
// refuses at a place, and here the place of a witness is named by what reads it whole.
fn fits<X: Exponent>(challenge: u64) -> bool
    ensures { result ≡ challenge_fits X.Exponent.exponents challenge }
{
    X::challenge(challenge) == challenge
}

// Reads an answer, where its numbers are fit.
fn read_answer<X: Exponent>(answer: Answer<X::Posted>) -> Option<Answer<X>>
    ensures { MatchOption result
        (answer_fits X.Exponent.exponents (answer_meaning X.Exponent.number answer) ≡ false)
        (λ a. (answer_fits X.Exponent.exponents (answer_meaning X.Exponent.number answer) ≡ true) × (answer_meaning X.Exponent.value a ≡ answer_meaning X.Exponent.number answer)) }
{
    let Answer {
        challenge,
        exponent,
    } = answer;
    if !fits::<X>(challenge) {
        return None;
    }
    let exponent = X::read(exponent)?;
    Some(Answer {
        challenge,
        exponent,
    })
}

// Reads a transcript, where all its numbers are fit.
pub(crate) fn read_transcript<E: Copy, X: Exponent>(
    transcript: Transcript<E, X::Posted>,
) -> Option<Transcript<E, X>>
    ensures { MatchOption result
        (transcript_fits X.Exponent.exponents (transcript_meaning (λ e. e) X.Exponent.number transcript) ≡ false)
        (λ t. (transcript_fits X.Exponent.exponents (transcript_meaning (λ e. e) X.Exponent.number transcript) ≡ true) × (transcript_meaning (λ e. e) X.Exponent.value t ≡ transcript_meaning (λ e. e) X.Exponent.number transcript)) }
{
    let Transcript {
        commitment,
        first,
        second,
    } = transcript;
    let first = read_answer::<X>(first)?;
    let second = read_answer::<X>(second)?;
    Some(Transcript {
        commitment,
        first,
        second,
    })
}

// Reads both answers to a disjunctive proof.
pub(crate) fn read_disjunction<E: Copy, X: Exponent>(
    disjunction: Disjunction<E, X::Posted>,
) -> Option<Disjunction<E, X>>
    ensures { MatchOption result
        (disjunction_fits X.Exponent.exponents (disjunction_meaning (λ e. e) X.Exponent.number disjunction) ≡ false)
        (λ d. (disjunction_fits X.Exponent.exponents (disjunction_meaning (λ e. e) X.Exponent.number disjunction) ≡ true) × (disjunction_meaning (λ e. e) X.Exponent.value d ≡ disjunction_meaning (λ e. e) X.Exponent.number disjunction)) }
{
    let Disjunction {
        challenges,
        straight,
        swapped,
    } = disjunction;
    if !fits::<X>(challenges.first) {
        return None;
    }
    if !fits::<X>(challenges.second) {
        return None;
    }
    let straight = read_transcript::<E, X>(straight)?;
    let swapped = read_transcript::<E, X>(swapped)?;
    Some(Disjunction {
        challenges,
        straight,
        swapped,
    })
}
