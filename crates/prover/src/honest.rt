// An honest comparator from its secret words to what is posted.
ghost use Rattle.std.specs.Prelude.{◌≡◌, length, IfOk, ◌==◌};
ghost use Rattle.clearing.specs.Zeros.{zeros};
ghost use Rattle.equivalence.specs.Judgement.{unless};
ghost use Rattle.posting.specs.Comparison.{pair_meaning};
ghost use Rattle.prover.specs.Secrets.{secrets_of};
ghost use Rattle.prover.specs.States.{message_meaning, honest_message, unready, Outcome, Taken};
ghost use Rattle.refusal.specs.declared.Reason.TheVariants.{UnfitLength};

use crate::secrets::read_secrets;
use crate::states::Message;
use crate::states::making::{answer, commit, make_outputs};
use clearing::Clearing;
use group::{Exponent, Group};
use plan::Setting;
use posting::comparison::Pair;
use posting::drawing::Challenger;
use refusal::Refusal;
use source::Source;

// Makes, commits and answers, at four questions from `question` on. What it posts is taken by the check of
// a comparator at the same draws. Words and buffer end as zeros, also where it is refused.
pub fn prove<G: Group, S: Source>(
    challenger: &Challenger<'_, G, S>,
    key: G::Element,
    inputs: Pair<G::Element>,
    setting: Setting,
    words: &mut [u64],
    question: u64,
    buffer: &mut [u8],
) -> Result<Message<G::Element, <G::Exponent as Exponent>::Posted>, Refusal>
    ensures outcome { Outcome (unless (length words.old == 6) UnfitLength (unready G.Group.operations (S.Source.words challenger.now.source.now) question (length buffer.old))) challenger.now.place
        (λ m. message_meaning G.Group.point G.Exponent.Exponent.number m ≡ honest_message G.Group.operations G.Exponent.Exponent.exponents (S.Source.words challenger.now.source.now) (G.Group.point key) (pair_meaning G.Group.point inputs) setting (secrets_of G.Exponent.Exponent.exponents words.old) question) result }
    ensures taken { IfOk result (λ m. Taken G.Group.operations G.Exponent.Exponent.exponents (S.Source.words challenger.now.source.now) (G.Group.point key) (pair_meaning G.Group.point inputs) (message_meaning G.Group.point G.Exponent.Exponent.number m) question) }
    ensures words_cleared { words.new ≡ zeros 0 words.old }
    ensures buffer_cleared { buffer.new ≡ zeros 0 buffer.old }
{
    let buffer = Clearing { places: buffer };
    let secrets = read_secrets::<G::Exponent>(words, challenger.place)?;
    let made = make_outputs(challenger.group, key, inputs, setting, secrets);
    let committed = commit(challenger, made, question, buffer.places)?;
    answer(challenger, committed, buffer.places)
}
