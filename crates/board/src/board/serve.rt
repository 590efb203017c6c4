// An honest server: its step on the next comparator, and its whole turn.
ghost use Rattle.std.specs.Prelude.{◌≡◌, ◌==◌, ℕ, ◌+◌, ◌-◌, ◌*◌, ◌<◌, ◌≤◌, true, length, is_ok, IfOk, Some, None};
ghost use Rattle.clearing.specs.Zeros.{zeros};
ghost use Rattle.elgamal.specs.Ciphertexts.{meaning};
ghost use Rattle.plan.specs.Plans.{nth};
ghost use Rattle.equivalence.specs.Judgement.{unless};
ghost use Rattle.posting.specs.declared.comparison.Pair.{Pair};
ghost use Rattle.prover.specs.States.{message_meaning, unready, Outcome, Taken};
ghost use Rattle.refusal.specs.declared.Reason.TheVariants.{UnfitLength};
ghost use Rattle.board.specs.Calls.{terms, question, judge_call, after_step};
ghost use Rattle.board.specs.Serving.{inputs_on, next_comparator, judge_honest, HonestStep, honest_step};
ghost use Rattle.board.specs.States.{view, state_map};
ghost use Rattle.board.specs.declared.events.Event.TheVariants.{Step};
ghost use Rattle.board.specs.declared.events.Stage.TheVariants.{Turning};

use super::Board;
use super::step::question_of;
use crate::events::Stage;
use crate::setup::Setup;
use clearing::Clearing;
use group::{Exponent, Group};
use plan::{Comparator, Plan, Setting};
use posting::comparison::Pair;
use posting::drawing::{Challenger, buffer_fits};
use prover::honest::prove;
use prover::states::Message;
use refusal::{Reason, Refusal};
use source::Source;

impl<'a, E: Copy> Board<'a, E> {
    // What stands on a comparator's two wires. That they are on the board is no fact of the comparator alone, so no type
    // of its own holds it: it stands in the `requires` of what reads and writes there, as does that a turn is under way.
    pub(crate) fn inputs_on(&self, on: Comparator) -> Pair<E>
        requires first { on.first < length self.now.wires.now }
        requires second { on.second < length self.now.wires.now }
        ensures { (d : Pair E) → result ≡ inputs_on d self.now.wires.now on }
    {
        let first = self.wires[on.first];
        let second = self.wires[on.second];
        Pair { first, second }
    }

    // The comparator that is next, where a turn is under way and the wires have it.
    pub(crate) fn next_comparator<P: Plan>(&self, plan: &P) -> Option<Comparator>
        ensures { result ≡ next_comparator (P.Plan.listing plan.now) (view self.now) }
    {
        match self.stage {
            Stage::Turning => {
                let on = plan.comparator(self.next)?;
                (on.second < self.wires.len()).then_some(on)
            }
            Stage::Gathering | Stage::Finished => None,
        }
    }
}

// What an honest server posts on a comparator within the wires, under a setting and with six secret words. Words and buffer
// stand beside each other in what serves, and in no struct: they are two lists that the caller lends, and each is cleared and
// told of in the contract by itself.
pub(crate) fn prove_on<G: Group, P: Plan, S: Source>(
    board: &Board<'_, G::Element>,
    setup: &Setup<'_, G, P, S>,
    on: Comparator,
    setting: Setting,
    words: &mut [u64],
    buffer: &mut [u8],
) -> Result<Message<G::Element, <G::Exponent as Exponent>::Posted>, Refusal>
    requires first { on.first < length board.now.wires.now }
    requires second { on.second < length board.now.wires.now }
    requires turn { 1 ≤ board.now.server }
    ensures outcome { let T = terms G.Group.operations G.Exponent.Exponent.exponents (S.Source.words setup.now.source.now) (G.Group.point board.now.key) (P.Plan.listing setup.now.plan.now) in let s = state_map (meaning G.Group.point) (view board.now) in
        Outcome (unless (length words.old == 6) UnfitLength (unready G.Group.operations (S.Source.words setup.now.source.now) (question T s) (length buffer.old))) board.now.next (λ m. message_meaning G.Group.point G.Exponent.Exponent.number m ≡ honest_step T s on setting words.old) result }
    ensures taken { let T = terms G.Group.operations G.Exponent.Exponent.exponents (S.Source.words setup.now.source.now) (G.Group.point board.now.key) (P.Plan.listing setup.now.plan.now) in let s = state_map (meaning G.Group.point) (view board.now) in
        (d : Pair G.Group.Point) → IfOk result (λ m. Taken G.Group.operations G.Exponent.Exponent.exponents (S.Source.words setup.now.source.now) (G.Group.point board.now.key) (inputs_on d s.wires on) (message_meaning G.Group.point G.Exponent.Exponent.number m) (question T s)) }
    ensures words_cleared { words.new ≡ zeros 0 words.old }
    ensures buffer_cleared { buffer.new ≡ zeros 0 buffer.old }
{
    let challenger = Challenger {
        group: setup.group,
        source: setup.source,
        place: board.next,
    };
    let question = question_of(setup.plan.count(), board.server, board.next);
    let inputs = board.inputs_on(on);
    prove(
        &challenger,
        board.key,
        inputs,
        setting,
        words,
        question,
        buffer,
    )
}

// What an honest server posts for the comparator that is next, under a setting and with six secret words: the board
// takes it as a step. The board is left as it is; words and buffer end as zeros.
pub fn honest_step<G: Group, P: Plan, S: Source>(
    board: &mut Board<'_, G::Element>,
    setup: &Setup<'_, G, P, S>,
    setting: Setting,
    words: &mut [u64],
    buffer: &mut [u8],
) -> Result<Message<G::Element, <G::Exponent as Exponent>::Posted>, Refusal>
    ensures outcome { Outcome (judge_honest (terms G.Group.operations G.Exponent.Exponent.exponents (S.Source.words setup.now.source.now) (G.Group.point board.old.key) (P.Plan.listing setup.now.plan.now)) (state_map (meaning G.Group.point) (view board.old)) (length words.old) (length buffer.old)) board.old.next
        (λ m. HonestStep (terms G.Group.operations G.Exponent.Exponent.exponents (S.Source.words setup.now.source.now) (G.Group.point board.old.key) (P.Plan.listing setup.now.plan.now)) (state_map (meaning G.Group.point) (view board.old)) setting words.old (message_meaning G.Group.point G.Exponent.Exponent.number m)) result }
    ensures taken { IfOk result (λ m. judge_call (terms G.Group.operations G.Exponent.Exponent.exponents (S.Source.words setup.now.source.now) (G.Group.point board.old.key) (P.Plan.listing setup.now.plan.now)) (state_map (meaning G.Group.point) (view board.old)) (Step (message_meaning G.Group.point G.Exponent.Exponent.number m)) (length buffer.old) ≡ None) }
    ensures kept { board.new ≡ board.old }
    ensures words_cleared { words.new ≡ zeros 0 words.old }
    ensures buffer_cleared { buffer.new ≡ zeros 0 buffer.old }
{
    let words = Clearing { places: words };
    let buffer = Clearing { places: buffer };
    let next = board.next;
    if words.places.len() != 6 || !buffer_fits::<G>(buffer.places.len()) {
        return Err(Reason::UnfitLength.at(next));
    }
    let Some(on) = board.next_comparator(setup.plan) else {
        return Err(Reason::WrongStage.at(next));
    };
    prove_on(board, setup, on, setting, words.places, buffer.places)
}
