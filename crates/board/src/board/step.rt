// A step: the next comparator's outputs, checked and written.
ghost use Rattle.std.specs.Prelude.{◌≡◌, ◌+◌, ◌-◌, ◌*◌, ◌<◌, ◌≤◌, length};
ghost use Rattle.elgamal.specs.Ciphertexts.{meaning};
ghost use Rattle.plan.specs.Plans.{nth};
ghost use Rattle.prover.specs.States.{message_meaning};
ghost use Rattle.board.specs.Calls.{judge_step, terms, StepHappens};
ghost use Rattle.board.specs.States.{view, state_map};
ghost use Rattle.board.specs.Steps.{comparison_at};
ghost use Rattle.board.specs.declared.events.Stage.TheVariants.{Turning};

use super::Board;
use crate::events::Taken;
use crate::setup::Setup;
use equivalence::check::check;
use group::{Exponent, Group};
use plan::{Comparator, Plan};
use posting::comparison::{Comparison, Pair};
use posting::drawing::Challenger;
use prover::states::Message;
use refusal::{Reason, Refusal};
use source::Source;

// The first of the four questions of a server's comparator.
pub(crate) fn question_of(count: usize, server: usize, next: usize) -> u64
    requires count { count ≤ 4096 }
    requires server { server ≤ 8 }
    requires turn { 1 ≤ server }
    requires next { next ≤ 4096 }
    ensures { result ≡ 4 * (count * (server - 1) + next) }
{
    4 * (count * (server - 1) + next) as u64
}

impl<'a, E: Copy> Board<'a, E> {
    // What the step's proofs speak of, on a comparator within the wires.
    fn comparison_on(&self, on: Comparator, outputs: Pair<E>) -> Comparison<E>
        requires first { on.first < length self.now.wires.now }
        requires second { on.second < length self.now.wires.now }
        ensures { result ≡ comparison_at self.now.key self.now.wires.now on outputs }
    {
        Comparison {
            key: self.key,
            inputs: self.inputs_on(on),
            outputs,
        }
    }
}

// Judges a step on the next comparator, and writes its outputs where it is taken.
pub(crate) fn step<G: Group, P: Plan, S: Source>(
    board: &mut Board<'_, G::Element>,
    setup: &Setup<'_, G, P, S>,
    message: Message<G::Element, <G::Exponent as Exponent>::Posted>,
    buffer: &mut [u8],
) -> Result<Taken, Refusal>
    requires stage { board.old.stage ≡ Turning }
    requires buffer { 11 * G.Group.operations.width ≤ length buffer.old }
    ensures key { board.new.key ≡ board.old.key }
    ensures happens { StepHappens (judge_step (terms G.Group.operations G.Exponent.Exponent.exponents (S.Source.words setup.now.source.now) (G.Group.point board.old.key) (P.Plan.listing setup.now.plan.now)) (state_map (meaning G.Group.point) (view board.old)) (message_meaning G.Group.point G.Exponent.Exponent.number message) (nth (P.Plan.listing setup.now.plan.now) board.old.next)) (P.Plan.listing setup.now.plan.now) (view board.old) message.outputs result (view board.new) }
{
    let next = board.next;
    let Some(on) = board.next_comparator(setup.plan) else {
        return Err(Reason::WrongStage.at(next));
    };
    let count = setup.plan.count();
    let Message { outputs, proofs } = message;
    let comparison = board.comparison_on(on, outputs);
    let question = question_of(count, board.server, next);
    let challenger = Challenger {
        group: setup.group,
        source: setup.source,
        place: next,
    };
    check(&challenger, comparison, proofs, question, buffer)?;
    Ok(board.write(on, outputs, count))
}
