// The call on a board: the stage and the event are judged together.
ghost use Rattle.std.specs.Prelude.{◌≡◌, length};
ghost use Rattle.clearing.specs.Zeros.{zeros};
ghost use Rattle.elgamal.specs.Ciphertexts.{meaning};
ghost use Rattle.board.specs.Calls.{terms, event_meaning, Happens};
ghost use Rattle.board.specs.States.{view, state_map};

use super::Board;
use super::step::step;
use crate::events::{Event, Stage, Taken};
use crate::setup::Setup;
use clearing::Clearing;
use group::{Exponent, Group};
use plan::Plan;
use posting::drawing::buffer_fits;
use refusal::{Reason, Refusal};
use source::Source;

// Takes an event, or refuses it: then no list and no count is altered. The posting buffer ends as zeros.
pub fn call<G: Group, P: Plan, S: Source>(
    board: &mut Board<'_, G::Element>,
    setup: &Setup<'_, G, P, S>,
    event: Event<G::Element, <G::Exponent as Exponent>::Posted>,
    buffer: &mut [u8],
) -> Result<Taken, Refusal>
    ensures happens { Happens (terms G.Group.operations G.Exponent.Exponent.exponents (S.Source.words setup.now.source.now) (G.Group.point board.old.key) (P.Plan.listing setup.now.plan.now)) (state_map (meaning G.Group.point) (view board.old)) (event_meaning G.Group.point G.Exponent.Exponent.number event) (length buffer.old) result (state_map (meaning G.Group.point) (view board.new)) }
    ensures key { board.new.key ≡ board.old.key }
    ensures cleared { buffer.new ≡ zeros 0 buffer.old }
{
    let buffer = Clearing { places: buffer };
    let fits = buffer_fits::<G>(buffer.places.len());
    match (board.stage, event) {
        (_, Event::Step(_)) if !fits => Err(Reason::UnfitLength.at(board.next)),
        (Stage::Gathering, Event::Post(quote)) => board.post(quote),
        (Stage::Gathering, Event::Close) => board.close(),
        (Stage::Turning, Event::Step(message)) => step(board, setup, message, buffer.places),
        (Stage::Turning, Event::Expel) => Ok(board.expel()),
        _ => Err(Reason::WrongStage.at(board.next)),
    }
}
