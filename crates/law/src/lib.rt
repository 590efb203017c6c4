// The law of a round, over any calls on its board.
#![tactic(auto)]

ghost use Rattle.std.specs.Prelude.{◌≡◌};
ghost use Rattle.board.specs.Calls.{terms};
ghost use Rattle.board.specs.Rounds.{standing_of};
ghost use Rattle.board.specs.States.{view, state_map};
ghost use Rattle.elgamal.specs.Ciphertexts.{meaning};
ghost use Rattle.law.specs.HonestRound.{HonestRound};
ghost use Rattle.law.specs.Law.{Law};

use board::board::Board;
use board::setup::Setup;
use board::verdict::Standing;
use group::Group;
use plan::Plan;
use source::Source;

// Judges a round by its board, which obeys the law: whatever calls led to it, taken or refused. That the law's premises
// can be met is shown by an honest round with witnesses for its step.
pub fn judge_round<G: Group, P: Plan, S: Source>(
    board: &Board<'_, G::Element>,
    setup: &Setup<'_, G, P, S>,
) -> Standing
    ensures standing { result ≡ standing_of (view board.now) }
    ensures law { Law (terms G.Group.operations G.Exponent.Exponent.exponents (S.Source.words setup.now.source.now) (G.Group.point board.now.key) (P.Plan.listing setup.now.plan.now)) (P.Plan.width setup.now.plan.now) (state_map (meaning G.Group.point) (view board.now)) }
    ensures met { HonestRound }
{
    // That the group's order is its exponents' is part of why the law holds; no number is needed.
    let _ = setup.group.order();
    board.standing()
}
