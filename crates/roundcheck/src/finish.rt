// What is done on a round's board once its file was run to the end.
ghost use Rattle.std.specs.Prelude.{◌≡◌, ℕ, List, MatchResult};
ghost use Rattle.board.specs.declared.verdict.Standing.{Standing};
ghost use Rattle.plan.specs.declared.Comparator.{Comparator};
ghost use Rattle.refusal.specs.declared.Refusal.{Refusal};
ghost use Rattle.roundcheck.specs.Finishing.{IfRefused};
ghost use Rattle.roundcheck.specs.declared.report.Line.{Line};

use crate::report::Line;
use board::board::Board;
use board::setup::Setup;
use board::verdict::Standing;
use group::{Exponent, Group};
use plan::Plan;
use refusal::Failure;
use source::Source;
use std::alloc::Global;

pub trait Finish: Sized + Drop {
    type Answer;

    // What may be answered, and what refused, over a plan of so many wires and with these comparators, where the file
    // gave these lines and the round stands so.
    ghost answers: { Self → ℕ → List Comparator → List Line → Standing → Self.Answer → Type 0 };

    ghost refuses: { Self → ℕ → List Comparator → List Line → Standing → Refusal → Type 0 };

    fn finish<G: Group, P: Plan, S: Source>(
        self,
        heap: Global,
        board: &mut Board<'_, G::Element>,
        setup: &Setup<'_, G, P, S>,
        lines: &[Line],
        standing: Standing,
    ) -> Result<Self::Answer, Failure>
    where
        G::Exponent: Exponent<Posted = u32>,
        ensures { MatchResult result
            (answers self (P.Plan.width setup.now.plan.now) (P.Plan.listing setup.now.plan.now) lines.now standing)
            (λ failure. IfRefused failure (refuses self (P.Plan.width setup.now.plan.now) (P.Plan.listing setup.now.plan.now) lines.now standing)) };
}

// The round as it stands is all that is asked.
#[derive(Drop)]
pub struct Judge;

impl Finish for Judge {
    type Answer = Standing;

    ghost answers = { λ _ _ _ _ standing answer. answer ≡ standing };

    ghost refuses = { λ _ _ _ _ _ _. ⊥ };

    fn finish<G: Group, P: Plan, S: Source>(
        self,
        _: Global,
        _: &mut Board<'_, G::Element>,
        _: &Setup<'_, G, P, S>,
        _: &[Line],
        standing: Standing,
    ) -> Result<Standing, Failure>
    where
        G::Exponent: Exponent<Posted = u32>,
    {
        Ok(standing)
    }
}
