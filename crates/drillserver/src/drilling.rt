// What a task is answered.
ghost use Rattle.drillserver.specs.Drilling.{IfDrilled, DrilledAsMade};
ghost use Rattle.drillserver.specs.Honest.{AnsweredHonestly};

use crate::answering::Maker;
use crate::comparing::make_comparison;
use crate::task::Task;
use drill::drilling::drill;
use drill::finding::Finding;
use group::Group;
use refusal::Failure;
use std::alloc::Global;

// Makes a comparator and its witnesses, and drills them. What an honest task is answered is its own order and
// exponents, unless two of its z are equal.
pub(crate) fn drill_task<G: Group>(
    heap: Global,
    g: &G,
    task: Task,
) -> Result<Finding<G::Exponent>, Failure>
    ensures drilled { IfDrilled G.Exponent.Exponent.value result (DrilledAsMade G.Group.operations G.Exponent.Exponent.exponents task) }
    ensures honest { IfDrilled G.Exponent.Exponent.value result (AnsweredHonestly G.Exponent.Exponent.exponents task) }
{
    let comparison = make_comparison(g, task);
    let maker = Maker {
        g,
        comparison,
        task,
    };
    let equivalence = maker.equivalence_witnesses(heap)?;
    let disjunction = maker.disjunctive_witnesses(heap)?;
    // That the group's order is its exponents' is why an honest task is accepted; no number is needed.
    let _ = g.order();
    Ok(drill(
        g,
        comparison,
        equivalence.as_slice(),
        disjunction.as_slice(),
    )?)
}
