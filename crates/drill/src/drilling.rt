// The drill.
ghost use Rattle.std.specs.Prelude.{map};
ghost use Rattle.posting.specs.Comparison.{comparison_meaning};
ghost use Rattle.witness.specs.Witnesses.{equivalence_meaning, disjunctive_meaning};
ghost use Rattle.drill.specs.Findings.{drilled_meaning};
ghost use Rattle.drill.specs.Rule.{Drilled};
ghost use Rattle.drill.specs.Meaning.{Shown};

use crate::concluding::find;
use crate::finding::Finding;
use group::Group;
use posting::comparison::Comparison;
use refusal::Refusal;
use witness::examining::examine;
use witness::posted::{PostedDisjunctiveWitness, PostedEquivalenceWitness};

// Drills a comparator: three witnesses of its equivalence proof, five of its disjunctive one.
pub fn drill<G: Group>(
    g: &G,
    comparison: Comparison<G::Element>,
    equivalence: &[PostedEquivalenceWitness<G>],
    disjunction: &[PostedDisjunctiveWitness<G>],
) -> Result<Finding<G::Exponent>, Refusal>
    ensures drilled { Drilled G.Group.operations G.Exponent.Exponent.exponents (comparison_meaning G.Group.point comparison) (map (equivalence_meaning G.Group.point G.Exponent.Exponent.number) equivalence.now) (map (disjunctive_meaning G.Group.point G.Exponent.Exponent.number) disjunction.now) (drilled_meaning G.Exponent.Exponent.value result) }
    ensures shown { Shown G.Group.operations (comparison_meaning G.Group.point comparison) (drilled_meaning G.Exponent.Exponent.value result) }
{
    let examination = examine(g, comparison, equivalence, disjunction)?;
    // That the group's order is its exponents' makes what follows right; no number is needed.
    let _ = g.order();
    Ok(find(examination))
}
