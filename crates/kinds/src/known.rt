// The one place that knows which plan a kind means.
ghost use Rattle.std.specs.Prelude.{MatchResult};
ghost use Rattle.kinds.specs.Kinds.{Unlaid};
ghost use Rattle.kinds.specs.Known.{width_of, listing_of, known_lawful, IsOfKind};

use crate::PlanKind;
use butterfly::Butterfly;
use chain::Chain;
use plan::{Comparator, Plan, Setting};
use refusal::Refusal;

// A plan of one of the kinds.
#[derive(Clone, Copy)]
pub enum KnownPlan {
    Chain(Chain),
    Butterfly(Butterfly),
}

impl KnownPlan {
    // The plan of this kind over so many wires.
    pub fn new(kind: PlanKind, wires: usize) -> Result<KnownPlan, Refusal>
        ensures { MatchResult result (IsOfKind kind wires) (Unlaid kind wires) }
    {
        Ok(match kind {
            PlanKind::Chain => KnownPlan::Chain(Chain::new(wires)?),
            PlanKind::Butterfly => KnownPlan::Butterfly(Butterfly::new(wires)?),
        })
    }
}

impl Plan for KnownPlan {
    ghost width = { width_of };

    ghost listing = { listing_of };

    ghost lawful = { known_lawful };

    fn wires(&self) -> usize {
        match self {
            KnownPlan::Chain(chain) => chain.wires(),
            KnownPlan::Butterfly(butterfly) => butterfly.wires(),
        }
    }

    fn count(&self) -> usize {
        match self {
            KnownPlan::Chain(chain) => chain.count(),
            KnownPlan::Butterfly(butterfly) => butterfly.count(),
        }
    }

    fn comparator(&self, k: usize) -> Option<Comparator> {
        match self {
            KnownPlan::Chain(chain) => chain.comparator(k),
            KnownPlan::Butterfly(butterfly) => butterfly.comparator(k),
        }
    }

    fn route(&self, permutation: &[usize], settings: &mut [Setting]) -> Result<(), Refusal> {
        match self {
            KnownPlan::Chain(chain) => chain.route(permutation, settings),
            KnownPlan::Butterfly(butterfly) => butterfly.route(permutation, settings),
        }
    }
}
