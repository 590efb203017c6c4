// The states of an honest comparator: outputs made, committed, answered.
ghost use Rattle.std.specs.Prelude.{MatchResult};
ghost use Rattle.prover.specs.Mapping.{MessageMapped, MessageUnmapped};

use crate::secrets::Secrets;
use equivalence::proofs::Proofs;
use plan::Setting;
use posting::comparison::{Comparison, Pair};

pub mod making;

// The outputs are made, and nothing is committed yet.
pub struct OutputsMade<E, X> {
    comparison: Comparison<E>,
    setting: Setting,
    secrets: Secrets<X>,
}

// Committed to both proofs, at the first of four questions; an answer uses it up.
pub struct Committed<E, X> {
    made: OutputsMade<E, X>,
    question: u64,
    equivalence: E,
    first: E,
    second: E,
}

// Answered: what is posted for a comparator.
#[derive(Clone, Copy)]
pub struct Message<E, N> {
    pub outputs: Pair<E>,
    pub proofs: Proofs<E, N>,
}

impl<E: Drop, N: Drop> Message<E, N> {
    // The message whose elements a step makes of these, or what the step fails with.
    pub fn try_map<T: Drop, R, F: Fn(E) -> Result<T, R>>(self, step: &F) -> Result<Message<T, N>, R>
        requires { F.IsAlwaysCallable step.now }
        ensures { MatchResult result (MessageMapped (F.post step.now) self) (MessageUnmapped (F.post step.now) self) }
    {
        let Message { outputs, proofs } = self;
        Ok(Message {
            outputs: outputs.try_map(step)?,
            proofs: proofs.try_map(step)?,
        })
    }
}
