// The calls on a board.
ghost use Rattle.std.specs.Prelude.{◌≡◌, ◌+◌, ◌-◌, ◌*◌, ◌<◌, ◌≤◌, length, MatchResult};
ghost use Rattle.clearing.specs.Zeros.{zeros};
ghost use Rattle.elgamal.specs.Ciphertexts.{meaning};
ghost use Rattle.board.specs.Calls.{Terms, event_meaning, Happens};
ghost use Rattle.board.specs.States.{view, state_map, posted_state, closed_state, stepped_state, expelled_state};
ghost use Rattle.board.specs.declared.events.Taken.TheVariants.{Posted, Closed, Stepped, Expelled};
ghost use Rattle.board.specs.declared.events.Stage.TheVariants.{Gathering, Turning};
ghost use Rattle.refusal.specs.Table.{refused_at};
ghost use Rattle.refusal.specs.declared.Reason.TheVariants.{BoardFull, BoardShort};

use super::Board;
use crate::events::{Event, Stage, Taken};
use elgamal::Ciphertext;
use plan::Comparator;
use posting::comparison::Pair;
use refusal::{Reason, Refusal};

impl<'a, E: Copy> Board<'a, E> {
    pub(crate) fn post(&mut self, quote: Ciphertext<E>) -> Result<Taken, Refusal>
        ensures key { self.new.key ≡ self.old.key }
        ensures outcome { MatchResult result
            (λ t. (self.old.posted < length self.old.wires.now) × (t ≡ Posted self.old.posted) × (view self.new ≡ posted_state (view self.old) quote))
            (λ f. (self.old.posted ≡ length self.old.wires.now) × (f ≡ refused_at BoardFull self.old.next) × (view self.new ≡ view self.old)) }
    {
        let wire = self.posted;
        if wire == self.wires.len() {
            return Err(Reason::BoardFull.at(self.next));
        }
        self.wires[wire] = quote;
        self.posted = wire + 1;
        Ok(Taken::Posted(wire))
    }

    pub(crate) fn close(&mut self) -> Result<Taken, Refusal>
        requires { self.old.stage ≡ Gathering }
        ensures key { self.new.key ≡ self.old.key }
        ensures outcome { MatchResult result
            (λ t. (self.old.posted ≡ length self.old.wires.now) × (t ≡ Closed) × (view self.new ≡ closed_state (view self.old)))
            (λ f. (self.old.posted < length self.old.wires.now) × (f ≡ refused_at BoardShort self.old.next) × (view self.new ≡ view self.old)) }
    {
        if self.posted < self.wires.len() {
            return Err(Reason::BoardShort.at(self.next));
        }
        self.keep();
        self.stage = Stage::Turning;
        self.server = 1;
        self.next = 0;
        Ok(Taken::Closed)
    }

    pub(crate) fn expel(&mut self) -> Taken
        ensures answer { result ≡ Expelled self.old.server }
        ensures key { self.new.key ≡ self.old.key }
        ensures state { view self.new ≡ expelled_state (view self.old) }
    {
        let server = self.server;
        self.restore();
        self.advance(self.completed);
        Taken::Expelled(server)
    }

    // Writes a step's outputs to the comparator's wires; after the last comparator the server is completed.
    pub(crate) fn write(&mut self, on: Comparator, outputs: Pair<E>, count: usize) -> Taken
        requires first { on.first < length self.old.wires.now }
        requires second { on.second < length self.old.wires.now }
        requires next { self.old.next < count }
        requires few { count ≤ 4096 }
        requires stage { self.old.stage ≡ Turning }
        ensures answer { result ≡ Stepped self.old.server self.old.next on }
        ensures key { self.new.key ≡ self.old.key }
        ensures state { view self.new ≡ stepped_state count (view self.old) on.first on.second outputs.first outputs.second }
    {
        let server = self.server;
        let comparator = self.next;
        let Pair { first, second } = outputs;
        self.wires[on.first] = first;
        self.wires[on.second] = second;
        self.next = comparator + 1;
        if self.next == count {
            self.keep();
            self.advance(self.completed + 1);
        }
        Taken::Stepped(server, comparator, on)
    }
}
