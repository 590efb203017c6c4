// The board's two lists.
ghost use Rattle.std.specs.Prelude.{◌≡◌, ◌+◌, ◌<◌, ◌≤◌, length, replicate};
ghost use Rattle.board.specs.States.{view, kept_state, restored_state, advanced};

use super::Board;
use crate::events::Stage;
use elgamal::Ciphertext;

// The same item in each place. Not by the slice's `fill`: it requires that a clone cannot fail, which is not known of
// every `T: Copy`, so that the proof of that call does not close.
pub(crate) fn fill<T: Copy>(list: &mut [T], item: T)
    ensures { list.new ≡ replicate (length list.old) item }
{
    for place in list.iter_mut() {
        *place = item;
    }
}

impl<'a, E: Copy> Board<'a, E> {
    // The wires become the list that the next turn starts from. Each list is lent by a name of its own, since the proof
    // covers no copy between two lent fields.
    pub(crate) fn keep(&mut self)
        ensures state { view self.new ≡ kept_state (view self.old) }
        ensures key { self.new.key ≡ self.old.key }
    {
        let wires = &mut *self.wires;
        let start = &mut *self.start;
        start.copy_from_slice(wires);
    }

    // The wires become what they were when the turn started.
    pub(crate) fn restore(&mut self)
        ensures state { view self.new ≡ restored_state (view self.old) }
        ensures key { self.new.key ≡ self.old.key }
    {
        let start = &mut *self.start;
        let wires = &mut *self.wires;
        wires.copy_from_slice(start);
    }

    // The present turn is over: the next server begins, or the round is finished.
    pub(crate) fn advance(&mut self, completed: usize)
        requires { completed ≤ self.old.server }
        ensures state { view self.new ≡ advanced (view self.old) completed }
        ensures key { self.new.key ≡ self.old.key }
    {
        self.completed = completed;
        self.next = 0;
        if self.server == self.servers {
            self.stage = Stage::Finished;
        } else {
            self.stage = Stage::Turning;
            self.server += 1;
        }
    }
}
