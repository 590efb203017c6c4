// Codes written one after another into the posting buffer.
ghost use Rattle.std.specs.Prelude.{◌≡◌, ◌+◌, ◌*◌, ◌≤◌, [], ◌∷◌, length, take};
ghost use Rattle.elgamal.specs.Ciphertexts.{meaning};
ghost use Rattle.posting.specs.Comparison.{pair_meaning, comparison_meaning, ciphertext_points, pair_points, posted};
ghost use Rattle.posting.specs.Commitments.{commitment_points};
ghost use Rattle.posting.specs.Posting.{Appended};

use crate::comparison::{Comparison, Pair};
use crate::drawing::Commitments;
use elgamal::Ciphertext;
use group::Group;

// A posting buffer, and how far it is written.
#[derive(Drop)]
pub(crate) struct CodeWriter<'a, G> {
    group: &'a G,
    buffer: &'a mut [u8],
    end: usize,
    ghost within: { end ≤ length buffer.now },
}

impl<'a, G: Group> CodeWriter<'a, G> {
    // A writer at the buffer's front.
    pub(crate) fn new(group: &'a G, buffer: &'a mut [u8]) -> CodeWriter<'a, G>
        ensures { (result.end ≡ 0) × (result.buffer.now ≡ buffer.entry.now) }
    {
        CodeWriter {
            group,
            buffer,
            end: 0,
        }
    }

    // What was written so far.
    pub(crate) fn written(&self) -> &[u8]
        ensures { result.now ≡ take self.now.end self.now.buffer.now }
    {
        &self.buffer[..self.end]
    }

    fn element(&mut self, element: G::Element)
        requires { self.old.end + G.Group.operations.width ≤ length self.old.buffer.now }
        ensures codes { Appended G.Group.operations (G.Group.point element ∷ []) self.old.end self.new.end self.old.buffer.now self.new.buffer.now }
        ensures long { length self.new.buffer.now ≡ length self.old.buffer.now }
    {
        let end = self.end + G::WIDTH;
        let _ = self.group.write(element, &mut self.buffer[self.end..end]);
        self.end = end;
    }

    fn ciphertext(&mut self, c: Ciphertext<G::Element>)
        requires { self.old.end + 2 * G.Group.operations.width ≤ length self.old.buffer.now }
        ensures codes { Appended G.Group.operations (ciphertext_points (meaning G.Group.point c)) self.old.end self.new.end self.old.buffer.now self.new.buffer.now }
        ensures long { length self.new.buffer.now ≡ length self.old.buffer.now }
    {
        self.element(c.alpha);
        self.element(c.beta);
    }

    fn pair(&mut self, pair: Pair<G::Element>)
        requires { self.old.end + 4 * G.Group.operations.width ≤ length self.old.buffer.now }
        ensures codes { Appended G.Group.operations (pair_points (pair_meaning G.Group.point pair)) self.old.end self.new.end self.old.buffer.now self.new.buffer.now }
        ensures long { length self.new.buffer.now ≡ length self.old.buffer.now }
    {
        self.ciphertext(pair.first);
        self.ciphertext(pair.second);
    }

    // The codes of the key, inputs and outputs.
    pub(crate) fn comparison(&mut self, comparison: Comparison<G::Element>)
        requires { self.old.end + 9 * G.Group.operations.width ≤ length self.old.buffer.now }
        ensures codes { Appended G.Group.operations (posted (comparison_meaning G.Group.point comparison) []) self.old.end self.new.end self.old.buffer.now self.new.buffer.now }
        ensures long { length self.new.buffer.now ≡ length self.old.buffer.now }
    {
        self.element(comparison.key);
        self.pair(comparison.inputs);
        self.pair(comparison.outputs);
    }

    pub(crate) fn commitments(&mut self, commitments: Commitments<G::Element>)
        requires { self.old.end + 2 * G.Group.operations.width ≤ length self.old.buffer.now }
        ensures { Appended G.Group.operations (commitment_points G.Group.point commitments) self.old.end self.new.end self.old.buffer.now self.new.buffer.now }
    {
        match commitments {
            Commitments::None => {}
            Commitments::One(w) => self.element(w),
            Commitments::Two(w1, w2) => {
                self.element(w1);
                self.element(w2);
            }
        }
    }
}
