// Challenges drawn over posted elements. Prover and checker both draw by this one function, so that
// they meet the same challenge.
ghost use Rattle.std.specs.Prelude.{◌≡◌, ◌+◌, ◌*◌, ◌^◌, ◌<◌, ◌≤◌, true, length, nat_lt};
ghost use Rattle.clearing.specs.Zeros.{zeros};
ghost use Rattle.posting.specs.Commitments.{commitment_points};
ghost use Rattle.posting.specs.Comparison.{comparison_meaning, posted};
ghost use Rattle.posting.specs.Drawing.{buffer_fits, DrawnOver};
ghost use Rattle.posting.specs.Posting.{codes};
ghost use Rattle.source.specs.Words.{Drawn};

use crate::codes::CodeWriter;
use crate::comparison::Comparison;
use clearing::Clearing;
use group::Group;
use refusal::{Reason, Refusal};
use source::{Source, draw};

// What draws challenges: a group for the codes, a source for the words, and the place that a refusal names.
#[derive_where(Clone, Copy)]
pub struct Challenger<'a, G, S> {
    pub group: &'a G,
    pub source: &'a S,
    pub place: usize,
}

// What a challenge is drawn over beside the comparison: no commitment for a z, one for the
// equivalence proof's challenge, two for the disjunctive proof's. It is no slice, which could hold more of them than the
// posting buffer has room for.
#[derive(Clone, Copy)]
pub enum Commitments<E> {
    None,
    One(E),
    Two(E, E),
}

// Whether a posting buffer of so many bytes has room for eleven codes.
pub fn buffer_fits<G: Group>(bytes: usize) -> bool
    ensures { result ≡ buffer_fits G.Group.operations bytes }
{
    bytes >= 11 * G::WIDTH
}

impl<G: Group, S: Source> Challenger<'_, G, S> {
    // Whether the source reaches the four questions of a comparator, from `first` on.
    pub fn reaches(&self, first: u64) -> bool
        ensures is { result ≡ nat_lt (first + 3) (S.Source.words self.now.source.now).reach }
        ensures numbered { result ≡ true → first + 3 < 2 ^ 64 }
    {
        first.saturating_add(3) < self.source.reach()
    }

    // Draws within a buffer that fits. That it does stands in the `requires` of each function inside a check or a turn: a
    // type for it would pair the lent bytes with the group for this fact alone, and each of them would take it apart.
    fn draw_within(
        &self,
        comparison: Comparison<G::Element>,
        commitments: Commitments<G::Element>,
        question: u64,
        buffer: &mut [u8],
    ) -> Result<u64, Refusal>
        requires { 11 * G.Group.operations.width ≤ length buffer.old }
        ensures { Drawn (S.Source.words self.now.source.now) question (codes G.Group.operations (posted (comparison_meaning G.Group.point comparison) (commitment_points G.Group.point commitments))) self.now.place result }
    {
        let mut writer = CodeWriter::new(self.group, buffer);
        writer.comparison(comparison);
        writer.commitments(commitments);
        draw(self.source, question, writer.written(), self.place)
    }

    // The word drawn over the codes of a comparison and its commitments. The posting buffer, of eleven codes'
    // length or more, ends as zeros.
    pub fn draw_over(
        &self,
        comparison: Comparison<G::Element>,
        commitments: Commitments<G::Element>,
        question: u64,
        buffer: &mut [u8],
    ) -> Result<u64, Refusal>
        ensures drawn { DrawnOver G.Group.operations (S.Source.words self.now.source.now) (comparison_meaning G.Group.point comparison) (commitment_points G.Group.point commitments) question (length buffer.old) self.now.place result }
        ensures cleared { buffer.new ≡ zeros 0 buffer.old }
    {
        let buffer = Clearing { places: buffer };
        if !buffer_fits::<G>(buffer.places.len()) {
            return Err(Reason::UnfitLength.at(self.place));
        }
        self.draw_within(comparison, commitments, question, buffer.places)
    }
}
