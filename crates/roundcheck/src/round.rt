// One round, from its opening on, over any group and plan.
ghost use Rattle.std.specs.Prelude.{◌≡◌, ℕ, List, replicate, IfOk, MatchResult};
ghost use Rattle.board.specs.Calls.{terms};
ghost use Rattle.board.specs.States.{view, state_map};
ghost use Rattle.elgamal.specs.Ciphertexts.{meaning};
ghost use Rattle.kinds.specs.Kinds.{plan_kind};
ghost use Rattle.roundfile.specs.Reading.{place, step};
ghost use Rattle.roundcheck.specs.Checks.{Checks, ChecksFirst, ChecksRound, ChecksPlan, KeyRead, KeyUnread, next_draws};
ghost use Rattle.roundcheck.specs.Finishing.{OpeningPlan, FilePlan, Behind, FinishedBy, EndedBy};

use crate::finish::Finish;
use crate::records::run_behind;
use crate::report::{Finished, Line};
use crate::wanted::{next_draws, next_opening, words_of};
use board::board::Board;
use board::board::round::{open, servers_fit};
use board::setup::Setup;
use elgamal::Ciphertext;
use group::reading::read_number;
use group::{Exponent, Group};
use kinds::{GroupKind, KnownPlan, PlanKind};
use modular::modulo23::RESIDUES_MODULO_23;
use plan::Plan;
use polynomial::Polynomials;
use refusal::{Failure, Reason, Refusal};
use roundfile::parts::Opening;
use roundfile::reader::Reader;
use source::{Joint, Tape};
use std::alloc::{AllocError, Global};

// A file whose opening was read: the opening with its offset, and what is still to be read.
#[derive(Clone, Copy)]
struct OpenedFile<'a> {
    offset: usize,
    opening: Opening,
    reader: Reader<'a>,
}

// Reads both draws, runs the records behind them on their joint source, and then does what is to be done.
fn finish_drawn<G: Group, P: Plan, F: Finish>(
    heap: Global,
    board: &mut Board<'_, G::Element>,
    group: &G,
    plan: &P,
    mut reader: Reader,
    lines: &mut Vec<Line>,
    end: F,
) -> Result<F::Answer, Failure>
where
    G::Exponent: Exponent<Posted = u32>,
    ensures { FinishedBy (Behind lines.old.items (ChecksFirst G.Exponent.Exponent.number (λ S. terms G.Group.operations G.Exponent.Exponent.exponents S (G.Group.point board.old.key) (P.Plan.listing plan.now)) (state_map (meaning G.Group.point) (view board.old)) (next_draws (step (place reader.entry)))))
        (λ n cs. (n ≡ P.Plan.width plan.now) × (cs ≡ P.Plan.listing plan.now)) (F.answers end) (F.refuses end) lines.new.items result }
{
    let first = next_draws(&mut reader)?;
    let second = next_draws(&mut reader)?;
    let first = words_of(heap, first)?;
    let second = words_of(heap, second)?;
    let source = Joint {
        first: Tape {
            words: first.as_slice(),
        },
        second: Tape {
            words: second.as_slice(),
        },
    };
    let setup = Setup {
        group,
        plan,
        source: &source,
    };
    let standing = run_behind(heap, board, &setup, reader, lines)?;
    end.finish(heap, board, &setup, lines.as_slice(), standing)
}

// The opening's key, once its servers are judged.
pub fn read_key<G: Group>(group: &G, opening: Opening, offset: usize) -> Result<G::Element, Refusal>
    ensures { MatchResult result (λ y. KeyRead G.Group.operations opening (G.Group.point y)) (KeyUnread G.Group.operations opening offset) }
{
    if !servers_fit(opening.servers as usize) {
        return Err(Reason::UnfitServers.at(offset));
    }
    read_number(group, opening.key, offset)
}

// A list with the same item in each place.
pub fn repeated<T: Copy>(heap: Global, item: T, count: usize) -> Result<Vec<T>, AllocError>
    ensures { IfOk result (λ list. list.items ≡ replicate count item) }
{
    let mut list = Vec::new(heap);
    list.resize(count, item)?;
    Ok(list)
}

impl<'a> OpenedFile<'a> {
    // Opens a board on a plan, and goes on with what is behind the opening. Heap, lines and end are handed on from function to
    // function and not as one struct: the lines are lent, and the contracts say of them what they are afterwards.
    fn finish_on<G: Group, P: Plan, F: Finish>(
        self,
        heap: Global,
        group: &G,
        plan: &P,
        lines: &mut Vec<Line>,
        end: F,
    ) -> Result<F::Answer, Failure>
    where
        G::Exponent: Exponent<Posted = u32>,
        ensures { FinishedBy (Behind lines.old.items (ChecksRound G.Group.operations G.Exponent.Exponent.exponents G.Exponent.Exponent.number (P.Plan.width plan.now) (P.Plan.listing plan.now) self.entry.offset self.entry.opening (place self.entry.reader)))
            (λ n cs. (n ≡ P.Plan.width plan.now) × (cs ≡ P.Plan.listing plan.now)) (F.answers end) (F.refuses end) lines.new.items result }
    {
        let OpenedFile {
            offset,
            opening,
            reader,
        } = self;
        let key = read_key(group, opening, offset)?;
        let one = group.one();
        let item = Ciphertext {
            alpha: one,
            beta: one,
        };
        let mut wires = repeated(heap, item, plan.wires())?;
        let mut start = repeated(heap, item, plan.wires())?;
        let mut board = open(
            group,
            plan,
            key,
            opening.servers as usize,
            wires.as_mut_slice(),
            start.as_mut_slice(),
        )
        .map_err(|refusal| refusal.reason.at(offset))?;
        lines.push(Line::Round(opening))?;
        finish_drawn(heap, &mut board, group, plan, reader, lines, end)
    }

    // Goes on with the plan that the opening names.
    fn finish_in<G: Group, F: Finish>(
        self,
        heap: Global,
        group: &G,
        lines: &mut Vec<Line>,
        end: F,
    ) -> Result<F::Answer, Failure>
    where
        G::Exponent: Exponent<Posted = u32>,
        ensures { FinishedBy (Behind lines.old.items (ChecksPlan G.Group.operations G.Exponent.Exponent.exponents G.Exponent.Exponent.number (plan_kind self.entry.opening.plan) self.entry.offset self.entry.opening (place self.entry.reader)))
            (OpeningPlan self.entry.opening) (F.answers end) (F.refuses end) lines.new.items result }
    {
        let OpenedFile {
            offset,
            opening,
            ..
        } = self;
        let kind = PlanKind::try_from(opening.plan as u64).map_err(|reason| reason.at(offset))?;
        let plan = KnownPlan::new(kind, opening.wires as usize).map_err(|refusal| refusal
            .reason
            .at(offset))?;
        self.finish_on(heap, group, &plan, lines, end)
    }
}

// Runs a file's records on a board, adds a line for each that is taken, and does at the end what is to be done there.
fn finish_behind<F: Finish>(
    heap: Global,
    file: &[u8],
    lines: &mut Vec<Line>,
    end: F,
) -> Result<F::Answer, Failure>
    ensures { FinishedBy (Behind lines.old.items (Checks file.now)) (FilePlan file.now) (F.answers end) (F.refuses end) lines.new.items result }
{
    let mut reader = Reader::new(file)?;
    let (offset, opening) = next_opening(&mut reader)?;
    let opened = OpenedFile {
        offset,
        opening,
        reader,
    };
    // a group is a type, with an element type of its own: no closure takes a function over types
    match GroupKind::try_from(opening.group as u64).map_err(|reason| reason.at(offset))? {
        GroupKind::ResiduesModulo23 => opened.finish_in(heap, &RESIDUES_MODULO_23, lines, end),
        GroupKind::BinaryPolynomials => opened.finish_in(heap, &Polynomials, lines, end),
    }
}

// What comes of a file, behind the lines before it: its records run on a board, and at its end done what is to be done there. A
// file that is refused is no refusal of this call: that is the ending, behind the lines of the records that were taken.
pub fn finish_file<F: Finish>(
    heap: Global,
    file: &[u8],
    mut lines: Vec<Line>,
    end: F,
) -> Result<Finished<F::Answer>, AllocError>
    ensures { IfOk result (λ finished. EndedBy (Behind lines.items (Checks file.now)) (FilePlan file.now) (F.answers end) (F.refuses end) finished.lines.items finished.ending) }
{
    let ended = finish_behind(heap, file, &mut lines, end);
    Finished::of(lines, ended)
}
