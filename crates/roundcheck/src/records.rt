// The records of a round, run on a board.
ghost use Rattle.std.specs.Prelude.{◌≡◌, ◌*◌, length, IfOk};
ghost use Rattle.board.specs.Calls.{terms};
ghost use Rattle.board.specs.States.{view, state_map};
ghost use Rattle.elgamal.specs.Ciphertexts.{meaning};
ghost use Rattle.roundfile.specs.Reading.{place};
ghost use Rattle.roundfile.specs.Records.{content};
ghost use Rattle.roundcheck.specs.Finishing.{Behind, EndsBy};
ghost use Rattle.roundcheck.specs.Runs.{post_in, line_of, found_in, Judges, Runs};

use crate::events::{call_of, read_event};
use crate::report::{Line, Report};
use board::board::Board;
use board::board::call::call;
use board::events::Taken;
use board::setup::Setup;
use board::verdict::Standing;
use group::{Exponent, Group};
use law::judge_round;
use plan::Plan;
use refusal::{Failure, Reason, Refusal};
use roundfile::parts::Post;
use roundfile::reader::{Entry, Reader};
use roundfile::record::Record;
use source::Source;
use std::alloc::{AllocError, Global};

// The codes that a post has; 1 and 1 in any other record.
fn post_in(held: Record) -> Post
    ensures { result ≡ post_in (content held.entry) }
{
    match held {
        Record::Post(part) => part.values(),
        _ => Post { alpha: 1, beta: 1 },
    }
}

// The line of a record that the board took.
fn line_of(held: Record, taken: Taken) -> Line
    ensures { result ≡ line_of (content held.entry) taken }
{
    match taken {
        Taken::Posted(wire) => Line::Post(wire, post_in(held)),
        Taken::Closed => Line::Close,
        Taken::Stepped(server, next, on) => Line::Step(server, next, on),
        Taken::Expelled(server) => Line::Expel(server),
    }
}

// Judges a record as a call on the board: its codes, and then the call. A refusal carries the record's offset.
fn judge_record<G: Group, P: Plan, S: Source>(
    board: &mut Board<'_, G::Element>,
    setup: &Setup<'_, G, P, S>,
    entry: Entry,
    buffer: &mut [u8],
) -> Result<Line, Refusal>
where
    G::Exponent: Exponent<Posted = u32>,
    requires { length buffer.old ≡ 11 * G.Group.operations.width }
    ensures judged { Judges (terms G.Group.operations G.Exponent.Exponent.exponents (S.Source.words setup.now.source.now) (G.Group.point board.old.key) (P.Plan.listing setup.now.plan.now)) G.Exponent.Exponent.number (state_map (meaning G.Group.point) (view board.old)) (found_in entry.entry) result (state_map (meaning G.Group.point) (view board.new)) }
    ensures key { board.new.key ≡ board.old.key }
{
    let Entry { offset, record } = entry;
    let codes = call_of(record).ok_or(Reason::MisplacedRecord.at(offset))?;
    let event = read_event(setup.group, codes, offset)?;
    let taken = call(board, setup, event, buffer).map_err(|refusal| refusal.reason.at(offset))?;
    Ok(line_of(record, taken))
}

// Runs the records from the reader's place on, and adds a line for each that is taken. Board and lines are no one struct, here
// and in what calls this: both are lent, and the contracts say of each by itself what it is afterwards.
fn run_records<G: Group, P: Plan, S: Source>(
    board: &mut Board<'_, G::Element>,
    setup: &Setup<'_, G, P, S>,
    mut reader: Reader,
    buffer: &mut [u8],
    lines: &mut Vec<Line>,
) -> Result<Standing, Failure>
where
    G::Exponent: Exponent<Posted = u32>,
    requires { length buffer.old ≡ 11 * G.Group.operations.width }
    ensures { EndsBy result (Behind lines.old.items (Runs (terms G.Group.operations G.Exponent.Exponent.exponents (S.Source.words setup.now.source.now) (G.Group.point board.old.key) (P.Plan.listing setup.now.plan.now)) G.Exponent.Exponent.number (place reader.entry) (state_map (meaning G.Group.point) (view board.old))) lines.new.items) }
{
    while let Some(entry) = reader.next_record()? {
        let line = judge_record(board, setup, entry, buffer)?;
        lines.push(line)?;
    }
    Ok(judge_round(board, setup))
}

// The same, with a posting buffer of its own.
pub(crate) fn run_behind<G: Group, P: Plan, S: Source>(
    heap: Global,
    board: &mut Board<'_, G::Element>,
    setup: &Setup<'_, G, P, S>,
    reader: Reader,
    lines: &mut Vec<Line>,
) -> Result<Standing, Failure>
where
    G::Exponent: Exponent<Posted = u32>,
    ensures { EndsBy result (Behind lines.old.items (Runs (terms G.Group.operations G.Exponent.Exponent.exponents (S.Source.words setup.now.source.now) (G.Group.point board.old.key) (P.Plan.listing setup.now.plan.now)) G.Exponent.Exponent.number (place reader.entry) (state_map (meaning G.Group.point) (view board.old))) lines.new.items) }
{
    let mut buffer = vec![in heap; 0u8; 11 * G::WIDTH]?;
    run_records(board, setup, reader, buffer.as_mut_slice(), lines)
}

// A report of the records from the reader's place on, behind the lines before them. A record that is refused is no refusal of
// this call: it is the report's ending, and the board stands as the records before it left it.
pub fn run_round<G: Group, P: Plan, S: Source>(
    heap: Global,
    board: &mut Board<'_, G::Element>,
    setup: &Setup<'_, G, P, S>,
    reader: Reader,
    mut lines: Vec<Line>,
) -> Result<Report, AllocError>
where
    G::Exponent: Exponent<Posted = u32>,
    ensures { IfOk result (λ report. Behind lines.items (Runs (terms G.Group.operations G.Exponent.Exponent.exponents (S.Source.words setup.now.source.now) (G.Group.point board.old.key) (P.Plan.listing setup.now.plan.now)) G.Exponent.Exponent.number (place reader.entry) (state_map (meaning G.Group.point) (view board.old))) report.lines.items report.ending) }
{
    let ended = run_behind(heap, board, setup, reader, &mut lines);
    Report::of(lines, ended)
}
