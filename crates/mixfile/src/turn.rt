// A server's turn on a board, as records.
ghost use Rattle.std.specs.Prelude.{◌≡◌, ◌*◌, List, ◌++◌, Ok, length, MatchResult};
ghost use Rattle.std.specs.List.{flat_map};
ghost use Rattle.board.specs.Calls.{terms};
ghost use Rattle.board.specs.States.{view, state_map};
ghost use Rattle.elgamal.specs.Ciphertexts.{meaning};
ghost use Rattle.plan.specs.Plans.{Brings};
ghost use Rattle.prover.specs.States.{message_meaning};
ghost use Rattle.roundcheck.specs.Finishing.{IfRefused};
ghost use Rattle.roundfile.specs.Writing.{comparator_bytes};
ghost use Rattle.roundfile.specs.declared.parts.Comparator.{Comparator};
ghost use Rattle.mixfile.specs.Turns.{ends_turn, turn_begins, lengths_fit, Unready, Ready, TakenStep, StepRecord, Stopped, StoppedAt, Served, UnservedAt};

use crate::records::{message_codes, record_of};
use board::board::Board;
use board::board::call::call;
use board::board::serve::honest_step;
use board::events::Event;
use board::setup::Setup;
use board::verdict::{Standing, Verdict};
use group::{Exponent, Group};
use plan::{Plan, Setting};
use prover::states::Message;
use refusal::{Failure, Reason};
use roundcheck::finish::Finish;
use roundcheck::report::Line;
use source::Source;
use std::alloc::Global;

// How many bytes a comparator's record has, with all its fields.
const RECORD_BYTES: usize = 51;

// The longest file, in bytes.
const LONGEST: usize = 65536;

// Whether the next turn begins behind a line, where a turn has so many comparators and the round is not finished.
fn ends_turn(line: Line, count: usize) -> bool
    ensures { result ≡ ends_turn line count }
{
    match line {
        Line::Close | Line::Expel(_) => true,
        Line::Step(_, comparator, _) => comparator < count && comparator + 1 == count,
        Line::Round(_) | Line::Post(_, _) => false,
    }
}

// Whether a server's turn begins where a file ends that gave these lines and leaves the round standing so.
fn turn_begins(lines: &[Line], standing: Standing, count: usize) -> bool
    ensures { result ≡ turn_begins lines.now (Ok standing) count }
{
    match standing.verdict {
        Verdict::Unfinished => lines.last().is_some_and(|line| ends_turn(*line, count)),
        Verdict::Stands | Verdict::Void => false,
    }
}

// Whether there is an entry for each wire, and six words for each comparator.
fn lengths_fit<P: Plan>(plan: &P, permutation: usize, words: usize) -> bool
    ensures { result ≡ lengths_fit (P.Plan.width plan.now) (P.Plan.listing plan.now) permutation words }
{
    permutation == plan.wires() && words == 6 * plan.count()
}

// Judges a turn before its first step, and writes its settings into the lent places. The lines and the standing are no one
// struct: a report has an ending beside its lines, which may be a refusal, and no turn is judged after one.
fn judge_turn<P: Plan>(
    plan: &P,
    lines: &[Line],
    standing: Standing,
    permutation: &[usize],
    words: usize,
    settings: &mut [Setting],
) -> Result<(), Reason>
    requires { length settings.old ≡ length (P.Plan.listing plan.now) }
    ensures { MatchResult result
        (λ _. Ready (P.Plan.width plan.now) (P.Plan.listing plan.now) lines.now (Ok standing) permutation.now words × Brings (P.Plan.width plan.now) (P.Plan.listing plan.now) settings.new permutation.now)
        (Unready (P.Plan.width plan.now) (P.Plan.listing plan.now) lines.now (Ok standing) permutation.now words) }
{
    if !lengths_fit(plan, permutation.len(), words) {
        return Err(Reason::UnfitLength);
    }
    if !turn_begins(lines, standing, plan.count()) {
        return Err(Reason::WrongStage);
    }
    plan.route(permutation, settings)
        .map_err(|refusal| refusal.reason)
}

// Makes the honest step on the comparator that is next, and lets the board take it. Board, words and buffer are no one struct,
// here and below: each is lent anew for each step, and the contracts say of each by itself what it is afterwards.
fn take_step<G: Group, P: Plan, S: Source>(
    board: &mut Board<'_, G::Element>,
    setup: &Setup<'_, G, P, S>,
    setting: Setting,
    words: &mut [u64],
    buffer: &mut [u8],
) -> Result<Message<G::Element, u32>, Reason>
where
    G::Exponent: Exponent<Posted = u32>,
    ensures taken { MatchResult result (λ m. TakenStep (terms G.Group.operations G.Exponent.Exponent.exponents (S.Source.words setup.now.source.now) (G.Group.point board.old.key) (P.Plan.listing setup.now.plan.now)) G.Exponent.Exponent.number (state_map (meaning G.Group.point) (view board.old)) setting words.old (message_meaning G.Group.point G.Exponent.Exponent.number m) (state_map (meaning G.Group.point) (view board.new))) Stopped }
    ensures key { board.new.key ≡ board.old.key }
{
    let message = honest_step(board, setup, setting, words, buffer).map_err(
        |refusal| refusal.reason,
    )?;
    call(board, setup, Event::Step(message), buffer).map_err(|refusal| refusal.reason)?;
    Ok(message)
}

// The bytes of its record.
fn step_record<G: Group, P: Plan, S: Source>(
    board: &mut Board<'_, G::Element>,
    setup: &Setup<'_, G, P, S>,
    setting: Setting,
    words: &mut [u64],
    buffer: &mut [u8],
) -> Result<[u8; RECORD_BYTES], Reason>
where
    G::Exponent: Exponent<Posted = u32>,
    ensures posts { MatchResult result (λ bytes. StepRecord (terms G.Group.operations G.Exponent.Exponent.exponents (S.Source.words setup.now.source.now) (G.Group.point board.old.key) (P.Plan.listing setup.now.plan.now)) G.Exponent.Exponent.number (state_map (meaning G.Group.point) (view board.old)) setting words.old bytes (state_map (meaning G.Group.point) (view board.new))) Stopped }
    ensures key { board.new.key ≡ board.old.key }
{
    let message = take_step(board, setup, setting, words, buffer)?;
    let codes = message_codes(setup.group, message)?;
    let record = record_of(codes)?;
    let mut bytes = [0u8; RECORD_BYTES];
    record.write(&mut bytes).map_err(|refusal| refusal.reason)?;
    Ok(bytes)
}

// Adds the record of each comparator to the bytes; a refusal is at the place that the caller names.
fn add_records<G: Group, P: Plan, S: Source>(
    board: &mut Board<'_, G::Element>,
    setup: &Setup<'_, G, P, S>,
    settings: &[Setting],
    words: &mut [u64],
    buffer: &mut [u8],
    bytes: &mut Vec<u8>,
    place: usize,
) -> Result<(), Failure>
where
    G::Exponent: Exponent<Posted = u32>,
    requires { length words.old ≡ 6 * length settings.now }
    ensures { MatchResult result
        (λ _. (records : List Comparator) × (length records ≡ length settings.now) × (bytes.new.items ≡ bytes.old.items ++ flat_map comparator_bytes records))
        (λ failure. IfRefused failure (StoppedAt place)) }
{
    for (setting, own) in settings.iter().zip(words.chunks_exact_mut(6)) {
        let record = step_record(board, setup, *setting, own, buffer).map_err(|reason| reason.at(
            place,
        ))?;
        bytes.extend_from_slice(&record)?;
    }
    Ok(())
}

// What a turn is served on and by: the file, for each wire the one from which its item comes, and the secret words.
#[derive(Drop)]
pub(crate) struct Turn<'a> {
    pub(crate) file: &'a [u8],
    pub(crate) permutation: &'a [usize],
    pub(crate) words: &'a mut [u64],
}

// The file with the turn's records behind it, where its turn begins at the file's end.
impl Finish for Turn<'_> {
    type Answer = Vec<u8>;

    ghost answers = { λ turn n cs lines standing out. Served n cs lines (Ok standing) turn.file.now turn.permutation.now (length turn.words.now) out.items };

    ghost refuses = { λ turn n cs lines standing f. UnservedAt n cs lines (Ok standing) turn.file.now turn.permutation.now (length turn.words.now) f };

    fn finish<G: Group, P: Plan, S: Source>(
        self,
        heap: Global,
        board: &mut Board<'_, G::Element>,
        setup: &Setup<'_, G, P, S>,
        lines: &[Line],
        standing: Standing,
    ) -> Result<Vec<u8>, Failure>
    where
        G::Exponent: Exponent<Posted = u32>,
    {
        let Turn {
            file,
            permutation,
            words,
        } = self;
        let end = file.len();
        let mut settings = vec![in heap; Setting::Straight; setup.plan.count()]?;
        judge_turn(
            setup.plan,
            lines,
            standing,
            permutation,
            words.len(),
            settings.as_mut_slice(),
        )
        .map_err(|reason| reason.at(end))?;
        let mut buffer = vec![in heap; 0u8; 11 * G::WIDTH]?;
        let mut bytes = file.to_vec(heap)?;
        add_records(
            board,
            setup,
            settings.as_slice(),
            words,
            buffer.as_mut_slice(),
            &mut bytes,
            end,
        )?;
        if bytes.len() > LONGEST {
            return Err(Failure::Refused(Reason::NoRoundFile.at(end)));
        }
        Ok(bytes)
    }
}
