// An honest server's whole turn.
ghost use Rattle.std.specs.Prelude.{◌≡◌, ℕ, ◌+◌, ◌-◌, ◌*◌, ◌<◌, ◌≤◌, true, List, length, take, drop, is_ok, Some, MatchResult, ◌==◌, nat_le};
ghost use Rattle.clearing.specs.Zeros.{zeros};
ghost use Rattle.elgamal.specs.Ciphertexts.{meaning};
ghost use Rattle.prover.specs.declared.states.Message.{Message};
ghost use Rattle.equivalence.specs.Judgement.{both};
ghost use Rattle.posting.specs.Drawing.{buffer_fits};
ghost use Rattle.plan.specs.declared.Setting.TheVariants.{Straight};
ghost use Rattle.board.specs.Calls.{terms, is_turning, after_step};
ghost use Rattle.board.specs.Serving.{honest_step, turned, Serves};
ghost use Rattle.board.specs.States.{view, state_map};
ghost use Rattle.board.specs.declared.events.Stage.TheVariants.{Turning};

use super::Board;
use super::serve::prove_on;
use crate::events::Stage;
use crate::setup::Setup;
use clearing::Clearing;
use group::{Exponent, Group};
use plan::{Comparator, Plan, Setting};
use posting::drawing::buffer_fits;
use prover::states::Message;
use refusal::{Reason, Refusal};
use source::Source;

// Makes the honest step on a comparator, and writes its outputs. It is not checked: what an honest server makes is taken.
fn serve_step<G: Group, P: Plan, S: Source>(
    board: &mut Board<'_, G::Element>,
    setup: &Setup<'_, G, P, S>,
    on: Comparator,
    setting: Setting,
    mut words: [u64; 6],
    buffer: &mut [u8],
) -> Result<(), Refusal>
    requires first { on.first < length board.old.wires.now }
    requires second { on.second < length board.old.wires.now }
    requires next { board.old.next < length (P.Plan.listing setup.now.plan.now) }
    requires stage { board.old.stage ≡ Turning }
    requires buffer { 11 * G.Group.operations.width ≤ length buffer.old }
    requires reach { 4 * (length (P.Plan.listing setup.now.plan.now) * (board.old.server - 1) + board.old.next) + 3 < (S.Source.words setup.now.source.now).reach }
    ensures made { is_ok result ≡ true }
    ensures key { board.new.key ≡ board.old.key }
    ensures state { state_map (meaning G.Group.point) (view board.new) ≡ after_step (terms G.Group.operations G.Exponent.Exponent.exponents (S.Source.words setup.now.source.now) (G.Group.point board.old.key) (P.Plan.listing setup.now.plan.now)) (state_map (meaning G.Group.point) (view board.old)) (honest_step (terms G.Group.operations G.Exponent.Exponent.exponents (S.Source.words setup.now.source.now) (G.Group.point board.old.key) (P.Plan.listing setup.now.plan.now)) (state_map (meaning G.Group.point) (view board.old)) on setting words) (Some on) }
{
    let Message { outputs, proofs: _ } = prove_on(board, setup, on, setting, &mut words, buffer)?;
    let _ = board.write(on, outputs, setup.plan.count());
    Ok(())
}

// The six words of a comparator.
fn six_words(words: &[u64], k: usize) -> [u64; 6]
    requires { 6 * k + 6 ≤ length words.now }
    ensures { result ≡ take 6 (drop (6 * k) words.now) }
{
    let mut six = [0; 6];
    six.copy_from_slice(&words[6 * k..6 * k + 6]);
    six
}

// Makes the honest step on each comparator, from comparator 0 on.
fn serve_steps<G: Group, P: Plan, S: Source>(
    board: &mut Board<'_, G::Element>,
    setup: &Setup<'_, G, P, S>,
    settings: &[Setting],
    words: &[u64],
    buffer: &mut [u8],
) -> Result<(), Refusal>
    requires stage { board.old.stage ≡ Turning }
    requires next { board.old.next ≡ 0 }
    requires wide { length board.old.wires.now ≡ P.Plan.width setup.now.plan.now }
    requires settings { length settings.now ≡ length (P.Plan.listing setup.now.plan.now) }
    requires words { length words.now ≡ 6 * length (P.Plan.listing setup.now.plan.now) }
    requires buffer { 11 * G.Group.operations.width ≤ length buffer.old }
    requires reach { 4 * (length (P.Plan.listing setup.now.plan.now) * board.old.server) ≤ (S.Source.words setup.now.source.now).reach }
    ensures made { is_ok result ≡ true }
    ensures key { board.new.key ≡ board.old.key }
    ensures state { state_map (meaning G.Group.point) (view board.new) ≡ turned (terms G.Group.operations G.Exponent.Exponent.exponents (S.Source.words setup.now.source.now) (G.Group.point board.old.key) (P.Plan.listing setup.now.plan.now)) (P.Plan.listing setup.now.plan.now) settings.now words.now (state_map (meaning G.Group.point) (view board.old)) }
{
    for (k, setting) in settings.iter().enumerate() {
        let Some(on) = setup.plan.comparator(k) else {
            return Err(Reason::WrongStage.at(k));
        };
        let six = six_words(words, k);
        serve_step(board, setup, on, *setting, six, buffer)?;
    }
    Ok(())
}

// Whether the lent lists fit a turn: an entry for each wire, a place and six words for each comparator, and the
// posting buffer.
fn lengths_fit<G: Group, P: Plan>(
    plan: &P,
    permutation: usize,
    places: usize,
    words: usize,
    bytes: usize,
) -> bool
    ensures { result ≡ both (permutation == P.Plan.width plan.now) (both (places == length (P.Plan.listing plan.now)) (both (words == 6 * length (P.Plan.listing plan.now)) (buffer_fits G.Group.operations bytes))) }
{
    let count = plan.count();
    permutation == plan.wires() && places == count && words == 6 * count && buffer_fits::<G>(bytes)
}

// Whether a turn is at its comparator 0, on as many wires as the plan has.
fn is_at_start<E>(board: &Board<'_, E>, wires: usize) -> bool
    ensures { result ≡ both (is_turning board.now.stage) (both (board.now.next == 0) (length board.now.wires.now == wires)) }
{
    board.stage == Stage::Turning && board.next == 0 && board.wires.len() == wires
}

// Whether the source reaches through a server's turn.
fn reaches_through<P: Plan, S: Source>(plan: &P, source: &S, server: usize) -> bool
    requires { server ≤ 8 }
    ensures { result ≡ nat_le (4 * (length (P.Plan.listing plan.now) * server)) (S.Source.words source.now).reach }
{
    source.reach() >= 4 * (plan.count() * server) as u64
}

// Serves the present server's turn: an honest step on each comparator of the plan, along a route of the permutation.
// The board takes them as so many steps. Working places, secret words and posting buffer end as zeros.
pub fn serve<G: Group, P: Plan, S: Source>(
    board: &mut Board<'_, G::Element>,
    setup: &Setup<'_, G, P, S>,
    permutation: &[usize],
    settings: &mut [Setting],
    words: &mut [u64],
    buffer: &mut [u8],
) -> Result<usize, Refusal>
    ensures serves { (steps : List (Message G.Group.Point ℕ)) × Serves (terms G.Group.operations G.Exponent.Exponent.exponents (S.Source.words setup.now.source.now) (G.Group.point board.old.key) (P.Plan.listing setup.now.plan.now)) (P.Plan.width setup.now.plan.now) (state_map (meaning G.Group.point) (view board.old)) permutation.now (length settings.old) words.old (length buffer.old) steps result (state_map (meaning G.Group.point) (view board.new)) }
    ensures key { board.new.key ≡ board.old.key }
    ensures places_cleared { settings.new ≡ zeros Straight settings.old }
    ensures words_cleared { words.new ≡ zeros 0 words.old }
    ensures buffer_cleared { buffer.new ≡ zeros 0 buffer.old }
{
    let plan = setup.plan;
    let settings = Clearing { places: settings };
    let words = Clearing { places: words };
    let buffer = Clearing { places: buffer };
    let next = board.next;
    let places = settings.places.len();
    let bytes = buffer.places.len();
    if !lengths_fit::<G, P>(plan, permutation.len(), places, words.places.len(), bytes) {
        return Err(Reason::UnfitLength.at(next));
    }
    if !is_at_start(board, plan.wires()) {
        return Err(Reason::WrongStage.at(next));
    }
    // by `map_err` the refusal's place would go through a closure's contract, and the proof did not close
    if let Err(refusal) = plan.route(permutation, settings.places) {
        return Err(refusal.reason.at(next));
    }
    let server = board.server;
    if !reaches_through(plan, setup.source, server) {
        return Err(Reason::BeyondReach.at(next));
    }
    serve_steps(board, setup, settings.places, words.places, buffer.places)?;
    Ok(server)
}
