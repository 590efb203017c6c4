// A round of one server whose turn is served. Everything follows from the numbers of the line.
use board::board::Board;
use board::board::call::call;
use board::board::round::open;
use board::board::turn::serve;
use board::events::Event;
use board::setup::Setup;
use elgamal::{Ciphertext, decrypt, encrypt};
use group::{Exponent, Group};
use kinds::{KnownPlan, PlanKind};
use plan::{Plan, Setting};
use refusal::{Failure, Reason, Refusal};
use source::{Source, Tape};
use std::alloc::{AllocError, Global};

#[derive(Clone, Copy)]
pub(crate) struct Round<'a> {
    pub private: u64,
    pub seed: u64,
    pub permutation: &'a [usize],
}

// So many words that look like chance. By a loop, since each is made of the one before.
fn words_from(heap: Global, seed: u64, count: usize) -> Result<Vec<u64>, AllocError> {
    let mut words = Vec::new(heap);
    let mut word = seed;
    for _ in 0..count {
        word = word
            .wrapping_mul(6364136223846793005)
            .wrapping_add(1442695040888963407);
        words.push(word)?;
    }
    Ok(words)
}

// Posts a quote for each wire, and closes.
fn post_all<G: Group, P: Plan, S: Source>(
    board: &mut Board<'_, G::Element>,
    setup: &Setup<'_, G, P, S>,
    key: G::Element,
    seed: u64,
) -> Result<(), Refusal> {
    let group = setup.group;
    for wire in 0..setup.plan.wires() {
        let quote = seed.wrapping_add(wire as u64);
        let message = group.raise_word(group.generator(), quote);
        let gamma = G::Exponent::from_word(quote.wrapping_add(7));
        let sealed = encrypt(group, key, message, gamma);
        call(board, setup, Event::Post(sealed), &mut [])?;
    }
    call(board, setup, Event::Close, &mut [])?;
    Ok(())
}

// So many ciphertexts, each of the one twice.
fn blank<G: Group>(
    heap: Global,
    group: &G,
    count: usize,
) -> Result<Vec<Ciphertext<G::Element>>, AllocError> {
    let one = group.one();
    let item = Ciphertext {
        alpha: one,
        beta: one,
    };
    vec![in heap; item; count]
}

// What the wires open to once the turn was served, on the plan of this number.
pub(crate) fn serve_on<G: Group>(
    heap: Global,
    group: &G,
    plan: u64,
    round: Round,
) -> Result<Vec<G::Element>, Failure> {
    let kind = PlanKind::try_from(plan).map_err(|reason| reason.at(0))?;
    let plan = KnownPlan::new(kind, round.permutation.len())?;
    let private = G::Exponent::from_word(round.private);
    let key = group.raise(group.generator(), private);
    let mut wires = blank(heap, group, plan.wires())?;
    let mut start = blank(heap, group, plan.wires())?;
    serve_lists(
        heap,
        group,
        &plan,
        round,
        key,
        wires.as_mut_slice(),
        start.as_mut_slice(),
    )?;
    Ok(
        wires
            .iter()
            .map(|sealed| decrypt(group, private, *sealed))
            .collect(heap)?,
    )
}

// Serves the turn on a board over these lists.
fn serve_lists<G: Group, P: Plan>(
    heap: Global,
    group: &G,
    plan: &P,
    round: Round,
    key: G::Element,
    wires: &mut [Ciphertext<G::Element>],
    start: &mut [Ciphertext<G::Element>],
) -> Result<(), Failure> {
    let count = plan.count();
    let tape = words_from(heap, round.seed, 4 * count)?;
    let setup = Setup {
        group,
        plan,
        source: &Tape {
            words: tape.as_slice(),
        },
    };
    let mut settings = vec![in heap; Setting::Straight; count]?;
    let mut words = words_from(heap, round.seed.wrapping_add(1), 6 * count)?;
    let mut buffer = vec![in heap; 0u8; 11 * G::WIDTH]?;
    let mut board = open(group, plan, key, 1, wires, start)?;
    post_all(&mut board, &setup, key, round.seed)?;
    serve(
        &mut board,
        &setup,
        round.permutation,
        settings.as_mut_slice(),
        words.as_mut_slice(),
        buffer.as_mut_slice(),
    )?;
    Ok(())
}
