// The stages of a board, the calls on it, and what a call that is taken answers.
use elgamal::Ciphertext;
use plan::Comparator;
use prover::states::Message;

#[derive(Clone, Copy, PartialEq, Eq)]
pub enum Stage {
    // quotes are posted
    Gathering,
    // the servers take their turns
    Turning,
    Finished,
}

// A call on a board. Exponents are numbers as they were posted.
#[derive(Clone, Copy)]
pub enum Event<E, N> {
    // a quote for the next wire
    Post(Ciphertext<E>),
    // every wire has its quote: the first server's turn begins
    Close,
    // the next comparator's outputs, with both proofs
    Step(Message<E, N>),
    // the present server is put out
    Expel,
}

// What was done by a call that was taken.
#[derive(Clone, Copy)]
pub enum Taken {
    // the wire
    Posted(usize),
    Closed,
    // the server, the comparator's number, and its wires
    Stepped(usize, usize, Comparator),
    // the server
    Expelled(usize),
}
