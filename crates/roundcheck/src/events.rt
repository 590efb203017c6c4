// The call on a board that a record says, with the codes of elements first and then with the elements. These are
// functions and no `From`: what they convert from and to are types of other crates.
ghost use Rattle.std.specs.Prelude.{◌≡◌, ℕ, MatchResult};
ghost use Rattle.board.specs.Calls.{event_meaning};
ghost use Rattle.roundfile.specs.Records.{content};
ghost use Rattle.roundcheck.specs.Events.{message_of, call_of, EventRead, Unread};

use board::events::Event;
use elgamal::Ciphertext;
use equivalence::proofs::{Branch, DisjunctiveProof, EquivalenceProof, Proofs};
use group::reading::read_number;
use group::{Exponent, Group};
use posting::comparison::Pair;
use prover::states::Message;
use refusal::Refusal;
use roundfile::parts::Comparator;
use roundfile::record::Record;

// The two branches' numbers.
fn branches_of(posted: Comparator) -> DisjunctiveProof<u32, u32>
    ensures { result ≡ (message_of posted).proofs.disjunction }
{
    DisjunctiveProof {
        first: Branch {
            commitment: posted.first_commitment,
            challenge: posted.first_challenge as u64,
            answer: posted.first_response,
        },
        second: Branch {
            commitment: posted.second_commitment,
            challenge: posted.second_challenge as u64,
            answer: posted.second_response,
        },
    }
}

// What a comparator's record posts.
fn message_of(posted: Comparator) -> Message<u32, u32>
    ensures { result ≡ message_of posted }
{
    let first = Ciphertext {
        alpha: posted.first_alpha,
        beta: posted.first_beta,
    };
    let second = Ciphertext {
        alpha: posted.second_alpha,
        beta: posted.second_beta,
    };
    let equivalence = EquivalenceProof {
        commitment: posted.product_commitment,
        answer: posted.product_response,
    };
    let disjunction = branches_of(posted);
    Message {
        outputs: Pair { first, second },
        proofs: Proofs {
            equivalence,
            disjunction,
        },
    }
}

// The call that a record says; none for an opening and for draws.
pub(crate) fn call_of(held: Record) -> Option<Event<u32, u32>>
    ensures { result ≡ call_of (content held.entry) }
{
    match held {
        Record::Post(part) => {
            let post = part.values();
            Some(Event::Post(Ciphertext {
                alpha: post.alpha,
                beta: post.beta,
            }))
        }
        Record::Comparator(part) => Some(Event::Step(message_of(part.values()))),
        Record::Close => Some(Event::Close),
        Record::Expel => Some(Event::Expel),
        Record::Opening(_) | Record::Draws(_) => None,
    }
}

// The call with the elements that its codes name; refused where one names none.
pub(crate) fn read_event<G: Group>(
    group: &G,
    codes: Event<u32, u32>,
    place: usize,
) -> Result<Event<G::Element, u32>, Refusal>
where
    G::Exponent: Exponent<Posted = u32>,
    ensures { MatchResult result (λ e. EventRead G.Group.operations G.Exponent.Exponent.number codes (event_meaning G.Group.point G.Exponent.Exponent.number e)) (Unread (EventRead G.Group.operations G.Exponent.Exponent.number codes) place) }
{
    let read = |code: u32| read_number(group, code, place);
    match codes {
        Event::Post(quote) => Ok(Event::Post(quote.try_map(&read)?)),
        Event::Close => Ok(Event::Close),
        Event::Step(message) => Ok(Event::Step(message.try_map(&read)?)),
        Event::Expel => Ok(Event::Expel),
    }
}
