// The record of what an honest server posts for one comparator: codes in the place of elements.
ghost use Rattle.std.specs.Prelude.{◌≡◌, MatchResult};
ghost use Rattle.elgamal.specs.Ciphertexts.{meaning};
ghost use Rattle.equivalence.specs.Judgement.{branch_meaning, proofs_meaning};
ghost use Rattle.group.specs.Codes.{four_bytes};
ghost use Rattle.posting.specs.Comparison.{pair_meaning};
ghost use Rattle.prover.specs.States.{message_meaning};
ghost use Rattle.roundcheck.specs.Events.{message_of};
ghost use Rattle.mixfile.specs.Turns.{MessageRead, Stopped};

use elgamal::Ciphertext;
use equivalence::proofs::{Branch, DisjunctiveProof, EquivalenceProof, Proofs};
use group::codes::{FOUR_BYTES, read_four_bytes};
use group::{Exponent, Group};
use posting::comparison::Pair;
use prover::states::Message;
use refusal::Reason;
use roundfile::parts::Comparator;

// The number whose four bytes are an element's code; refused where codes have another width.
fn number_of<G: Group>(group: &G, element: G::Element) -> Result<u32, Reason>
    ensures { MatchResult result (λ n. G.Group.operations.code (G.Group.point element) ≡ four_bytes n) Stopped }
{
    let mut code = [0u8; FOUR_BYTES];
    group
        .write(element, &mut code)
        .map_err(|_| Reason::UnfitLength)?;
    read_four_bytes(&code).ok_or(Reason::UnfitLength)
}

// A message with codes in the place of its elements.
pub(crate) fn message_codes<G: Group>(
    group: &G,
    posted: Message<G::Element, u32>,
) -> Result<Message<u32, u32>, Reason>
where
    G::Exponent: Exponent<Posted = u32>,
    ensures { MatchResult result (λ codes. MessageRead G.Group.operations G.Exponent.Exponent.number codes (message_meaning G.Group.point G.Exponent.Exponent.number posted)) Stopped }
{
    posted.try_map(&|element| number_of(group, element))
}

// A challenge as a record's number; refused where it has more than 32 bits.
fn challenge_of(challenge: u64) -> Result<u32, Reason>
    ensures { MatchResult result (λ n. n ≡ challenge) Stopped }
{
    u32::try_from(challenge).map_err(|_| Reason::UnfitNumber)
}

// The record that posts these codes. It is no TryFrom: both types are other crates'.
pub(crate) fn record_of(codes: Message<u32, u32>) -> Result<Comparator, Reason>
    ensures { MatchResult result (λ c. message_of c ≡ codes) Stopped }
{
    let Message { outputs, proofs } = codes;
    let Pair { first, second } = outputs;
    let Proofs {
        equivalence,
        disjunction,
    } = proofs;
    let DisjunctiveProof {
        first: one,
        second: other,
    } = disjunction;
    let first_challenge = challenge_of(one.challenge)?;
    let second_challenge = challenge_of(other.challenge)?;
    Ok(Comparator {
        first_alpha: first.alpha,
        first_beta: first.beta,
        second_alpha: second.alpha,
        second_beta: second.beta,
        product_commitment: equivalence.commitment,
        product_response: equivalence.answer,
        first_commitment: one.commitment,
        second_commitment: other.commitment,
        first_challenge,
        second_challenge,
        first_response: one.answer,
        second_response: other.answer,
    })
}
