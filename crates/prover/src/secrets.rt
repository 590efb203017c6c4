// The secret words of a comparator.
ghost use Rattle.std.specs.Prelude.{◌≡◌, ℕ, length, MatchResult, ◌≢◌};
ghost use Rattle.clearing.specs.Zeros.{zeros};
ghost use Rattle.prover.specs.Secrets.{secrets_meaning, secrets_of};
ghost use Rattle.refusal.specs.Table.{refused_at};
ghost use Rattle.refusal.specs.declared.Reason.TheVariants.{UnfitLength};

use clearing::Clearing;
use group::Exponent;
use refusal::{Reason, Refusal};

// The exponents of both re-encryptings, those of both true commitments, and the answer and challenge of the
// branch that is simulated.
#[derive(Drop)]
pub struct Secrets<X> {
    pub r1: X,
    pub r2: X,
    pub equivalence: X,
    pub disjunction: X,
    pub answer: X,
    pub challenge: u64,
}

// Reads six words, which end as zeros; another number of words is refused, and they end as zeros too.
pub fn read_secrets<X: Exponent>(words: &mut [u64], place: usize) -> Result<Secrets<X>, Refusal>
    ensures read { MatchResult result
        (λ s. (length words.old ≡ 6) × (secrets_meaning X.Exponent.value s ≡ secrets_of X.Exponent.exponents words.old))
        (λ f. (length words.old ≢ 6) × (f ≡ refused_at UnfitLength place)) }
    ensures cleared { words.new ≡ zeros 0 words.old }
{
    let words = Clearing { places: words };
    if words.places.len() != 6 {
        return Err(Reason::UnfitLength.at(place));
    }
    Ok(Secrets {
        r1: X::from_word(words.places[0]),
        r2: X::from_word(words.places[1]),
        equivalence: X::from_word(words.places[2]),
        disjunction: X::from_word(words.places[3]),
        answer: X::from_word(words.places[4]),
        challenge: X::challenge(words.places[5]),
    })
}
