// Reading what was posted: codes of elements, exponents and challenges. What is unfit is refused
// at the place that the caller names.
ghost use Rattle.std.specs.Prelude.{◌≡◌, ◌^◌, ◌<◌, ◌≤◌, MatchResult, ◌≢◌};
ghost use Rattle.group.specs.Codes.{four_bytes};
ghost use Rattle.refusal.specs.Table.{refused_at};
ghost use Rattle.refusal.specs.declared.Reason.TheVariants.{NoElement, UnfitNumber};

use crate::{Exponent, Group};
use refusal::{Reason, Refusal};

// The element that has this code.
pub fn read_element<G: Group>(g: &G, code: &[u8], place: usize) -> Result<G::Element, Refusal>
    ensures { MatchResult result (λ e. G.Group.operations.code (G.Group.point e) ≡ code.now) (λ f. (f ≡ refused_at NoElement place) × ((x : G.Group.Point) → G.Group.operations.code x ≢ code.now)) }
{
    g.read(code).ok_or(Reason::NoElement.at(place))
}

// The element whose code is the number in four bytes.
pub fn read_number<G: Group>(g: &G, number: u32, place: usize) -> Result<G::Element, Refusal>
    ensures { MatchResult result (λ e. G.Group.operations.code (G.Group.point e) ≡ four_bytes number) (λ f. (f ≡ refused_at NoElement place) × ((x : G.Group.Point) → G.Group.operations.code x ≢ four_bytes number)) }
{
    read_element(g, &number.to_be_bytes(), place)
}

// The exponent that was posted: taken exactly where it is below the order.
pub fn read_exponent<E: Exponent>(posted: E::Posted, place: usize) -> Result<E, Refusal>
    ensures { MatchResult result (λ e. E.Exponent.value e ≡ E.Exponent.number posted) (λ f. (f ≡ refused_at UnfitNumber place) × (E.Exponent.exponents.order ≤ E.Exponent.number posted)) }
{
    E::read(posted).ok_or(Reason::UnfitNumber.at(place))
}

// The challenge that was posted: taken exactly where it has no more bits than a challenge.
pub fn read_challenge<E: Exponent>(posted: u64, place: usize) -> Result<u64, Refusal>
    ensures { MatchResult result (λ c. (c ≡ posted) × (posted < 2 ^ E.Exponent.exponents.challenge_bits)) (λ f. (f ≡ refused_at UnfitNumber place) × (2 ^ E.Exponent.exponents.challenge_bits ≤ posted)) }
{
    if E::challenge(posted) == posted {
        Ok(posted)
    } else {
        Err(Reason::UnfitNumber.at(place))
    }
}
