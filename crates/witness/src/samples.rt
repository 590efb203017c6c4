// What witnesses show: at z, the exponent gamma.
ghost use Rattle.std.specs.Prelude.{◌≡◌, ℕ, List};
ghost use Rattle.std.specs.Iterator.{AlwaysYields};
ghost use Rattle.std.specs.Option.{option_map};
ghost use Rattle.group.specs.Exponents.{remainder, difference};
ghost use Rattle.witness.specs.Witnesses.{answer_meaning, disjunctive_meaning};
ghost use Rattle.witness.specs.Samples.{sample_meaning, samples_meaning, drawn_meaning, sample_on, gamma, drawn, three_of};
ghost use Rattle.witness.specs.declared.samples.Sample.{Sample};

use crate::posted::{Answer, Disjunction, Witness};
use group::Exponent;
use plan::Setting;

// A witness's z and gamma.
#[derive(Clone, Copy)]
pub struct Sample<X> {
    pub z: X,
    pub gamma: X,
}

// The samples of three witnesses.
#[derive(Clone, Copy)]
pub struct Samples<X> {
    pub first: Sample<X>,
    pub second: Sample<X>,
    pub third: Sample<X>,
}

// Three samples of one branch.
#[derive(Clone, Copy)]
pub struct Branch<X> {
    pub setting: Setting,
    pub samples: Samples<X>,
}

// All that the witnesses show: samples of the equivalence proof, and of one branch of the disjunctive one.
#[derive(Clone, Copy)]
pub struct Examination<X> {
    pub product: Samples<X>,
    pub branch: Branch<X>,
}

// What one disjunctive witness shows, and of which branch.
#[derive(Clone, Copy)]
pub struct Drawn<X> {
    pub setting: Setting,
    pub sample: Sample<X>,
}

impl<X: Copy> Drawn<X> {
    // The sample, where it is of this branch.
    pub(crate) fn on(self, setting: Setting) -> Option<Sample<X>>
        ensures { result ≡ sample_on setting self }
    {
        (self.setting == setting).then_some(self.sample)
    }
}

// The difference of two challenges, as an exponent.
fn challenge_difference<X: Exponent>(first: u64, second: u64) -> X
    ensures { X.Exponent.value result ≡ difference X.Exponent.exponents (remainder X.Exponent.exponents first) (remainder X.Exponent.exponents second) }
{
    X::from_word(first).subtract(X::from_word(second))
}

// The exponent that two answers to one commitment give: (s - s') / (c - c').
#[tactic(auto, unfolding(crate::specs::Samples::gamma))]
pub(crate) fn gamma_of<X: Exponent>(first: Answer<X>, second: Answer<X>) -> X
    ensures { X.Exponent.value result ≡ gamma X.Exponent.exponents (answer_meaning X.Exponent.value first) (answer_meaning X.Exponent.value second) }
{
    let above = first.exponent.subtract(second.exponent);
    let below = challenge_difference::<X>(first.challenge, second.challenge);
    above.multiply(below.invert())
}

// What a disjunctive witness shows: on the lowest branch whose challenges differ.
pub(crate) fn draw_of<E: Copy, X: Exponent>(witness: Witness<X, Disjunction<E, X>>) -> Drawn<X>
    ensures { drawn_meaning X.Exponent.value result ≡ drawn X.Exponent.exponents (disjunctive_meaning (λ e. e) X.Exponent.value witness) }
{
    let Witness { z, answered } = witness;
    let Disjunction {
        challenges: _,
        straight,
        swapped,
    } = answered;
    if straight.first.challenge != straight.second.challenge {
        let gamma = gamma_of(straight.first, straight.second);
        return Drawn {
            setting: Setting::Straight,
            sample: Sample { z, gamma },
        };
    }
    let gamma = gamma_of(swapped.first, swapped.second);
    Drawn {
        setting: Setting::Swapped,
        sample: Sample { z, gamma },
    }
}

// The first three samples, where there are three.
pub(crate) fn first_three<X: Exponent, I: Iterator<Item = Sample<X>>>(
    mut samples: I,
) -> Option<Samples<X>>
    requires { I.can_next samples }
    ensures { (given : List (Sample ℕ)) → AlwaysYields I.next_gives (sample_meaning X.Exponent.value) samples given → option_map (samples_meaning X.Exponent.value) result ≡ three_of given }
{
    let first = samples.next()?;
    let second = samples.next()?;
    let third = samples.next()?;
    Some(Samples {
        first,
        second,
        third,
    })
}
