// What three samples show.
ghost use Rattle.std.specs.Prelude.{◌≡◌};
ghost use Rattle.witness.specs.Samples.{sample_meaning, samples_meaning, examination_meaning};
ghost use Rattle.drill.specs.Formula.{top, weighted, formula, conclusion, computed};
ghost use Rattle.drill.specs.Findings.{conclusion_meaning, finding_meaning, finding_of, answer};

use crate::finding::{Conclusion, Finding, KeyFound, Reencryption};
use group::Exponent;
use plan::Setting;
use witness::samples::{Branch, Examination, Sample, Samples};

// The second difference of the exponents of three samples, up to a factor.
#[tactic(auto, unfolding(crate::specs::Formula::second))]
fn second_difference<X: Exponent>(samples: Samples<X>) -> X
    ensures { X.Exponent.value result ≡ top X.Exponent.exponents (samples_meaning X.Exponent.value samples) }
{
    let Samples {
        first,
        second,
        third,
    } = samples;
    let a = second.z.subtract(third.z).multiply(first.gamma);
    let b = third.z.subtract(first.z).multiply(second.gamma);
    let c = first.z.subtract(second.z).multiply(third.gamma);
    a.add(b).add(c)
}

// The sample with its exponent times its z.
fn weigh<X: Exponent>(sample: Sample<X>) -> Sample<X>
    ensures { sample_meaning X.Exponent.value result ≡ weighted X.Exponent.exponents (sample_meaning X.Exponent.value sample) }
{
    let Sample { z, gamma } = sample;
    Sample {
        z,
        gamma: z.multiply(gamma),
    }
}

// The key that samples whose exponents differ show.
#[tactic(auto, unfolding(crate::specs::Formula::second, crate::specs::Formula::formula))]
fn key_of<X: Exponent>(samples: Samples<X>) -> X
    ensures { X.Exponent.value result ≡ formula X.Exponent.exponents (samples_meaning X.Exponent.value samples) }
{
    let Samples {
        first,
        second,
        third,
    } = samples;
    let top = second_difference(samples);
    let bottom = second_difference(Samples {
        first: weigh(first),
        second: weigh(second),
        third: weigh(third),
    });
    X::from_word(0).subtract(top).multiply(bottom.invert())
}

// What three samples show: their exponent where it is one, else a key.
pub fn conclude<X: Exponent>(samples: Samples<X>) -> Conclusion<X>
    ensures { conclusion_meaning X.Exponent.value result ≡ conclusion X.Exponent.exponents (samples_meaning X.Exponent.value samples) }
{
    let Samples {
        first,
        second,
        third,
    } = samples;
    if first.gamma == second.gamma && second.gamma == third.gamma {
        return Ok(first.gamma);
    }
    let key = key_of(samples);
    Err(KeyFound { key })
}

// The order and the exponents that both conclusions give, or the first key among them.
fn order_outputs<X: Exponent>(
    product: Conclusion<X>,
    setting: Setting,
    branch: Conclusion<X>,
) -> Result<Reencryption<X>, KeyFound<X>>
    ensures { finding_meaning X.Exponent.value (finding_of result) ≡ answer X.Exponent.exponents (conclusion_meaning X.Exponent.value product) setting (conclusion_meaning X.Exponent.value branch) }
{
    let p = product?;
    let gamma = branch?;
    let other = p.subtract(gamma);
    Ok(match setting {
        Setting::Straight => Reencryption {
            setting,
            r1: gamma,
            r2: other,
        },
        Setting::Swapped => Reencryption {
            setting,
            r1: other,
            r2: gamma,
        },
    })
}

// The answer to both conclusions: a key first, else the order and the exponents.
pub fn join<X: Exponent>(
    product: Conclusion<X>,
    setting: Setting,
    branch: Conclusion<X>,
) -> Finding<X>
    ensures { finding_meaning X.Exponent.value result ≡ answer X.Exponent.exponents (conclusion_meaning X.Exponent.value product) setting (conclusion_meaning X.Exponent.value branch) }
{
    Finding::from(order_outputs(product, setting, branch))
}

// What is found from all samples.
pub fn find<X: Exponent>(examination: Examination<X>) -> Finding<X>
    ensures { finding_meaning X.Exponent.value result ≡ computed X.Exponent.exponents (examination_meaning X.Exponent.value examination) }
{
    let Examination { product, branch } = examination;
    let Branch { setting, samples } = branch;
    join(conclude(product), setting, conclude(samples))
}
