// What a drill finds.
ghost use Rattle.std.specs.Prelude.{◌≡◌};
ghost use Rattle.drill.specs.Findings.{finding_meaning, finding_of};

use group::Exponent;
use plan::Setting;

// A private key that came to light.
#[derive(Clone, Copy)]
pub struct KeyFound<X> {
    pub key: X,
}

// What three samples show: one exponent common to all, or a private key.
pub type Conclusion<X> = Result<X, KeyFound<X>>;

// The outputs are the inputs re-encrypted: the order, and the exponent of each output.
#[derive(Clone, Copy)]
pub struct Reencryption<X> {
    pub setting: Setting,
    pub r1: X,
    pub r2: X,
}

// What the drill finds. It is no Result: either finding answers the drill, which may also refuse.
#[derive(Clone, Copy)]
pub enum Finding<X> {
    Key(X),
    Outputs(Reencryption<X>),
}

impl<X> From<Result<Reencryption<X>, KeyFound<X>>> for Finding<X> {
    ghost from_gives = { λ joined finding. finding ≡ finding_of joined };

    fn from(joined: Result<Reencryption<X>, KeyFound<X>>) -> Finding<X> {
        match joined {
            Ok(outputs) => Finding::Outputs(outputs),
            Err(found) => Finding::Key(found.key),
        }
    }
}

impl<X: Exponent> Finding<X> {
    // The same, its exponents as they are posted.
    pub fn post(self) -> Finding<X::Posted>
        ensures { finding_meaning X.Exponent.number result ≡ finding_meaning X.Exponent.value self }
    {
        match self {
            Finding::Key(x) => Finding::Key(x.post()),
            Finding::Outputs(Reencryption { setting, r1, r2 }) => Finding::Outputs(Reencryption {
                setting,
                r1: r1.post(),
                r2: r2.post(),
            }),
        }
    }
}
