// What the maker of a task knows, and the exponents by which it answers.
ghost use Rattle.std.specs.Prelude.{◌≡◌};
ghost use Rattle.drillserver.specs.Knowledge.{known_meaning, secrets_meaning, secrets_of, reencryption_known, product_known, branch_known, answering, product_answering, branch_answering, claimed_exponent};

use crate::task::{Fault, Outputs, Task};
use group::Exponent;

// What the maker starts from: the private key, and the exponents of both outputs.
#[derive(Clone, Copy)]
pub struct Secrets<X> {
    pub private: X,
    pub r1: X,
    pub r2: X,
}

// What the maker knows of a ciphertext over another: the quotients of both parts are powers of the base.
#[derive(Clone, Copy)]
pub struct Known<X> {
    pub a: X,
    pub b: X,
}

impl<X: Exponent> From<Task> for Secrets<X> {
    ghost from_gives = { λ task secrets. secrets_meaning X.Exponent.value secrets ≡ secrets_of X.Exponent.exponents task };

    fn from(task: Task) -> Secrets<X> {
        Secrets {
            private: X::from_word(task.private),
            r1: X::from_word(task.r1),
            r2: X::from_word(task.r2),
        }
    }
}

impl<X: Exponent> Secrets<X> {
    // What is known of a re-encryption by r.
    fn known_of(self, r: X) -> Known<X>
        ensures { known_meaning X.Exponent.value result ≡ reencryption_known X.Exponent.exponents (X.Exponent.value self.private) (X.Exponent.value r) }
    {
        Known {
            a: self.private.multiply(r),
            b: r,
        }
    }

    // What is known of outputs that are no re-encryption.
    fn known_of_forged(self) -> Known<X>
        ensures { known_meaning X.Exponent.value result ≡ known_meaning X.Exponent.value record { a = self.r1; b = self.r2 } }
    {
        Known {
            a: self.r1,
            b: self.r2,
        }
    }

    // What is known of the product of the outputs over that of the inputs.
    fn known_product(self, outputs: Outputs) -> Known<X>
        ensures { known_meaning X.Exponent.value result ≡ product_known X.Exponent.exponents outputs (secrets_meaning X.Exponent.value self) }
    {
        match outputs {
            Outputs::Straight | Outputs::Swapped => self.known_of(self.r1.add(self.r2)),
            Outputs::Forged => self.known_of_forged(),
        }
    }

    // What is known of the output that was made from the first input.
    fn known_branch(self, outputs: Outputs) -> Known<X>
        ensures { known_meaning X.Exponent.value result ≡ branch_known X.Exponent.exponents outputs (secrets_meaning X.Exponent.value self) }
    {
        match outputs {
            Outputs::Straight => self.known_of(self.r1),
            Outputs::Swapped => self.known_of(self.r2),
            Outputs::Forged => self.known_of_forged(),
        }
    }

    // The exponent that answers at z: (a·z + b) / (x·z + 1). Where x·z + 1 is 0 the folded key is the one, so that
    // it shows no exponent: there an honest maker answers by its own, which is b.
    #[tactic(auto, unfolding(crate::specs::Knowledge::answering))]
    fn gamma_at(self, known: Known<X>, z: X) -> X
        ensures { X.Exponent.value result ≡ answering X.Exponent.exponents (X.Exponent.value self.private) (known_meaning X.Exponent.value known) (X.Exponent.value z) }
    {
        let above = known.a.multiply(z).add(known.b);
        let below = self.private.multiply(z).add(X::from_word(1));
        if below == X::from_word(0) {
            return known.b;
        }
        above.multiply(below.invert())
    }
}

impl Fault {
    // The exponent that answers are made from: not the right one, where the fault is that.
    fn claim<X: Exponent>(self, gamma: X) -> X
        ensures { X.Exponent.value result ≡ claimed_exponent X.Exponent.exponents self (X.Exponent.value gamma) }
    {
        match self {
            Fault::WrongAnswer => gamma.add(X::from_word(1)),
            _ => gamma,
        }
    }
}

// The exponent that answers for the product at z.
pub(crate) fn product_gamma<X: Exponent>(task: Task, z: X) -> X
    ensures { X.Exponent.value result ≡ product_answering X.Exponent.exponents task (X.Exponent.value z) }
{
    let secrets = Secrets::<X>::from(task);
    secrets.gamma_at(secrets.known_product(task.kind.outputs), z)
}

// The exponent that answers for the output that was made from the first input, at z.
pub(crate) fn branch_gamma<X: Exponent>(task: Task, z: X) -> X
    ensures { X.Exponent.value result ≡ branch_answering X.Exponent.exponents task (X.Exponent.value z) }
{
    let secrets = Secrets::<X>::from(task);
    let known = secrets.known_branch(task.kind.outputs);
    task.kind.fault.claim(secrets.gamma_at(known, z))
}
