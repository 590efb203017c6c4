// A task: how a comparator and its witnesses are to be made.
ghost use Rattle.std.specs.Prelude.{◌≡◌};
ghost use Rattle.drillserver.specs.Knowledge.{word};

use refusal::Reason;
use std::str::FromStr;

// How the outputs are made: the inputs re-encrypted in either order, or outputs that are no re-encryption.
#[derive(Clone, Copy)]
pub enum Outputs {
    Straight,
    Swapped,
    Forged,
}

// What is wrong with the witnesses.
#[derive(Clone, Copy)]
pub enum Fault {
    Nothing,
    EqualDraws,
    EqualChallenges,
    WrongAnswer,
    UnfitNumber,
}

#[derive(Clone, Copy)]
pub struct Kind {
    pub outputs: Outputs,
    pub fault: Fault,
}

#[derive(Clone, Copy)]
pub struct Task {
    pub kind: Kind,
    pub private: u64,
    pub r1: u64,
    pub r2: u64,
    pub seed: u64,
}

// The kind that a word names.
impl FromStr for Kind {
    type Err = Reason;

    fn from_str(word: &str) -> Result<Kind, Reason> {
        let (outputs, fault) = match word {
            "straight" => (Outputs::Straight, Fault::Nothing),
            "swapped" => (Outputs::Swapped, Fault::Nothing),
            "forged" => (Outputs::Forged, Fault::Nothing),
            "equal-draws" => (Outputs::Straight, Fault::EqualDraws),
            "equal-challenges" => (Outputs::Straight, Fault::EqualChallenges),
            "wrong-answer" => (Outputs::Straight, Fault::WrongAnswer),
            "unfit-number" => (Outputs::Straight, Fault::UnfitNumber),
            _ => return Err(Reason::ShortRecord),
        };
        Ok(Kind { outputs, fault })
    }
}

// The number that comes j after the seed, and after the highest the lowest.
pub(crate) fn word_of(seed: u64, j: u64) -> u64
    ensures { result ≡ word seed j }
{
    seed.wrapping_add(j)
}
