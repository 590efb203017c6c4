// Challenge sources: tapes, joined sources, and how z and c come from a drawn word.
#![tactic(auto)]

ghost use Rattle.std.specs.Prelude.{◌≡◌, ℕ, ◌<◌, ◌≤◌, MatchOption};
ghost use Rattle.source.specs.Words.{Words, tape, joined, Drawn, z_of, c_of};

use group::Exponent;
use refusal::{Reason, Refusal};

// A source of challenges: one fixed word for each question below its reach and list of posted bytes.
pub trait Source {
    ghost words: { Self → Words };

    // How many questions it answers, from 0 on.
    fn reach(&self) -> u64
        ensures { result ≡ (words self.now).reach };

    // The word for this question; none where the question is not below the reach.
    fn word(&self, question: u64, posted: &[u8]) -> Option<u64>
        ensures { MatchOption result ((words self.now).reach ≤ question) (λ w. (question < (words self.now).reach) × (w ≡ (words self.now).word question posted.now)) };
}

// The word for this question, or its refusal at the place that the caller names.
pub fn draw<S: Source>(
    source: &S,
    question: u64,
    posted: &[u8],
    place: usize,
) -> Result<u64, Refusal>
    ensures { Drawn (S.Source.words source.now) question posted.now place result }
{
    source
        .word(question, posted)
        .ok_or(Reason::BeyondReach.at(place))
}

// A list of words, read by number; the posted bytes are ignored.
#[derive(Clone, Copy)]
pub struct Tape<'a> {
    pub words: &'a [u64],
}

impl Source for Tape<'_> {
    ghost words = { λ t. tape t.words.now };

    fn reach(&self) -> u64 {
        self.words.len() as u64
    }

    fn word(&self, question: u64, posted: &[u8]) -> Option<u64> {
        self.words.get(question as usize).copied()
    }
}

// Two sources joined: the XOR of both words, and the smaller reach.
#[derive(Clone, Copy)]
pub struct Joint<S, T> {
    pub first: S,
    pub second: T,
}

impl<S: Source, T: Source> Source for Joint<S, T> {
    ghost words = { λ j. joined (S.Source.words j.first) (T.Source.words j.second) };

    fn reach(&self) -> u64 {
        self.first.reach().min(self.second.reach())
    }

    fn word(&self, question: u64, posted: &[u8]) -> Option<u64> {
        let first = self.first.word(question, posted)?;
        let second = self.second.word(question, posted)?;
        Some(first ^ second)
    }
}

// The exponent z of a drawn word.
pub fn z_of<E: Exponent>(word: u64) -> E
    ensures { E.Exponent.value result ≡ z_of E.Exponent.exponents word }
{
    E::from_word(word)
}

// The challenge c of a drawn word.
pub fn c_of<E: Exponent>(word: u64) -> u64
    ensures { result ≡ c_of E.Exponent.exponents word }
{
    E::challenge(word)
}
