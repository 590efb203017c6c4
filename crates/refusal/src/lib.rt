#![tactic(auto)]

ghost use Rattle.std.specs.Prelude.{◌≡◌, ℕ, Some};
ghost use Rattle.refusal.specs.Table.{number_of, station_of, refused_at};
ghost use Rattle.refusal.specs.Text.{station_text, refusal_text};

mod failure;

pub use failure::Failure;
use std::error::Error;
use std::fmt;

// The part of the checker that refuses.
#[derive(Clone, Copy, Debug, PartialEq, Eq)]
pub enum Station {
    File,
    Opening,
    Group,
    Board,
    Source,
    Proof,
    Drill,
}

// Why a call was refused; docs/refusals.md has the whole table.
#[derive(Clone, Copy, Debug, PartialEq, Eq)]
pub enum Reason {
    // the file: over 65,536 bytes, or no mark
    NoRoundFile,
    ShortRecord,
    UnknownRecord,
    UnknownField,
    MisplacedRecord,
    // the file: a buffer too short for what is to be written
    ShortBuffer,
    // the opening
    UnknownGroupOrPlan,
    UnfitWires,
    UnfitServers,
    KeyIsOne,
    // the group
    NoElement,
    UnfitNumber,
    // the board
    UnfitLength,
    NoPermutation,
    WrongStage,
    BoardFull,
    BoardShort,
    // the source
    BeyondReach,
    // the proofs: the first that does not hold
    ProductProof,
    ChallengeSplit,
    FirstBranch,
    SecondBranch,
    // the drill
    UnfitWitnessCount,
    UnfitWitnessNumber,
    EqualDraws,
    EqualChallenges,
    UnacceptedAnswer,
}

// A refusal: why, and at which place of the input.
#[derive(Clone, Copy, Debug, PartialEq, Eq)]
pub struct Refusal {
    pub reason: Reason,
    pub place: usize,
}

impl Reason {
    // The refusal for this reason at a place.
    pub fn at(self, place: usize) -> Refusal
        ensures { result ≡ refused_at self place }
    {
        Refusal {
            reason: self,
            place,
        }
    }

    // The reason's return number.
    pub fn number(self) -> u8
        ensures { result ≡ number_of self }
    {
        match self {
            Reason::NoRoundFile => 1,
            Reason::ShortRecord => 2,
            Reason::UnknownRecord => 3,
            Reason::UnknownField => 4,
            Reason::MisplacedRecord => 5,
            Reason::UnknownGroupOrPlan => 6,
            Reason::UnfitWires => 7,
            Reason::UnfitServers => 8,
            Reason::KeyIsOne => 9,
            Reason::NoElement => 10,
            Reason::UnfitNumber | Reason::UnfitWitnessNumber => 11,
            Reason::ShortBuffer | Reason::UnfitLength | Reason::UnfitWitnessCount => 12,
            Reason::NoPermutation => 13,
            Reason::WrongStage => 14,
            Reason::BoardFull => 15,
            Reason::BoardShort => 16,
            Reason::BeyondReach => 17,
            Reason::ProductProof => 18,
            Reason::ChallengeSplit => 19,
            Reason::FirstBranch => 20,
            Reason::SecondBranch => 21,
            Reason::EqualDraws => 22,
            Reason::EqualChallenges => 23,
            Reason::UnacceptedAnswer => 24,
        }
    }

    // The part of the checker that refuses for this reason.
    pub fn station(self) -> Station
        ensures { result ≡ station_of self }
    {
        match self {
            Reason::NoRoundFile
            | Reason::ShortRecord
            | Reason::UnknownRecord
            | Reason::UnknownField
            | Reason::MisplacedRecord
            | Reason::ShortBuffer => Station::File,
            Reason::UnknownGroupOrPlan
            | Reason::UnfitWires
            | Reason::UnfitServers
            | Reason::KeyIsOne => Station::Opening,
            Reason::NoElement | Reason::UnfitNumber => Station::Group,
            Reason::UnfitLength
            | Reason::NoPermutation
            | Reason::WrongStage
            | Reason::BoardFull
            | Reason::BoardShort => Station::Board,
            Reason::BeyondReach => Station::Source,
            Reason::ProductProof
            | Reason::ChallengeSplit
            | Reason::FirstBranch
            | Reason::SecondBranch => Station::Proof,
            Reason::UnfitWitnessCount
            | Reason::UnfitWitnessNumber
            | Reason::EqualDraws
            | Reason::EqualChallenges
            | Reason::UnacceptedAnswer => Station::Drill,
        }
    }
}

impl fmt::Display for Station {
    ghost output = { λ s. Some (station_text s) };

    fn fmt<W: fmt::Write>(&self, f: &mut fmt::Formatter<W>) -> fmt::Result {
        f.write_str(match self {
            Station::File => "file",
            Station::Opening => "opening",
            Station::Group => "group",
            Station::Board => "board",
            Station::Source => "source",
            Station::Proof => "proof",
            Station::Drill => "drill",
        })
    }
}

impl fmt::Display for Refusal {
    ghost output = { λ x. Some (refusal_text x) };

    fn fmt<W: fmt::Write>(&self, f: &mut fmt::Formatter<W>) -> fmt::Result {
        let number = self.reason.number();
        let station = self.reason.station();
        let place = self.place;
        write!(f, "refused {number} {station} {place}")
    }
}

impl Error for Refusal {}
