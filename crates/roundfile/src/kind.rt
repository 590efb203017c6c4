ghost use Rattle.std.specs.Prelude.{◌≡◌, ◌+◌, ◌*◌, ok_or};
ghost use Rattle.refusal.specs.declared.Reason.TheVariants.{UnknownRecord};
ghost use Rattle.roundfile.specs.Kinds.{kind_of, byte_of, field_count, size, words_size};

use crate::number::u32_at;
use refusal::Reason;

// What a record is; docs/round-file.md has the fields of each kind.
#[derive(Clone, Copy, Debug, PartialEq, Eq)]
pub enum Kind {
    Opening,
    Draws,
    Post,
    Comparator,
    Close,
    Expel,
}

// The kind that a record's first byte names.
impl TryFrom<u8> for Kind {
    type Error = Reason;

    ghost try_from_gives = { λ byte answer. answer ≡ ok_or (kind_of byte) UnknownRecord };

    fn try_from(byte: u8) -> Result<Kind, Reason> {
        match byte {
            1 => Ok(Kind::Opening),
            2 => Ok(Kind::Draws),
            3 => Ok(Kind::Post),
            4 => Ok(Kind::Comparator),
            5 => Ok(Kind::Close),
            6 => Ok(Kind::Expel),
            _ => Err(Reason::UnknownRecord),
        }
    }
}

// The first byte of a record of the kind.
impl From<Kind> for u8 {
    ghost from_gives = { λ kind byte. byte ≡ byte_of kind };

    fn from(kind: Kind) -> u8 {
        match kind {
            Kind::Opening => 1,
            Kind::Draws => 2,
            Kind::Post => 3,
            Kind::Comparator => 4,
            Kind::Close => 5,
            Kind::Expel => 6,
        }
    }
}

impl Kind {
    // How many fields a record of this kind can have.
    pub(crate) fn field_count(self) -> u32
        ensures { result ≡ field_count self }
    {
        match self {
            Kind::Opening => 5,
            Kind::Draws => 1,
            Kind::Post => 2,
            Kind::Comparator => 12,
            Kind::Close | Kind::Expel => 0,
        }
    }

    // How many bytes the fields take that `map` names, in a record of which `rest` follows the map.
    pub(crate) fn size(self, map: u16, rest: &[u8]) -> usize
        ensures { result ≡ size self map rest.now }
    {
        match self {
            Kind::Draws if map == 0 => 0,
            Kind::Draws => words_size(rest),
            Kind::Opening | Kind::Post | Kind::Comparator | Kind::Close | Kind::Expel => {
                4 * map.count_ones() as usize
            }
        }
    }
}

// How many bytes a count and its words take, where `bytes` begin with the count.
fn words_size(bytes: &[u8]) -> usize
    ensures { result ≡ words_size bytes.now }
{
    // in 64 bits: a count of words is any number below 2^32
    4 + 8 * u32_at(bytes, 0).unwrap_or(0) as usize
}
