ghost use Rattle.std.specs.Prelude.{◌≡◌};
ghost use Rattle.roundfile.specs.Records.{content, content_of, kind_in, taken, parse};

use crate::kind::Kind;
use crate::parts::{Comparator, Draws, Fields, Opening, Part, Post};
use refusal::Reason;

// A record that was read: its kind, and the part of the file that holds its fields.
#[derive(Clone, Copy)]
pub enum Record<'a> {
    Opening(Part<'a, Opening>),
    Draws(Part<'a, Draws>),
    Post(Part<'a, Post>),
    Comparator(Part<'a, Comparator>),
    Close,
    Expel,
}

impl<'a> Record<'a> {
    fn new(kind: Kind, map: u16, bytes: &'a [u8]) -> Record<'a>
        ensures { content result ≡ content_of kind map bytes.now }
    {
        let fields = Fields { map, bytes };
        match kind {
            Kind::Opening => Record::Opening(Part::new(fields)),
            Kind::Draws => Record::Draws(Part::new(fields)),
            Kind::Post => Record::Post(Part::new(fields)),
            Kind::Comparator => Record::Comparator(Part::new(fields)),
            Kind::Close => Record::Close,
            Kind::Expel => Record::Expel,
        }
    }

    pub fn kind(self) -> Kind
        ensures { result ≡ kind_in (content self.entry) }
    {
        match self {
            Record::Opening(_) => Kind::Opening,
            Record::Draws(_) => Kind::Draws,
            Record::Post(_) => Kind::Post,
            Record::Comparator(_) => Kind::Comparator,
            Record::Close => Kind::Close,
            Record::Expel => Kind::Expel,
        }
    }
}

// The record at the front of `input` and what follows it, or why there is none.
pub fn read_record(input: &[u8]) -> Result<(Record<'_>, &[u8]), Reason>
    ensures { taken result ≡ parse input.now }
{
    let [kind, high, low, rest @ ..] = input else {
        return Err(Reason::ShortRecord);
    };
    let kind = Kind::try_from(*kind)?;
    let map = u16::from_be_bytes([*high, *low]);
    if map >> kind.field_count() != 0 {
        return Err(Reason::UnknownField);
    }
    let size = kind.size(map, rest);
    if rest.len() < size {
        return Err(Reason::ShortRecord);
    }
    let (bytes, rest) = rest.split_at(size);
    Ok((Record::new(kind, map, bytes), rest))
}
