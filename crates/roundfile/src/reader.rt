ghost use Rattle.std.specs.Prelude.{◌≡◌, ◌+◌, ◌≤◌, length};
ghost use Rattle.std.specs.Option.{option_map};
ghost use Rattle.roundfile.specs.Files.{FileLaws};
ghost use Rattle.roundfile.specs.Laws.{RecordLaws};
ghost use Rattle.roundfile.specs.Reading.{after, unmarked, open_file, opened, place, step, found, answer, left, GoesOn};

use crate::kind::Kind;
use crate::record::{Record, read_record};
use refusal::{Reason, Refusal};

// The longest file that is read, in bytes.
const LONGEST: usize = 65536;

// How far a file has come: it begins with an opening and two draws.
#[derive(Clone, Copy, Debug, PartialEq, Eq)]
pub enum Stage {
    Start,
    Opened,
    HalfDrawn,
    Drawn,
}

// A record with its offset, counted from the file's first byte.
#[derive(Clone, Copy)]
pub struct Entry<'a> {
    pub offset: usize,
    pub record: Record<'a>,
}

// Reads a file's records one after the other.
#[derive(Clone, Copy)]
pub struct Reader<'a> {
    stage: Stage,
    // the file's length, from which offsets are told, and what of the file is still to be read: what is left of a slice
    // does not tell how long the whole was
    end: usize,
    rest: &'a [u8],
}

impl Stage {
    // The stage after a record of the kind; none where such a record is out of place.
    fn after(self, kind: Kind) -> Option<Stage>
        ensures { result ≡ after self kind }
    {
        match (self, kind) {
            (Stage::Start, Kind::Opening) => Some(Stage::Opened),
            (Stage::Opened, Kind::Draws) => Some(Stage::HalfDrawn),
            (Stage::HalfDrawn, Kind::Draws) => Some(Stage::Drawn),
            (Stage::Drawn, Kind::Post | Kind::Comparator | Kind::Close | Kind::Expel) => Some(
                Stage::Drawn,
            ),
            _ => None,
        }
    }
}

// What follows the mark of a round file; none where the file is too long or does not begin with the mark.
fn after_mark(file: &[u8]) -> Option<&[u8]>
    ensures { option_map (λ x. x.now) result ≡ unmarked file.now }
{
    if file.len() > LONGEST {
        return None;
    }
    file.strip_prefix(b"MIXR")
}

impl<'a> Reader<'a> {
    // A reader at the first record of a file, or the refusal of what is no round file. What the records
    // and the files are that a reader reads is told by the two laws.
    pub fn new(file: &'a [u8]) -> Result<Reader<'a>, Refusal>
        ensures opens { opened result ≡ open_file file.now }
        ensures records { RecordLaws }
        ensures files { FileLaws }
    {
        let rest = after_mark(file).ok_or(Reason::NoRoundFile.at(0))?;
        Ok(Reader {
            stage: Stage::Start,
            end: file.len(),
            rest,
        })
    }

    // The next record; none at the file's end. After a refusal the reader stands where it stood.
    pub fn next_record(&mut self) -> Result<Option<Entry<'a>>, Refusal>
        ensures gives { found result ≡ answer (step (place self.old)) }
        ensures leaves { place self.new ≡ left (place self.old) (step (place self.old)) }
        ensures ends { GoesOn result (length self.new.rest.now + 3 ≤ length self.old.rest.now) }
    {
        // what is left is a part of the file, so this is no less than 4
        let offset = self.end.saturating_sub(self.rest.len());
        if self.rest.is_empty() {
            return match self.stage {
                Stage::Drawn => Ok(None),
                _ => Err(Reason::MisplacedRecord.at(offset)),
            };
        }
        let (record, rest) = read_record(self.rest).map_err(|reason| reason.at(offset))?;
        self.stage = self
            .stage
            .after(record.kind())
            .ok_or(Reason::MisplacedRecord.at(offset))?;
        self.rest = rest;
        Ok(Some(Entry { offset, record }))
    }
}
