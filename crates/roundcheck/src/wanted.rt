// The records that every file begins with: an opening and two draws.
ghost use Rattle.std.specs.Prelude.{◌≡◌, IfOk, Ok, Err, MatchResult};
ghost use Rattle.roundfile.specs.Fields.{words_in};
ghost use Rattle.roundfile.specs.Reading.{place, gave, step};
ghost use Rattle.roundcheck.specs.Checks.{next_opening, next_draws, NoneGiven};
ghost use Rattle.roundcheck.specs.Runs.{found_in};

use refusal::{Reason, Refusal};
use roundfile::parts::{Draws, Opening, Part};
use roundfile::reader::{Entry, Reader};
use roundfile::record::Record;
use std::alloc::{AllocError, Global};

// The record that comes next, where there has to be one.
fn next_entry<'a>(reader: &mut Reader<'a>) -> Result<Entry<'a>, Refusal>
    ensures { MatchResult result
        (λ entry. step (place reader.old) ≡ gave (found_in entry) (place reader.new))
        (NoneGiven (step (place reader.old))) }
{
    reader.next_record()?.ok_or(Reason::MisplacedRecord.at(0))
}

// The opening that comes next, with its offset.
pub fn next_opening(reader: &mut Reader) -> Result<(usize, Opening), Refusal>
    ensures { MatchResult result
        (λ t. next_opening (step (place reader.old)) ≡ Ok (t.0, t.1, place reader.new))
        (λ f. next_opening (step (place reader.old)) ≡ Err f) }
{
    let Entry { offset, record } = next_entry(reader)?;
    match record {
        Record::Opening(part) => Ok((offset, part.values())),
        _ => Err(Reason::MisplacedRecord.at(offset)),
    }
}

// The draws that come next.
pub fn next_draws<'a>(reader: &mut Reader<'a>) -> Result<Part<'a, Draws>, Refusal>
    ensures { MatchResult result
        (λ d. next_draws (step (place reader.old)) ≡ Ok (words_in d.fields.map d.fields.bytes.now, place reader.new))
        (λ f. next_draws (step (place reader.old)) ≡ Err f) }
{
    let Entry { offset, record } = next_entry(reader)?;
    match record {
        Record::Draws(part) => Ok(part),
        _ => Err(Reason::MisplacedRecord.at(offset)),
    }
}

// The words of draws.
pub fn words_of(heap: Global, draws: Part<'_, Draws>) -> Result<Vec<u64>, AllocError>
    ensures { IfOk result (λ words. words.items ≡ words_in draws.entry.fields.map draws.entry.fields.bytes.now) }
{
    draws.words().collect(heap)
}
