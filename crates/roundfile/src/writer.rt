ghost use Rattle.std.specs.Prelude.{◌≡◌, ℕ, ◌+◌, ◌*◌, ◌^◌, ◌<◌, ◌≤◌, ◌∷◌, ◌++◌, length, take, drop, slice_index};
ghost use Rattle.roundfile.specs.Kinds.{byte_of};
ghost use Rattle.roundfile.specs.Laws.{ReadsBack, WritesWhatWasRead};
ghost use Rattle.roundfile.specs.Number.{two_bytes, four_bytes};
ghost use Rattle.roundfile.specs.Writing.{record_bytes, numbers_of, comparator_bytes, written, write_answer};

use crate::kind::Kind;
use crate::parts::Comparator;
use refusal::{Reason, Refusal};

// The map in which every bit of a comparator stands.
const ALL_COMPARATOR_FIELDS: u16 = 0x0FFF;

// Writes a number into the four bytes from `start` on. By a start and no slice of just these bytes, since the contract says
// what becomes of the whole buffer.
fn write_number(buffer: &mut [u8], start: usize, number: u32)
    requires { start + 4 ≤ length buffer.old }
    ensures { buffer.new ≡ take start buffer.old ++ (four_bytes number ++ drop (start + 4) buffer.old) }
{
    buffer[start..start + 4].copy_from_slice(&number.to_be_bytes());
}

// Writes a record's kind and map.
fn write_head(buffer: &mut [u8], kind: Kind, map: u16)
    requires { 3 ≤ length buffer.old }
    ensures { buffer.new ≡ byte_of kind ∷ (two_bytes map ++ drop 3 buffer.old) }
{
    let [high, low] = map.to_be_bytes();
    buffer[0] = u8::from(kind);
    buffer[1] = high;
    buffer[2] = low;
}

// Writes a record whose standing fields are these numbers, or refuses a buffer that is too short for it.
// What leaves defaulted fields out is to pick the map and the numbers, and call this.
// (That the numbers fit four bytes is said for the caller, whose laws need it of its list of them.)
fn write_record(buffer: &mut [u8], kind: Kind, map: u16, numbers: &[u32]) -> Result<(), Refusal>
    ensures after { buffer.new ≡ written (3 + 4 * length numbers.now) (record_bytes kind map numbers.now) buffer.old }
    ensures answer { result ≡ write_answer (3 + 4 * length numbers.now) buffer.old }
    ensures fitting { (i : ℕ) → slice_index numbers.now i < 2 ^ 32 }
{
    if buffer.len() < 3 + 4 * numbers.len() {
        return Err(Reason::ShortBuffer.at(0));
    }
    write_head(buffer, kind, map);
    // by places and not by chunks_exact_mut: of what is written through the chunks the library says nothing, so that
    // the proof of the clause `after` does not close
    for (index, number) in numbers.iter().enumerate() {
        write_number(buffer, 3 + 4 * index, *number);
    }
    Ok(())
}

impl Comparator {
    // The fields from bit 0 up. It is a method and no From for arrays, which would not tell by its name which field is first.
    fn numbers(&self) -> [u32; 12]
        ensures { result ≡ numbers_of self.now }
    {
        [
            self.first_alpha,
            self.first_beta,
            self.second_alpha,
            self.second_beta,
            self.product_commitment,
            self.product_response,
            self.first_commitment,
            self.second_commitment,
            self.first_challenge,
            self.second_challenge,
            self.first_response,
            self.second_response,
        ]
    }

    // Writes the record with all twelve fields, 51 bytes, to the front of the buffer. A buffer that is
    // too short is refused and left as it was.
    pub fn write(&self, buffer: &mut [u8]) -> Result<(), Refusal>
        ensures after { buffer.new ≡ written 51 (comparator_bytes self.now) buffer.old }
        ensures answer { result ≡ write_answer 51 buffer.old }
        ensures back { 51 ≤ length buffer.old → ReadsBack self.now buffer.new (drop 51 buffer.old) }
        ensures same { WritesWhatWasRead }
    {
        let numbers = self.numbers();
        write_record(buffer, Kind::Comparator, ALL_COMPARATOR_FIELDS, &numbers)
    }
}
