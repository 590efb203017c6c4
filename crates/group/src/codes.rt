// Numbers in four bytes, the most significant first: the code of elements in the small kinds.
ghost use Rattle.std.specs.Prelude.{◌≡◌, length, MatchOption, ◌≢◌};
ghost use Rattle.group.specs.Codes.{Written, four_bytes};

use crate::WrongLength;

// How many bytes the code of a number has.
pub const FOUR_BYTES: usize = 4;

// The number that these four bytes are; none where there are not four.
pub fn read_four_bytes(code: &[u8]) -> Option<u32>
    ensures { MatchOption result (length code.now ≢ 4) (λ n. four_bytes n ≡ code.now) }
{
    Some(u32::from_be_bytes(code.try_into().ok()?))
}

// Writes the number into a buffer of four bytes; into another nothing is written.
pub fn write_four_bytes(number: u32, out: &mut [u8]) -> Result<(), WrongLength>
    ensures { Written 4 (four_bytes number) out.old out.new result }
{
    if out.len() != FOUR_BYTES {
        return Err(WrongLength);
    }
    out.copy_from_slice(&number.to_be_bytes());
    Ok(())
}
