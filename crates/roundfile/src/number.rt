ghost use Rattle.std.specs.Prelude.{◌≡◌};
ghost use Rattle.std.specs.Option.{option_map};
ghost use Rattle.roundfile.specs.Number.{bytes_at, number_at};

// So many bytes from `start` on; none where the bytes end before. The start is an argument here and below, since a record's
// fields are read in any order.
fn bytes_at<const N: usize>(bytes: &[u8], start: usize) -> Option<[u8; N]>
    ensures { result ≡ bytes_at N bytes.now start }
{
    bytes.get(start..)?.first_chunk().copied()
}

// The number in the four bytes from `start` on, most significant byte first; none where the bytes end before.
pub(crate) fn u32_at(bytes: &[u8], start: usize) -> Option<u32>
    ensures { result ≡ number_at 4 bytes.now start }
{
    bytes_at(bytes, start).map(u32::from_be_bytes)
}

// The number in the eight bytes from `start` on; none where the bytes end before.
pub(crate) fn u64_at(bytes: &[u8], start: usize) -> Option<u64>
    ensures { result ≡ number_at 8 bytes.now start }
{
    bytes_at(bytes, start).map(u64::from_be_bytes)
}
