//! Numbers and arrays at a place in bytes. None of these takes memory.
ghost use Rattle.std.specs.Prelude.{◌≡◌, ◌+◌, ◌≤◌, length, take, drop};
ghost use Rattle.std.specs.Int.{w16, w32, w64, from_le_bytes};

/// The number of two bytes from a place on.
pub(crate) fn short_at(bytes: &[u8], at: usize) -> u16
    requires { at + 2 ≤ length bytes.now }
    ensures { result ≡ from_le_bytes w16 (take 2 (drop at bytes.now)) }
{
    let (number, _) = bytes[at..].split_first_chunk::<2>().unwrap();
    u16::from_le_bytes(*number)
}

/// The number of four bytes from a place on.
pub(crate) fn number_at(bytes: &[u8], at: usize) -> u32
    requires { at + 4 ≤ length bytes.now }
    ensures { result ≡ from_le_bytes w32 (take 4 (drop at bytes.now)) }
{
    let (number, _) = bytes[at..].split_first_chunk::<4>().unwrap();
    u32::from_le_bytes(*number)
}

/// The number of eight bytes from a place on.
pub(crate) fn long_at(bytes: &[u8], at: usize) -> u64
    requires { at + 8 ≤ length bytes.now }
    ensures { result ≡ from_le_bytes w64 (take 8 (drop at bytes.now)) }
{
    let (number, _) = bytes[at..].split_first_chunk::<8>().unwrap();
    u64::from_le_bytes(*number)
}

/// The array of that many bytes from a place on.
pub(crate) fn array_at<const N: usize>(bytes: &[u8], at: usize) -> [u8; N]
    requires { at + N ≤ length bytes.now }
    ensures { result ≡ take N (drop at bytes.now) }
{
    let (array, _) = bytes[at..].split_first_chunk::<N>().unwrap();
    *array
}
