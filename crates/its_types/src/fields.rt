//! Numbers in bytes, least significant byte first.
ghost use Rattle.std.specs.Prelude.{◌≡◌, ◌+◌, ◌≤◌, ◌++◌, length, take, drop};
ghost use Rattle.byteorder.specs.Endian.{little_number, little_bytes};

use byteorder::{ByteOrder, LittleEndian};

/// The number that the four bytes from index `at` on are, least significant byte first.
pub fn le_u32(bytes: &[u8], at: usize) -> u32
    requires { at + 4 ≤ length bytes.now }
    ensures { result ≡ little_number 4 (drop at bytes.now) }
{
    LittleEndian::read_u32(&bytes[at..])
}

/// The number that the eight bytes from index `at` on are, least significant byte first.
pub fn le_u64(bytes: &[u8], at: usize) -> u64
    requires { at + 8 ≤ length bytes.now }
    ensures { result ≡ little_number 8 (drop at bytes.now) }
{
    LittleEndian::read_u64(&bytes[at..])
}

/// Writes a number's eight bytes from index `at` on, least significant byte first, and no other
/// byte.
pub fn put_le_u64(bytes: &mut [u8], at: usize, value: u64)
    requires { at + 8 ≤ length bytes.old }
    ensures { bytes.new ≡ take at bytes.old ++ little_bytes 8 value ++ drop (at + 8) bytes.old }
{
    bytes[at..at + 8].copy_from_slice(&value.to_le_bytes());
}
