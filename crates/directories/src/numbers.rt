//! Numbers among bytes, low byte first.
ghost use Rattle.std.specs.Prelude.{◌≡◌, ◌≤◌, ◌+◌, ◌<◌, length, drop};
ghost use Rattle.byteorder.specs.Endian.{little_number};
ghost use Rattle.directories.specs.Entries.{number_at, SameBeside};

use byteorder::{ByteOrder, LittleEndian};

/// The number of four bytes from a place on.
pub(crate) fn number_at(bytes: &[u8], at: usize) -> u32
    requires { at + 4 ≤ length bytes.now }
    ensures { result ≡ number_at at bytes.now }
{
    LittleEndian::read_u32(&bytes[at..])
}

/// Writes a number into four bytes from a place on.
pub(crate) fn put_number(bytes: &mut [u8], at: usize, number: u32)
    requires { at + 4 ≤ length bytes.old }
    ensures number { number_at at bytes.new ≡ number }
    ensures others { SameBeside at 4 bytes.old bytes.new }
{
    LittleEndian::write_u32(&mut bytes[at..], number);
}

/// Writes a number into eight bytes from a place on.
pub(crate) fn put_long(bytes: &mut [u8], at: usize, number: u64)
    requires { at + 8 ≤ length bytes.old }
    ensures number { little_number 8 (drop at bytes.new) ≡ number }
    ensures others { SameBeside at 8 bytes.old bytes.new }
{
    LittleEndian::write_u64(&mut bytes[at..], number);
}
