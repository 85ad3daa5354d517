//! The nine numbers of a request.
ghost use Rattle.std.specs.Prelude.{◌≤◌, length};
ghost use Rattle.serving.specs.Requests.{HoldsNumbers};

use byteorder::{ByteOrder, LittleEndian};

/// Bytes of a request: nine numbers of eight, the low byte first.
pub const REQUEST_BYTES: usize = 72;

/// The numbers of a request, in their order. Those that its kind has no use for are not looked at.
#[derive(Clone, Copy, Debug, PartialEq, Eq)]
pub struct RequestNumbers {
    /// What is asked for.
    pub kind: u64,
    /// A process.
    pub pid: u64,
    /// An address of its.
    pub addr: u64,
    /// Bytes of a range, of an access, or that a file is to have.
    pub len: u64,
    /// A permission: 1 to read, 2 to write, 4 to run, added up.
    pub prot: u64,
    /// What a mapping stands on.
    pub source: u64,
    /// A file, or what is stored.
    pub value: u64,
    /// Where in the file a mapping begins.
    pub offset: u64,
    /// How firmly a mapping's address is asked for.
    pub placing: u64,
}

impl RequestNumbers {
    /// The numbers that these bytes begin with.
    pub(crate) fn read(bytes: &[u8]) -> RequestNumbers
        requires { 72 ≤ length bytes.now }
        ensures { HoldsNumbers bytes.now result }
    {
        RequestNumbers {
            kind: LittleEndian::read_u64(&bytes[0..]),
            pid: LittleEndian::read_u64(&bytes[8..]),
            addr: LittleEndian::read_u64(&bytes[16..]),
            len: LittleEndian::read_u64(&bytes[24..]),
            prot: LittleEndian::read_u64(&bytes[32..]),
            source: LittleEndian::read_u64(&bytes[40..]),
            value: LittleEndian::read_u64(&bytes[48..]),
            offset: LittleEndian::read_u64(&bytes[56..]),
            placing: LittleEndian::read_u64(&bytes[64..]),
        }
    }
}
