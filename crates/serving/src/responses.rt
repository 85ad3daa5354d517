//! What a kernel is told.
ghost use Rattle.std.specs.Prelude.{◌≡◌, ◌≤◌, ◌+◌, ◌++◌, take, MatchResult};
ghost use Rattle.std.specs.Io.KnownBytes.{Appends};
ghost use Rattle.byteorder.specs.Endian.{little_bytes};
ghost use Rattle.runner.specs.Bytes.{WritesBeginning};
ghost use Rattle.serving.specs.Responses.{number_bytes, response_bytes, code_number, fault_numbers, numbers_of, of_answer, of_kind};

use runner::{WriteFault, write_bytes};
use std::io::Write;
use vm_types::{Answer, Code, Fault};

/// Bytes of a reply: five numbers of eight.
const REPLY_BYTES: usize = 40;

/// The kind of the reply to what is no request.
const MALFORMED: u64 = 8;

/// The kind of the reply that is a history, of which no more is told.
const HISTORY: u64 = 9;

/// What a kernel is told.
#[derive(Clone, Copy, Debug, PartialEq, Eq)]
pub enum Response {
    /// The numbers are no request, and nothing was done.
    Malformed,
    /// What the machine answered, and the frame of the root table of the process that it names; 0, which is the frame of zeros, where it
    /// names none. There is no answer where a history is the reply, which no request asks for.
    Answered { answer: Option<Answer>, root: u64 },
}

/// The numbers that a response is sent as.
#[derive(Clone, Copy, Debug, PartialEq, Eq)]
pub(crate) struct ReplyNumbers {
    /// What it is.
    pub kind: u64,
    /// A process, an address, a value, a cause, an error's number or a stall's.
    pub first: u64,
    /// The width of a value, or the reason of a fault.
    pub second: u64,
    /// Where the fault is.
    pub third: u64,
    /// The frame of a root table.
    pub root: u64,
}

impl ReplyNumbers {
    /// Those of a kind that tells one number at most.
    fn of_kind(kind: u64, first: u64) -> ReplyNumbers
        ensures { result ≡ of_kind kind first }
    {
        ReplyNumbers {
            kind,
            first,
            second: 0,
            third: 0,
            root: 0,
        }
    }

    /// Those of a fault.
    fn of_fault(fault: Fault) -> ReplyNumbers
        ensures { result ≡ fault_numbers fault }
    {
        ReplyNumbers {
            kind: 4,
            first: u64::from(fault.cause),
            second: code_number(fault.code),
            third: fault.addr,
            root: 0,
        }
    }

    /// Those of an answer, and of a root table.
    fn of_answer(answer: &Answer, root: u64) -> ReplyNumbers
        ensures { result ≡ of_answer answer.now root }
    {
        let numbers = match answer {
            Answer::Process(pid) => ReplyNumbers::of_kind(0, u64::from(pid.get())),
            Answer::Address(addr) => ReplyNumbers::of_kind(1, *addr),
            Answer::Done => ReplyNumbers::of_kind(2, 0),
            Answer::Value { width, value } => ReplyNumbers {
                second: u64::from(width.bytes()),
                ..ReplyNumbers::of_kind(3, *value)
            },
            Answer::Faulted(fault) => ReplyNumbers::of_fault(*fault),
            Answer::Refused(errno) => ReplyNumbers::of_kind(5, u64::from(errno.number())),
            Answer::Stalled(stall) => ReplyNumbers::of_kind(6, u64::from(stall.number())),
            Answer::Halted => ReplyNumbers::of_kind(7, 0),
        };
        ReplyNumbers { root, ..numbers }
    }

    /// Each in eight bytes, the low one first.
    fn bytes(&self) -> [u8; REPLY_BYTES]
        ensures { result ≡ number_bytes self.now }
    {
        let mut bytes = [0; REPLY_BYTES];
        put_number(&mut bytes, 0, self.kind);
        put_number(&mut bytes, 8, self.first);
        put_number(&mut bytes, 16, self.second);
        put_number(&mut bytes, 24, self.third);
        put_number(&mut bytes, 32, self.root);
        bytes
    }
}

/// Puts a number behind so many of the bytes.
fn put_number(bytes: &mut [u8; REPLY_BYTES], at: usize, number: u64)
    requires { at + 8 ≤ 40 }
    ensures { take (at + 8) bytes.new ≡ take at bytes.old ++ little_bytes 8 number }
{
    bytes[at..at + 8].copy_from_slice(&number.to_le_bytes());
}

/// The number of a reason, as they stand in their order.
fn code_number(code: Code) -> u64
    ensures { result ≡ code_number code }
{
    match code {
        Code::BusAdraln => 0,
        Code::SegvMaperr => 1,
        Code::SegvAccerr => 2,
        Code::BusAdrerr => 3,
    }
}

impl Response {
    /// The numbers that it is sent as.
    fn numbers(&self) -> ReplyNumbers
        ensures { result ≡ numbers_of self.now }
    {
        match self {
            Response::Malformed => ReplyNumbers::of_kind(MALFORMED, 0),
            Response::Answered { answer, root } => match answer {
                Some(answer) => ReplyNumbers::of_answer(answer, *root),
                None => ReplyNumbers::of_kind(HISTORY, 0),
            },
        }
    }

    /// Writes its numbers, by one call of the writer where that takes them all.
    ///
    /// # Errors
    ///
    /// `WriteFault` where the writer failed, took no bytes, or was called 2^64 - 1 times; it took a beginning of them then.
    pub(crate) fn write<W: Write>(&self, writer: &mut W) -> Result<(), WriteFault>
        ensures { MatchResult result
            (λ _. Appends (W.contents writer.old) (W.contents writer.new) (response_bytes self.now))
            (λ _. WritesBeginning (W.contents writer.old) (W.contents writer.new) (response_bytes self.now)) }
    {
        write_bytes(&self.numbers().bytes(), writer)
    }
}
