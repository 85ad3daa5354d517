//! What a command returns.
ghost use Rattle.std.specs.Prelude.{◌≡◌};
ghost use Rattle.vm_types.specs.Replies.{reply_of};

use crate::history::History;
use crate::number::Pid;
use crate::refusal::{Errno, Fault, Stall};
use crate::width::Width;

/// What a command returns, in the few bytes that all but a history take.
#[derive(Clone, Copy, Debug, PartialEq, Eq)]
pub enum Answer {
    /// The process that a spawn or a fork made.
    Process(Pid),
    /// Where a mapping begins, in bytes.
    Address(u64),
    /// Done.
    Done,
    /// What a load of that width, or a fetch of four bytes, read.
    Value { width: Width, value: u64 },
    /// The access faulted.
    Faulted(Fault),
    /// The call was refused.
    Refused(Errno),
    /// The command would succeed, but memory or a device is wanting.
    Stalled(Stall),
    /// The machine has halted after a failed msync.
    Halted,
}

impl Answer {
    /// The reply that it is.
    pub fn reply(self) -> Reply
        ensures { result ≡ reply_of self }
    {
        match self {
            Answer::Process(pid) => Reply::Process(pid),
            Answer::Address(addr) => Reply::Address(addr),
            Answer::Done => Reply::Done,
            Answer::Value { width, value } => Reply::Value { width, value },
            Answer::Faulted(fault) => Reply::Faulted(fault),
            Answer::Refused(errno) => Reply::Refused(errno),
            Answer::Stalled(stall) => Reply::Stalled(stall),
            Answer::Halted => Reply::Halted,
        }
    }
}

/// The reply to a command.
#[derive(Clone, Copy, Debug, PartialEq, Eq)]
pub enum Reply {
    /// The process that a spawn or a fork made.
    Process(Pid),
    /// Where a mapping begins, in bytes.
    Address(u64),
    /// Done.
    Done,
    /// What a load of that width, or a fetch of four bytes, read.
    Value { width: Width, value: u64 },
    /// The access faulted.
    Faulted(Fault),
    /// The call was refused.
    Refused(Errno),
    /// The command would succeed, but memory or a device is wanting.
    Stalled(Stall),
    /// The machine has halted after a failed msync.
    Halted,
    /// The last faults of accesses.
    Past(History),
}
