//! Writes a reply.
ghost use Rattle.std.specs.Prelude.{◌≡◌, ◌+◌, ◌≤◌, ◌++◌, take, length, codes, decimal, flat_map};
ghost use Rattle.trace_lang.specs.Texts.{text_of, fault_text, words_of_reply, bad_line_text, past_line, errno_name, stall_name, code_name};
ghost use Rattle.vm_types.specs.Replies.{reply_of};
ghost use Rattle.vm_types.specs.declared.reply.Reply.TheVariants.{Past};

use crate::output::{push, push_decimal, push_hex_digits, push_hexadecimal, push_small};
use vm_types::{Answer, Code, Errno, Fault, History, Pid, Reply, Stall};

/// The name of an error.
fn errno_text(errno: Errno) -> &'static [u8]
    ensures name { result.now ≡ errno_name errno }
    ensures short { length result.now ≤ 16 }
{
    match errno {
        Errno::ESRCH => b"ESRCH",
        Errno::EIO => b"EIO",
        Errno::EBADF => b"EBADF",
        Errno::EAGAIN => b"EAGAIN",
        Errno::ENOMEM => b"ENOMEM",
        Errno::EACCES => b"EACCES",
        Errno::EEXIST => b"EEXIST",
        Errno::EINVAL => b"EINVAL",
        Errno::EFBIG => b"EFBIG",
        Errno::ENOSPC => b"ENOSPC",
        Errno::EOVERFLOW => b"EOVERFLOW",
    }
}

/// The name of a stall.
fn stall_text(stall: Stall) -> &'static [u8]
    ensures name { result.now ≡ stall_name stall }
    ensures short { length result.now ≤ 16 }
{
    match stall {
        Stall::NoFrames => b"NOFRAMES",
        Stall::NoSwap => b"NOSWAP",
        Stall::SwapDevice => b"SWAPDEV",
        Stall::StoreDevice => b"STOREDEV",
    }
}

/// The name of a fault's reason.
fn code_text(code: Code) -> &'static [u8]
    ensures name { result.now ≡ code_name code }
    ensures short { length result.now ≤ 11 }
{
    match code {
        Code::BusAdraln => b"BUS_ADRALN",
        Code::SegvMaperr => b"SEGV_MAPERR",
        Code::SegvAccerr => b"SEGV_ACCERR",
        Code::BusAdrerr => b"BUS_ADRERR",
    }
}

/// Writes `CAUSE CODE 0xADDR` of a fault at `at`.
fn push_fault(out: &mut [u8; 1024], at: usize, fault: Fault) -> usize
    requires { at ≤ 960 }
    ensures end { result ≤ at + 34 }
    ensures text { take result out.new ≡ take at out.old ++ fault_text fault }
{
    let at = push_small(out, at, fault.cause);
    let at = push(out, at, b" ");
    let at = push(out, at, code_text(fault.code));
    let at = push(out, at, b" ");
    push_hexadecimal(out, at, fault.addr)
}

/// Writes a newline and `past P CAUSE CODE 0xADDR` of a fault of the process at `at`.
fn push_past(out: &mut [u8; 1024], at: usize, pid: Pid, fault: Fault) -> usize
    requires { at ≤ 900 }
    ensures end { result ≤ at + 44 }
    ensures text { take result out.new ≡ take at out.old ++ past_line (pid, fault) }
{
    let at = push(out, at, b"\npast ");
    let at = push_small(out, at, pid.get());
    let at = push(out, at, b" ");
    push_fault(out, at, fault)
}

/// Writes the lines of a history, the last without its newline, to the front of `out`.
fn push_history(out: &mut [u8; 1024], history: &History) -> usize
    ensures end { result ≤ 1000 }
    ensures text { take result out.new ≡ codes "faults " ++ decimal (length history.now) ++ flat_map past_line history.now }
{
    let faults = history.as_slice();
    let at = push(out, 0, b"faults ");
    let mut at = push_small(out, at, faults.len() as u8);
    for i in 0..faults.len() {
        let (pid, fault) = faults[i];
        at = push_past(out, at, pid, fault);
    }
    at
}

/// Writes `KIND NUMBER NAME` to the front of `out`.
fn push_numbered(out: &mut [u8; 1024], kind: &[u8], number: u8, name: &[u8]) -> usize
    requires kind { length kind.now ≤ 16 }
    requires name { length name.now ≤ 16 }
    ensures end { result ≤ 64 }
    ensures text { take result out.new ≡ kind.now ++ decimal number ++ codes " " ++ name.now }
{
    let at = push(out, 0, kind);
    let at = push_decimal(out, at, u64::from(number));
    let at = push(out, at, b" ");
    push(out, at, name)
}

/// Writes the answer's text and a newline to the front of `out`, and returns how many bytes that is, at most 1,024.
pub fn answer_text(answer: &Answer, out: &mut [u8; 1024]) -> usize
    ensures text { take result out.new ≡ text_of (reply_of answer.now) }
    ensures room { result ≤ 1024 }
{
    let at = match answer {
        Answer::Process(pid) => {
            let at = push(out, 0, b"pid ");
            push_decimal(out, at, u64::from(pid.get()))
        }
        Answer::Address(addr) => {
            let at = push(out, 0, b"addr ");
            push_hexadecimal(out, at, *addr)
        }
        Answer::Done => push(out, 0, b"ok"),
        Answer::Value { width, value } => {
            let at = push(out, 0, b"value 0x");
            push_hex_digits(out, at, *value, 2 * usize::from(width.bytes()))
        }
        Answer::Faulted(fault) => {
            let at = push(out, 0, b"fault ");
            push_fault(out, at, *fault)
        }
        Answer::Refused(errno) => push_numbered(out, b"error ", errno.number(), errno_text(*errno)),
        Answer::Stalled(stall) => push_numbered(out, b"stall ", stall.number(), stall_text(*stall)),
        Answer::Halted => push(out, 0, b"halted"),
    };
    push(out, at, b"\n")
}

/// Writes the history's text and a newline to the front of `out`, and returns how many bytes that is, at most 1,024.
pub fn history_text(history: &History, out: &mut [u8; 1024]) -> usize
    ensures text { take result out.new ≡ text_of (Past history.now) }
    ensures room { result ≤ 1024 }
{
    let at = push_history(out, history);
    push(out, at, b"\n")
}

/// Writes the reply's text and a newline to the front of `out`, and returns how many bytes that is, at most 1,024.
pub fn reply_text(reply: &Reply, out: &mut [u8; 1024]) -> usize
    ensures text { take result out.new ≡ text_of reply.now }
    ensures room { result ≤ 1024 }
{
    match reply {
        Reply::Process(pid) => answer_text(&Answer::Process(*pid), out),
        Reply::Address(addr) => answer_text(&Answer::Address(*addr), out),
        Reply::Done => answer_text(&Answer::Done, out),
        Reply::Value { width, value } => answer_text(
            &Answer::Value {
                width: *width,
                value: *value,
            },
            out,
        ),
        Reply::Faulted(fault) => answer_text(&Answer::Faulted(*fault), out),
        Reply::Refused(errno) => answer_text(&Answer::Refused(*errno), out),
        Reply::Stalled(stall) => answer_text(&Answer::Stalled(*stall), out),
        Reply::Halted => answer_text(&Answer::Halted, out),
        Reply::Past(history) => history_text(history, out),
    }
}

/// The reply to a line in no form, with its newline.
pub fn bad_line_text() -> &'static [u8]
    ensures { result.now ≡ bad_line_text }
{
    b"bad line\n"
}
