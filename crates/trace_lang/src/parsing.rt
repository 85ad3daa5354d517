//! Reads a line of a trace.
ghost use Rattle.std.specs.Prelude.{◌≡◌, IfOk, OnErr};
ghost use Rattle.trace_lang.specs.Grammar.{IsCommand};
ghost use Rattle.trace_lang.specs.Names.{ReadsWords};
ghost use Rattle.trace_lang.specs.Words.{words_of};
ghost use Rattle.vm_types.specs.declared.command.Command.{Command};

use crate::forms::{fetch_in, load_in, named_in, store_in};
use vm_types::Command;

/// The most bytes of a line that stands for a command.
pub const MAX_LINE_BYTES: usize = 256;

/// The line is in no form.
#[derive(Clone, Copy, Debug, PartialEq, Eq)]
pub struct BadLine;

/// The command that a line stands for, by its words. Most lines are accesses, whose names are looked for first.
#[inline(never)]
fn command_in(line: &[u8]) -> Option<Command>
    ensures { ReadsWords (words_of line.now) result }
{
    // (the first byte says which name it can be, so that one prefix is compared and not three)
    match line {
        [b'l', ..] => if let Some(rest) = line.strip_prefix(b"load ") {
            return load_in(rest);
        },
        [b's', ..] => if let Some(rest) = line.strip_prefix(b"store ") {
            return store_in(rest);
        },
        [b'f', ..] => if let Some(rest) = line.strip_prefix(b"fetch ") {
            return fetch_in(rest);
        },
        _ => {}
    }
    named_in(line)
}

/// The command that a line without its newline stands for. An `Err` exactly where it stands for none: its words
/// aren't parted by single spaces, they are in no form, a number is 2^64 or more, or the line is over 256 bytes.
pub fn parse_line(line: &[u8]) -> Result<Command, BadLine>
    ensures found { IfOk result (λ command. IsCommand line.now command) }
    ensures none { OnErr result ((command : Command) → IsCommand line.now command → ⊥) }
    // So a line stands for one command at most.
    ensures only { (command : Command) → IsCommand line.now command → result ≡ Ok command }
{
    if line.len() > MAX_LINE_BYTES {
        return Err(BadLine);
    }
    command_in(line).ok_or(BadLine)
}
