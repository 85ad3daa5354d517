//! The forms of a line: one function for each name, over the text after the name and its space.
ghost use Rattle.std.specs.Prelude.{◌∷◌, codes};
ghost use Rattle.trace_lang.specs.Grammar.{HasNoSpace};
ghost use Rattle.trace_lang.specs.Names.{ReadsWords};
ghost use Rattle.trace_lang.specs.Words.{words_of};

use crate::arguments::{back_of, mode_of, permission_of};
use crate::fronts::{front_number, front_width};
use crate::names::{Name, name_of};
use crate::numerals::{parse_number, stored_of, width_of};
use crate::words::{MAX_WORDS, cut, split_words};
use vm_types::Command;

/// A fork.
fn fork_in(text: &[u8]) -> Option<Command>
    ensures { ReadsWords (codes "fork" ∷ words_of text.now) result }
{
    let pid = parse_number(text)?;
    Some(Command::Fork { pid })
}

/// An exit.
fn exit_in(text: &[u8]) -> Option<Command>
    ensures { ReadsWords (codes "exit" ∷ words_of text.now) result }
{
    let pid = parse_number(text)?;
    Some(Command::Exit { pid })
}

/// A load.
pub(crate) fn load_in(text: &[u8]) -> Option<Command>
    ensures { ReadsWords (codes "load" ∷ words_of text.now) result }
{
    let (pid, text) = front_number(text)?;
    let (addr, text) = front_number(text)?;
    let width = width_of(text)?;
    Some(Command::Load { pid, addr, width })
}

/// A store.
pub(crate) fn store_in(text: &[u8]) -> Option<Command>
    ensures { ReadsWords (codes "store" ∷ words_of text.now) result }
{
    let (pid, text) = front_number(text)?;
    let (addr, text) = front_number(text)?;
    let (width, text) = front_width(text)?;
    let stored = stored_of(width, text)?;
    Some(Command::Store { pid, addr, stored })
}

/// A fetch.
pub(crate) fn fetch_in(text: &[u8]) -> Option<Command>
    ensures { ReadsWords (codes "fetch" ∷ words_of text.now) result }
{
    let (pid, text) = front_number(text)?;
    let addr = parse_number(text)?;
    Some(Command::Fetch { pid, addr })
}

/// An msync.
fn msync_in(text: &[u8]) -> Option<Command>
    ensures { ReadsWords (codes "msync" ∷ words_of text.now) result }
{
    let (pid, text) = front_number(text)?;
    let (addr, text) = front_number(text)?;
    let (len, text) = front_number(text)?;
    let mode = mode_of(text)?;
    Some(Command::Msync {
        pid,
        addr,
        len,
        mode,
    })
}

/// A truncate.
fn truncate_in(text: &[u8]) -> Option<Command>
    ensures { ReadsWords (codes "truncate" ∷ words_of text.now) result }
{
    let (file, text) = front_number(text)?;
    let length = parse_number(text)?;
    Some(Command::Truncate { file, length })
}

/// An mmap.
fn mmap_in(text: &[u8]) -> Option<Command>
    ensures { ReadsWords (codes "mmap" ∷ words_of text.now) result }
{
    let (pid, text) = front_number(text)?;
    let (addr, text) = front_number(text)?;
    let (len, text) = front_number(text)?;
    let (permission, text) = cut(text)?;
    let prot = permission_of(permission)?;
    let mut words: [&[u8]; MAX_WORDS] = [&[]; MAX_WORDS];
    let count = split_words(text, &mut words)?;
    let (source, placing) = back_of(&words[..count])?;
    Some(Command::Mmap {
        pid,
        addr,
        len,
        prot,
        source,
        placing,
    })
}

/// An munmap.
fn munmap_in(text: &[u8]) -> Option<Command>
    ensures { ReadsWords (codes "munmap" ∷ words_of text.now) result }
{
    let (pid, text) = front_number(text)?;
    let (addr, text) = front_number(text)?;
    let len = parse_number(text)?;
    Some(Command::Munmap { pid, addr, len })
}

/// A dontneed.
fn dontneed_in(text: &[u8]) -> Option<Command>
    ensures { ReadsWords (codes "dontneed" ∷ words_of text.now) result }
{
    let (pid, text) = front_number(text)?;
    let (addr, text) = front_number(text)?;
    let len = parse_number(text)?;
    Some(Command::Dontneed { pid, addr, len })
}

/// An mprotect.
fn mprotect_in(text: &[u8]) -> Option<Command>
    ensures { ReadsWords (codes "mprotect" ∷ words_of text.now) result }
{
    let (pid, text) = front_number(text)?;
    let (addr, text) = front_number(text)?;
    let (len, text) = front_number(text)?;
    let prot = permission_of(text)?;
    Some(Command::Mprotect {
        pid,
        addr,
        len,
        prot,
    })
}

/// The command that a line of one word stands for.
fn alone_in(line: &[u8]) -> Option<Command>
    ensures { HasNoSpace line.now → ReadsWords (words_of line.now) result }
{
    match name_of(line)? {
        Name::Spawn => Some(Command::Spawn),
        Name::Faults => Some(Command::PastFaults),
        _ => None,
    }
}

/// The command that a line stands for, by its first word.
#[inline(never)]
pub(crate) fn named_in(line: &[u8]) -> Option<Command>
    ensures { ReadsWords (words_of line.now) result }
{
    let Some((name, text)) = cut(line) else {
        return alone_in(line);
    };
    match name_of(name)? {
        Name::Fork => fork_in(text),
        Name::Exit => exit_in(text),
        Name::Mmap => mmap_in(text),
        Name::Munmap => munmap_in(text),
        Name::Mprotect => mprotect_in(text),
        Name::Dontneed => dontneed_in(text),
        Name::Msync => msync_in(text),
        Name::Truncate => truncate_in(text),
        Name::Load => load_in(text),
        Name::Store => store_in(text),
        Name::Fetch => fetch_in(text),
        Name::Spawn | Name::Faults => None,
    }
}
