//! The names of commands, which are the first words of lines.
ghost use Rattle.trace_lang.specs.Names.{SaysName, SaysSource};

/// The name of a form.
#[derive(Clone, Copy)]
pub(crate) enum Name {
    Spawn,
    Fork,
    Exit,
    Mmap,
    Munmap,
    Mprotect,
    Dontneed,
    Msync,
    Truncate,
    Load,
    Store,
    Fetch,
    Faults,
}

/// The name that a word is; `None` exactly where it is none. Its length says which names it can be.
// (a `match` on the bytes has an exit for each byte that differs, and each of them would be proved)
pub(crate) fn name_of(word: &[u8]) -> Option<Name>
    ensures { SaysName word.now result }
{
    match word.len() {
        4 => if word == b"mmap".as_slice() {
            Some(Name::Mmap)
        } else if word == b"fork".as_slice() {
            Some(Name::Fork)
        } else if word == b"exit".as_slice() {
            Some(Name::Exit)
        } else if word == b"load".as_slice() {
            Some(Name::Load)
        } else {
            None
        },
        5 => if word == b"msync".as_slice() {
            Some(Name::Msync)
        } else if word == b"spawn".as_slice() {
            Some(Name::Spawn)
        } else if word == b"store".as_slice() {
            Some(Name::Store)
        } else if word == b"fetch".as_slice() {
            Some(Name::Fetch)
        } else {
            None
        },
        6 => if word == b"munmap".as_slice() {
            Some(Name::Munmap)
        } else if word == b"faults".as_slice() {
            Some(Name::Faults)
        } else {
            None
        },
        8 => if word == b"mprotect".as_slice() {
            Some(Name::Mprotect)
        } else if word == b"dontneed".as_slice() {
            Some(Name::Dontneed)
        } else if word == b"truncate".as_slice() {
            Some(Name::Truncate)
        } else {
            None
        },
        _ => None,
    }
}

/// The name of what a mapping stands on.
#[derive(Clone, Copy)]
pub(crate) enum SourceName {
    Anon,
    Common,
    Private,
    Shared,
}

/// The name of a source that a word is; `None` exactly where it is none.
pub(crate) fn source_name_of(word: &[u8]) -> Option<SourceName>
    ensures { SaysSource word.now result }
{
    if word == b"anon".as_slice() {
        Some(SourceName::Anon)
    } else if word == b"common".as_slice() {
        Some(SourceName::Common)
    } else if word == b"private".as_slice() {
        Some(SourceName::Private)
    } else if word == b"shared".as_slice() {
        Some(SourceName::Shared)
    } else {
        None
    }
}
