//! Permissions, sources and modes as lines write them.
ghost use Rattle.std.specs.Prelude.{◌≡◌, ◌≢◌, ℕ, [], ◌∷◌, Bool, Option, Some, map, IfSome};
ghost use Rattle.trace_lang.specs.Grammar.{IsBack, IsMode, IsNumber, IsPermission, IsPlacing, letter_or_dash};
ghost use Rattle.trace_lang.specs.Names.{IsInFile, ReadsAfter, source_text};
ghost use Rattle.vm_types.specs.declared.command.MapSource.{MapSource};
ghost use Rattle.vm_types.specs.declared.command.MsyncMode.{MsyncMode};
ghost use Rattle.vm_types.specs.declared.command.Placing.{Placing};
ghost use Rattle.vm_types.specs.declared.permission.Prot.{Prot};

use crate::names::{SourceName, source_name_of};
use crate::numerals::parse_number;
use bitflags::Flags;
use vm_types::{MapSource, MsyncMode, Placing, Prot};

/// Whether a permission is given: its letter says so, a dash says no, and `None` is any other byte.
fn given(byte: u8, letter: u8) -> Option<bool>
    requires { letter ≢ 45 }
    ensures found { IfSome result (λ given. byte ≡ letter_or_dash letter given) }
    ensures only { (given : Bool) → byte ≡ letter_or_dash letter given → result ≡ Some given }
{
    if byte == letter {
        Some(true)
    } else if byte == b'-' {
        Some(false)
    } else {
        None
    }
}

/// The permission that three characters write; `None` exactly where they write none.
pub(crate) fn permission_of(text: &[u8]) -> Option<Prot>
    ensures found { IfSome result (λ prot. IsPermission text.now prot) }
    ensures only { (prot : Prot) → IsPermission text.now prot → result ≡ Some prot }
{
    let [read, write, execute] = text else {
        return None;
    };
    let read = given(*read, b'r')?;
    let write = given(*write, b'w')?;
    let execute = given(*execute, b'x')?;
    Some(Prot::from_bits_retain(u8::from(read) + 2 * u8::from(write) + 4 * u8::from(execute)))
}

/// How firmly the address of a mapping is asked for, by the words at its end; `None` exactly where they say nothing of
/// the kind.
fn placing_of(words: &[&[u8]]) -> Option<Placing>
    ensures found { IfSome result (λ placing. IsPlacing (map (λ w. w.now) words.now) placing) }
    ensures only { (placing : Placing) → IsPlacing (map (λ w. w.now) words.now) placing → result ≡ Some placing }
{
    match words {
        [] => Some(Placing::Hint),
        [word] => firmness_of(word),
        _ => None,
    }
}

/// How firmly the address is asked for by the only word at the end.
fn firmness_of(word: &[u8]) -> Option<Placing>
    ensures found { IfSome result (λ placing. IsPlacing (word.now ∷ []) placing) }
    ensures only { (placing : Placing) → IsPlacing (word.now ∷ []) placing → result ≡ Some placing }
{
    if word == b"fixed".as_slice() {
        Some(Placing::Fixed)
    } else if word == b"noreplace".as_slice() {
        Some(Placing::NoReplace)
    } else {
        None
    }
}

/// A file, where in it, and how firmly the address is asked for, by the words after `private` or `shared`.
fn in_file(words: &[&[u8]]) -> Option<(u64, u64, Placing)>
    ensures found { IfSome result (λ read. IsInFile (map (λ w. w.now) words.now) read.0 read.1 read.2) }
    ensures only { (file offset : ℕ) (placing : Placing) → IsInFile (map (λ w. w.now) words.now) file offset placing → result ≡ Some (file, offset, placing) }
{
    let [file, offset, end @ ..] = words else {
        return None;
    };
    let file = parse_number(file)?;
    let offset = parse_number(offset)?;
    let placing = placing_of(end)?;
    Some((file, offset, placing))
}

/// What a mapping of a source of that name stands on, and how firmly its address is asked for, by the words after the name.
fn after_name(name: SourceName, words: &[&[u8]]) -> Option<(MapSource, Placing)>
    ensures found { IfSome result (λ back. IsBack (source_text name ∷ map (λ w. w.now) words.now) back.0 back.1) }
    ensures only { ReadsAfter name (map (λ w. w.now) words.now) result }
{
    match name {
        SourceName::Anon => Some((MapSource::Anon, placing_of(words)?)),
        SourceName::Common => Some((MapSource::Common, placing_of(words)?)),
        SourceName::Private => {
            let (file, offset, placing) = in_file(words)?;
            Some((MapSource::Private { file, offset }, placing))
        }
        SourceName::Shared => {
            let (file, offset, placing) = in_file(words)?;
            Some((MapSource::Shared { file, offset }, placing))
        }
    }
}

/// What a mapping is to stand on, and how firmly its address is asked for, by the words after its permission; `None`
/// exactly where they say nothing of the kind.
pub(crate) fn back_of(words: &[&[u8]]) -> Option<(MapSource, Placing)>
    ensures found { IfSome result (λ back. IsBack (map (λ w. w.now) words.now) back.0 back.1) }
    ensures only { (source : MapSource) (placing : Placing) → IsBack (map (λ w. w.now) words.now) source placing → result ≡ Some (source, placing) }
{
    let [word, end @ ..] = words else {
        return None;
    };
    after_name(source_name_of(word)?, end)
}

/// Whether an msync is to wait; `None` exactly where the word says nothing of the kind.
pub(crate) fn mode_of(text: &[u8]) -> Option<MsyncMode>
    ensures found { IfSome result (λ mode. IsMode text.now mode) }
    ensures only { (mode : MsyncMode) → IsMode text.now mode → result ≡ Some mode }
{
    if text == b"sync".as_slice() {
        Some(MsyncMode::Sync)
    } else if text == b"async".as_slice() {
        Some(MsyncMode::Async)
    } else {
        None
    }
}
