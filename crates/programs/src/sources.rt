//! The files of a new image, as their specs name them.
ghost use Rattle.std.specs.Prelude.{◌≡◌, IfOk, IfSome, IfNone, IsSome, map};
ghost use Rattle.programs.specs.declared.sources.FileSpec.{FileSpec};
ghost use Rattle.programs.specs.Specs.{IsSpec, IsSourceOf, AreSpecSources};

use crate::faults::ProgramFault;
use crate::files::open_to_read;
use command_words::number;
use file_store::FileSource;
use std::alloc::Global;
use std::fs::{File, Files};

/// What a spec asks for.
#[derive(Clone, Copy)]
pub(crate) enum FileSpec<'a> {
    /// `zero:LEN`: a writable file of so many zero bytes.
    Zeros(u32),
    /// `rw:PATH`: a writable file of the bytes of a host file.
    Writable(&'a str),
    /// `ro:PATH`: a read-only file of the bytes of a host file.
    ReadOnly(&'a str),
}

/// What a spec asks for; `None` exactly where it has none of the forms, or LEN is no number or one of 2^32 or more.
fn file_spec(spec: &str) -> Option<FileSpec<'_>>
    ensures found { IfSome result (λ asked. IsSpec spec.now asked) }
    ensures none { IfNone result ((asked : FileSpec) → IsSpec spec.now asked → ⊥) }
{
    if let Some(path) = spec.strip_prefix("rw:") {
        return Some(FileSpec::Writable(path));
    }
    if let Some(path) = spec.strip_prefix("ro:") {
        return Some(FileSpec::ReadOnly(path));
    }
    let Some(digits) = spec.strip_prefix("zero:") else {
        return None;
    };
    let Some(length) = number(digits) else {
        return None;
    };
    Some(FileSpec::Zeros(length))
}

/// The sources that the specs name, in their order. The host files are opened, and the first spec that does not serve is
/// reported: a bad one, or one whose host file can't be opened or has 2^32 bytes or more.
///
/// # Errors
///
/// `BadSpec`, `CannotOpen` of the host file's path, and `OutOfMemory` for want of room for the list.
pub fn open_sources<'a, R: Files<File = File>>(
    alloc: Global,
    rt: &R,
    specs: &[&'a str],
) -> Result<Vec<FileSource<File>>, ProgramFault<'a>>
    ensures { IfOk result (λ sources. AreSpecSources (map (λ spec. spec.now) specs.now) sources.items) }
{
    let mut sources = Vec::new(alloc);
    for spec in specs {
        let source = open_source(rt, spec)?;
        match sources.push(source) {
            Ok(()) => {}
            Err(_) => return Err(ProgramFault::OutOfMemory),
        }
    }
    Ok(sources)
}

fn open_source<'a, R: Files<File = File>>(
    rt: &R,
    spec: &'a str,
) -> Result<FileSource<File>, ProgramFault<'a>>
    ensures { IfOk result (λ source. IsSourceOf spec.now source) }
{
    let Some(asked) = file_spec(spec) else {
        return Err(ProgramFault::BadSpec(spec));
    };
    match asked {
        FileSpec::Zeros(length) => Ok(FileSource {
            read_only: false,
            length,
            bytes: None,
        }),
        FileSpec::Writable(path) => open_host(rt, spec, path, false),
        FileSpec::ReadOnly(path) => open_host(rt, spec, path, true),
    }
}

/// The source of a host file's bytes, as many as the file has now.
fn open_host<'a, R: Files<File = File>>(
    rt: &R,
    spec: &'a str,
    path: &'a str,
    read_only: bool,
) -> Result<FileSource<File>, ProgramFault<'a>>
    ensures { IfOk result (λ source. (source.read_only ≡ read_only) × IsSome source.bytes) }
{
    let (file, bytes) = open_to_read(rt, path)?;
    match u32::try_from(bytes) {
        Ok(length) => Ok(FileSource {
            read_only,
            length,
            bytes: Some(file),
        }),
        Err(_) => Err(ProgramFault::BadSpec(spec)),
    }
}
