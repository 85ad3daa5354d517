//! What is done to files, and seen of them.
use crate::looks::{repeated, same, same_number};
use crate::names::named;
use crate::steps::{FileStep, TwoFiles};
use std::fs::{self, OpenOptions};
use std::os::unix::fs::{FileExt, PermissionsExt, symlink};
use std::test::Fail;

pub(crate) fn with_file(
    rt: &HostRuntime,
    start: &str,
    file: &str,
    step: FileStep<'_>,
) -> Result<(), Fail> {
    let path = named(rt, start, file)?;
    at_path(rt, path.as_str(), step)
}

fn at_path(rt: &HostRuntime, path: &str, step: FileStep<'_>) -> Result<(), Fail> {
    match step {
        FileStep::Has(wanted) => same(path, fs::read(rt, path)?.as_slice(), wanted),
        FileStep::HasAt(at, wanted) => same_part(fs::read(rt, path)?.as_slice(), at, wanted),
        FileStep::IsFilledAt(at, bytes, times) => {
            let wanted = repeated(rt, &[(bytes, times)])?;
            same_part(fs::read(rt, path)?.as_slice(), at, wanted.as_slice())
        }
        FileStep::IsLong(wanted) => same_number(path, fs::metadata(rt, path)?.len(), wanted),
        FileStep::IsMissing => missing(rt, path),
        FileStep::Write(bytes) => Ok(fs::write(rt, path, bytes)?),
        FileStep::WriteAt(at, bytes) => put(rt, path, at, bytes),
        FileStep::FillAt(at, bytes, times) => {
            put(rt, path, at, repeated(rt, &[(bytes, times)])?.as_slice())
        }
        FileStep::SetLength(length) => resize(rt, path, length),
        FileStep::SetMode(mode) => {
            Ok(fs::set_permissions(rt, path, fs::Permissions::from_mode(mode))?)
        }
    }
}

/// Sees that a file has these bytes from byte `at` on.
fn same_part(bytes: &[u8], at: usize, wanted: &[u8]) -> Result<(), Fail> {
    match bytes.get(at..at.saturating_add(wanted.len())) {
        Some(found) => same("a part of a file", found, wanted),
        None => Err(Fail::new("the file is short")),
    }
}

fn missing(rt: &HostRuntime, path: &str) -> Result<(), Fail> {
    if fs::exists(rt, path)? {
        Err(Fail::new(format_args!("there is a file {path}")))
    } else {
        Ok(())
    }
}

fn put(rt: &HostRuntime, path: &str, at: u64, bytes: &[u8]) -> Result<(), Fail> {
    let file = OpenOptions::new().write(true).open(rt, path)?;
    file.write_all_at(bytes, at)?;
    Ok(())
}

fn resize(rt: &HostRuntime, path: &str, length: u64) -> Result<(), Fail> {
    let file = OpenOptions::new().write(true).create(true).open(rt, path)?;
    file.set_len(length)?;
    Ok(())
}

pub(crate) fn with_files(
    rt: &HostRuntime,
    start: &str,
    step: TwoFiles,
    first: &str,
    second: &str,
) -> Result<(), Fail> {
    let (first, second) = (named(rt, start, first)?, named(rt, start, second)?);
    at_paths(rt, step, first.as_str(), second.as_str())
}

fn at_paths(rt: &HostRuntime, step: TwoFiles, first: &str, second: &str) -> Result<(), Fail> {
    match step {
        TwoFiles::Copy => Ok(fs::write(rt, second, fs::read(rt, first)?.as_slice())?),
        TwoFiles::Alike => at_path(rt, first, FileStep::Has(fs::read(rt, second)?.as_slice())),
        TwoFiles::Link => Ok(symlink(rt, second, first)?),
    }
}

pub(crate) fn remove(rt: &HostRuntime, start: &str, files: &[&str]) -> Result<(), Fail> {
    for file in files {
        fs::remove_file(rt, named(rt, start, file)?.as_str())?;
    }
    Ok(())
}
