//! Whether a directory is good.
ghost use Rattle.std.specs.Prelude.{◌≡◌, ◌≤◌, ◌<◌, ℕ, length, get_or, Option, Some, None, OnOk, IfErr, IsTrue, IsFalse};
ghost use Rattle.directories.specs.declared.entry.Extent.{Extent};
ghost use Rattle.directories.specs.Layouts.{IsHomeIn, IsOutside, IsGoodLayout, IsBadLayout, IsRefusal};
ghost use Rattle.directories.specs.Checks.{LiesWithin, HasOutside, IsFileGood, AreFilesGood, IsFileBad, HaveApart, HaveShared};

use crate::entry::{Entry, Extent};
use crate::faults::LayoutFault;
use crate::pieces::{find_shared, sorted_pieces};
use std::alloc::Global;

/// The most files of a directory.
pub const MAX_FILES: usize = 4096;

/// Whether these entries make a good directory of so many pages, on a device of so many homes: each extent lies on the
/// device behind the directory, no two have a home in common, and each file has as many homes as pages. A fault is told
/// exactly where they don't, unless it is that memory is short: then each file by itself is good.
pub fn check(
    alloc: Global,
    entries: &[Option<Entry>],
    pages: u32,
    homes: u64,
) -> Result<(), LayoutFault>
    requires { length entries.now ≤ 4096 }
    ensures good { OnOk result (IsGoodLayout pages homes entries.now) }
    ensures bad { IfErr result (IsBadLayout pages homes entries.now) }
    ensures only { IfErr result (λ fault. IsRefusal fault (IsGoodLayout pages homes entries.now → ⊥)) }
{
    check_files(entries, pages, homes)?;
    check_apart(alloc, entries)
}

/// Whether each file by itself is as a good directory has it.
fn check_files(entries: &[Option<Entry>], pages: u32, homes: u64) -> Result<(), LayoutFault>
    requires { length entries.now ≤ 4096 }
    ensures good { OnOk result (AreFilesGood pages homes entries.now (length entries.now)) }
    ensures bad { IfErr result (IsBadLayout pages homes entries.now) }
{
    for (file, entry) in entries.iter().enumerate() {
        if let Some(entry) = entry {
            check_file(file as u32, entry, pages, homes)?;
        }
    }
    Ok(())
}

/// Whether a file by itself is as a good directory has it.
fn check_file(file: u32, entry: &Entry, pages: u32, homes: u64) -> Result<(), LayoutFault>
    ensures good { OnOk result (IsFileGood pages homes entry.now) }
    ensures bad { IfErr result (IsFileBad pages homes file entry.now) }
{
    if !lie_within(entry.extents(), pages, homes) {
        return Err(LayoutFault::Outside(file));
    }
    if entry.homes() < entry.pages() {
        return Err(LayoutFault::Short(file));
    }
    Ok(())
}

/// Whether each home of these extents is one of the device's `homes`, behind a directory of so many pages.
pub fn lie_within(extents: &[Extent], pages: u32, homes: u64) -> bool
    ensures all { IsTrue result → (i : ℕ) (d : Extent) → i < length extents.now → LiesWithin pages homes (get_or extents.now i d) }
    ensures one { IsFalse result → (i : ℕ) × (i < length extents.now) × ((d : Extent) → HasOutside pages homes (get_or extents.now i d)) }
{
    for extent in extents {
        if !extent.lies_within(pages, homes) {
            return false;
        }
    }
    true
}

impl Extent {
    /// Whether each of its homes is on the device, behind the directory.
    fn lies_within(&self, pages: u32, homes: u64) -> bool
        ensures all { IsTrue result → LiesWithin pages homes self.now }
        ensures one { IsFalse result → HasOutside pages homes self.now }
    {
        self.count == 0 || (pages <= self.first && self.end() <= homes)
    }
}

/// Whether no two extents have a home in common.
fn check_apart(alloc: Global, entries: &[Option<Entry>]) -> Result<(), LayoutFault>
    requires { length entries.now ≤ 4096 }
    ensures good { OnOk result (HaveApart entries.now) }
    ensures bad { IfErr result (HaveShared entries.now) }
{
    let pieces = sorted_pieces(alloc, entries)?;
    match find_shared(&pieces) {
        Some((one, other)) => Err(LayoutFault::Shared(one.file, other.file)),
        None => Ok(()),
    }
}
