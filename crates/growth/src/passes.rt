//! Passes over extents: the first home of a run is moved behind each extent that has a home of the run.
ghost use Rattle.std.specs.Prelude.{◌≡◌};
ghost use Rattle.growth.specs.Room.{IsUsedExtent, IsOf, IsOfFile, IsOfChange, PassesOver};

use crate::changes::Change;
use crate::extents::{blocks, end_of, extents_of_file};
use directories::{Entry, Extent};

/// A pass over all extents that are in use, for a run of so many homes from `first` on.
pub(crate) fn pass_used(
    before: &[Option<Entry>],
    changes: &[Change],
    entry: &Entry,
    first: u64,
    count: u64,
) -> u64
    ensures { PassesOver (IsUsedExtent before.now changes.now entry.now) count first result }
{
    let behind_files = pass_files(before, first, count);
    let behind_changes = pass_changes(changes, behind_files, count);
    pass_extents(entry.extents(), behind_changes, count)
}

/// A pass over the extents of these files.
fn pass_files(entries: &[Option<Entry>], first: u64, count: u64) -> u64
    ensures { PassesOver (IsOfFile entries.now) count first result }
{
    let mut behind = first;
    for entry in entries {
        behind = pass_extents(extents_of_file(entry), behind, count);
    }
    behind
}

/// A pass over the extents that these changes give files.
fn pass_changes(changes: &[Change], first: u64, count: u64) -> u64
    ensures { PassesOver (IsOfChange changes.now) count first result }
{
    let mut behind = first;
    for change in changes {
        behind = pass_extents(extents_of_file(&change.entry), behind, count);
    }
    behind
}

/// A pass over these extents.
fn pass_extents(extents: &[Extent], first: u64, count: u64) -> u64
    ensures { PassesOver (IsOf extents.now) count first result }
{
    let mut behind = first;
    for extent in extents {
        behind = pass_extent(extent, behind, count);
    }
    behind
}

/// The home behind an extent that has one of so many homes from `first` on; `first` where it has none of them.
fn pass_extent(extent: &Extent, first: u64, count: u64) -> u64
    ensures { PassesOver (λ y. extent.now ≡ y) count first result }
{
    if blocks(extent, first, count) {
        end_of(extent)
    } else {
        first
    }
}
