//! Whether a commit may make changes.
ghost use Rattle.std.specs.Prelude.{ℕ, ◌≤◌, ◌<◌, length, OnOk, IfErr};
ghost use Rattle.directories.specs.Layouts.{IsGoodLayout};
ghost use Rattle.directories.specs.Checks.{IsFileGood};
ghost use Rattle.growth.specs.Changes.{entries_after, AreChanges, TakesFreeHomes};
ghost use Rattle.growth.specs.Refusals.{IsChangeRefused};
ghost use Rattle.growth.specs.Parts.{IsChecked, IsFileRefused, HasGoodExtents};

use crate::changes::Change;
use crate::extents::{find_meeting, new_extents};
use crate::faults::ChangeFault;
use crate::searching::{find_held, find_taking};
use directories::{Entry, lie_within};

/// Whether one commit may make these changes of a good directory of so many pages, on a device of so many homes: the
/// directory is good afterwards too, and no new extent has a home that an extent had before. Each fault is told for its
/// reason alone.
pub fn check_changes(
    before: &[Option<Entry>],
    changes: &[Change],
    pages: u32,
    homes: u64,
) -> Result<(), ChangeFault>
    requires few { length before.now ≤ 4096 }
    requires good { IsGoodLayout pages homes before.now }
    requires changes { AreChanges before.now changes.now }
    ensures good { OnOk result (IsGoodLayout pages homes (entries_after before.now changes.now)) }
    ensures free { OnOk result (TakesFreeHomes before.now (entries_after before.now changes.now)) }
    ensures refused { IfErr result (IsChangeRefused pages homes before.now (entries_after before.now changes.now)) }
{
    for i in 0..changes.len() {
        check_change(before, changes, i, pages, homes)?;
    }
    Ok(())
}

/// Whether a change makes a good file, whose new extents take free homes.
fn check_change(
    before: &[Option<Entry>],
    changes: &[Change],
    i: usize,
    pages: u32,
    homes: u64,
) -> Result<(), ChangeFault>
    requires few { length before.now ≤ 4096 }
    requires changes { AreChanges before.now changes.now }
    requires place { i < length changes.now }
    ensures good { OnOk result (IsChecked pages homes before.now changes.now i) }
    ensures refused { IfErr result (IsChangeRefused pages homes before.now (entries_after before.now changes.now)) }
{
    let change = &changes[i];
    if let Some(entry) = &change.entry {
        check_file(change.file, entry, pages, homes)?;
    }
    check_extents(before, changes, i)
}

/// Whether the new extents of a change take free homes.
fn check_extents(before: &[Option<Entry>], changes: &[Change], i: usize) -> Result<(), ChangeFault>
    requires few { length before.now ≤ 4096 }
    requires changes { AreChanges before.now changes.now }
    requires place { i < length changes.now }
    ensures good { OnOk result (HasGoodExtents before.now changes.now i) }
    ensures refused { (pages homes : ℕ) → IfErr result (IsChangeRefused pages homes before.now (entries_after before.now changes.now)) }
{
    let file = changes[i].file;
    let own = new_extents(before, &changes[i]);
    for (k, extent) in own.iter().enumerate() {
        if let Some(held) = find_held(before, extent) {
            return Err(ChangeFault::Taken(file, held.file));
        }
        if find_meeting(&own[k + 1..], extent).is_some() {
            return Err(ChangeFault::Shared(file, file));
        }
        if let Some(other) = find_taking(before, &changes[i + 1..], extent) {
            return Err(ChangeFault::Shared(file, other));
        }
    }
    Ok(())
}

/// Whether a file by itself is as a good directory has it.
fn check_file(file: u32, entry: &Entry, pages: u32, homes: u64) -> Result<(), ChangeFault>
    ensures good { OnOk result (IsFileGood pages homes entry.now) }
    ensures bad { IfErr result (IsFileRefused pages homes file entry.now) }
{
    if !lie_within(entry.extents(), pages, homes) {
        return Err(ChangeFault::Outside(file));
    }
    if entry.homes() < entry.pages() {
        return Err(ChangeFault::Short(file));
    }
    Ok(())
}
