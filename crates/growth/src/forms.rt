//! Whether changes are such as a commit takes.
ghost use Rattle.std.specs.Prelude.{◌<◌, ◌≤◌, length, IfSome, IsTrue, IsFalse};
ghost use Rattle.std.specs.List.{All, AllPairs};
ghost use Rattle.growth.specs.Changes.{AreChanges};

use crate::changes::Change;
use directories::{EXTENTS, Entry};

/// Whether these are changes of a directory: their files rise, each has its place in it, and none gets over 30 extents.
pub fn are_changes(before: &[Option<Entry>], changes: &[Change]) -> bool
    ensures all { IsTrue result → AreChanges before.now changes.now }
    ensures one { IsFalse result → AreChanges before.now changes.now → ⊥ }
{
    rise(changes) && fit(before, changes)
}

/// Whether the files of these changes rise.
fn rise(changes: &[Change]) -> bool
    ensures all { IsTrue result → AllPairs (λ c d. c.file < d.file) changes.now }
    ensures one { IsFalse result → AllPairs (λ c d. c.file < d.file) changes.now → ⊥ }
{
    for i in 1..changes.len() {
        if changes[i].file <= changes[i - 1].file {
            return false;
        }
    }
    true
}

/// Whether each file of these changes has its place in the directory, and 30 extents at most.
fn fit(before: &[Option<Entry>], changes: &[Change]) -> bool
    ensures inside { IsTrue result → All (λ c. c.file < length before.now) changes.now }
    ensures few { IsTrue result → All (λ c. IfSome c.entry (λ e. e.extent_count ≤ 30)) changes.now }
    ensures one { IsFalse result → AreChanges before.now changes.now → ⊥ }
{
    for change in changes {
        if before.len() <= change.file as usize || !is_small(&change.entry) {
            return false;
        }
    }
    true
}

/// Whether an entry has 30 extents at most.
fn is_small(entry: &Option<Entry>) -> bool
    ensures all { IsTrue result → IfSome entry.now (λ e. e.extent_count ≤ 30) }
    ensures one { IsFalse result → IfSome entry.now (λ e. e.extent_count ≤ 30) → ⊥ }
{
    match entry {
        Some(entry) => entry.extent_count <= EXTENTS as u32,
        None => true,
    }
}
