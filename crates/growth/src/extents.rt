//! Extents, one and several.
ghost use Rattle.std.specs.Prelude.{◌≡◌, ◌≤◌, ◌<◌, ◌+◌, length, MatchOption, IsTrue, IsFalse};
ghost use Rattle.directories.specs.Layouts.{ShareHome};
ghost use Rattle.growth.specs.Parts.{extents_of_file, kept_count, new_extents, IsApartFrom, IsMet};

use crate::changes::Change;
use directories::{Entry, Extent};

/// The home behind the last of an extent.
pub(crate) fn end_of(extent: &Extent) -> u64
    ensures { result ≡ extent.now.first + extent.now.count }
{
    u64::from(extent.first) + u64::from(extent.count)
}

/// Whether an extent has one of so many homes from `first` on.
pub(crate) fn blocks(extent: &Extent, first: u64, count: u64) -> bool
    ensures some { IsTrue result → ShareHome (record { first = first; count = count }) extent.now }
    ensures none { IsFalse result → ShareHome (record { first = first; count = count }) extent.now → ⊥ }
{
    let start = u64::from(extent.first);
    start.max(first) < end_of(extent) && start.saturating_sub(first) < count
}

/// Whether two extents have a home in common.
fn meet(one: &Extent, other: &Extent) -> bool
    ensures some { IsTrue result → ShareHome one.now other.now }
    ensures none { IsFalse result → ShareHome one.now other.now → ⊥ }
{
    blocks(other, u64::from(one.first), u64::from(one.count))
}

/// The first of these extents with a home of this one; `None` exactly where there is none.
pub(crate) fn find_meeting(extents: &[Extent], extent: &Extent) -> Option<Extent>
    ensures { MatchOption result (IsApartFrom extents.now extent.now) (IsMet extents.now extent.now) }
{
    for other in extents {
        if meet(extent, other) {
            return Some(*other);
        }
    }
    None
}

/// The extents of a file, if there is one.
pub(crate) fn extents_of_file(entry: &Option<Entry>) -> &[Extent]
    ensures extents { result.now ≡ extents_of_file entry.now }
    ensures few { length result.now ≤ 30 }
{
    match entry {
        Some(entry) => entry.extents(),
        None => &[],
    }
}

/// The new extents of a change: those behind the file's own from before.
pub(crate) fn new_extents<'a>(before: &[Option<Entry>], change: &'a Change) -> &'a [Extent]
    requires { change.now.file < length before.now }
    ensures extents { result.now ≡ new_extents before.now change.now }
    ensures few { length result.now ≤ 30 }
{
    let extents = extents_of_file(&change.entry);
    let kept = count_kept(extents_of_file(&before[change.file as usize]), extents);
    &extents[kept..]
}

/// How many extents in front are the same in both.
fn count_kept(old: &[Extent], new: &[Extent]) -> usize
    ensures count { result ≡ kept_count old.now new.now }
    ensures inside { result ≤ length new.now }
{
    for (i, extent) in new.iter().enumerate() {
        if i >= old.len() || old[i] != *extent {
            return i;
        }
    }
    new.len()
}
