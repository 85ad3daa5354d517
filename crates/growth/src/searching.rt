//! Extents that have a home of another one.
ghost use Rattle.std.specs.Prelude.{◌<◌, ◌≤◌, length, MatchOption};
ghost use Rattle.std.specs.List.{All};
ghost use Rattle.growth.specs.Parts.{HaveNone, HasHomeOf, TakeNone, TakesHomeOf};

use crate::changes::Change;
use crate::extents::{extents_of_file, find_meeting, new_extents};
use directories::{Entry, Extent};

/// An extent, and the number of the file that has it.
#[derive(Clone, Copy)]
pub(crate) struct Held {
    pub file: u32,
    pub extent: Extent,
}

/// An extent of these files with a home of this one; `None` exactly where there is none.
pub(crate) fn find_held(entries: &[Option<Entry>], extent: &Extent) -> Option<Held>
    requires { length entries.now ≤ 4096 }
    ensures { MatchOption result (HaveNone entries.now extent.now) (HasHomeOf entries.now extent.now) }
{
    for (file, entry) in entries.iter().enumerate() {
        if let Some(other) = find_meeting(extents_of_file(entry), extent) {
            return Some(Held {
                file: file as u32,
                extent: other,
            });
        }
    }
    None
}

/// The file of one of these changes of which a new extent has a home of this one; `None` exactly where there is none.
pub(crate) fn find_taking(
    before: &[Option<Entry>],
    changes: &[Change],
    extent: &Extent,
) -> Option<u32>
    requires { All (λ c. c.file < length before.now) changes.now }
    ensures { MatchOption result (TakeNone before.now changes.now extent.now) (TakesHomeOf before.now changes.now extent.now) }
{
    for change in changes {
        if find_meeting(new_extents(before, change), extent).is_some() {
            return Some(change.file);
        }
    }
    None
}
