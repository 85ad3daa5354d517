//! Files that get another length.
ghost use Rattle.std.specs.Prelude.{◌≡◌, MatchOption, IfSome};
ghost use Rattle.directories.specs.Homes.{pages_of_length};
ghost use Rattle.growth.specs.Room.{HasNoRoom};
ghost use Rattle.growth.specs.Resizing.{AreNeeded, IsCut, IsResized, StaysHome};

use crate::changes::Change;
use crate::room::Homes;
use crate::widening::widen;
use directories::{Entry, Extent};

/// The entry with a length of so many bytes: extents behind those that its pages need are given back, and where they are too few one
/// more is taken, as `widen` does. `None` where `widen` has none. A page that the file has before and afterwards keeps its home.
pub fn resize(
    before: &[Option<Entry>],
    changes: &[Change],
    entry: &Entry,
    bytes: u64,
    room: Homes,
) -> Option<Entry>
    ensures entry { MatchOption result (HasNoRoom before.now changes.now entry.now (pages_of_length bytes) room) (IsResized before.now changes.now entry.now bytes room) }
    ensures keeps { IfSome result (StaysHome entry.now) }
{
    match widen(before, changes, entry, pages_of(bytes), room) {
        Some(wider) => Some(cut(&wider, bytes)),
        None => None,
    }
}

/// How many pages a file of so many bytes has.
fn pages_of(bytes: u64) -> u64
    ensures { result ≡ pages_of_length bytes }
{
    bytes.div_ceil(vm_types::PAGE_BYTES as u64)
}

/// An entry with a length of so many bytes, and of its extents those in front that its pages need.
fn cut(entry: &Entry, bytes: u64) -> Entry
    ensures { IsCut entry.now bytes result }
{
    let count = count_needed(entry.extents(), pages_of(bytes));
    Entry {
        read_only: entry.read_only,
        length: bytes,
        extent_count: count as u32,
        extents: entry.extents,
    }
}

/// How many extents in front are needed for so many pages: as few as have a home for each, or all.
fn count_needed(extents: &[Extent], pages: u64) -> usize
    ensures { AreNeeded extents.now pages result }
{
    let mut left = pages;
    for (i, extent) in extents.iter().enumerate() {
        if left == 0 {
            return i;
        }
        left = left.saturating_sub(u64::from(extent.count));
    }
    extents.len()
}
