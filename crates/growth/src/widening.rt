//! Room for a file that grows.
ghost use Rattle.std.specs.Prelude.{◌≡◌, ◌<◌, length, slice_set, MatchOption};
ghost use Rattle.directories.specs.Homes.{extents_of};
ghost use Rattle.growth.specs.Room.{HasNoRun, IsRunOf, HasNoRoom, GivesRoom, IsRoom, IsWider};

use crate::changes::Change;
use crate::extents::{end_of, extents_of_file};
use crate::passes::pass_used;
use crate::room::Homes;
use directories::{EXTENTS, Entry, Extent};

/// How many homes a file gets at least, where it gets new ones and there are as many in a row.
const LEAST: u64 = 64;

/// The entry with at least so many homes: itself where it has them, or one more extent of homes in the room that are not in
/// use, as large as all that the file has, or 64 homes, or what is missing, whichever is most; or of what is missing alone where no
/// other is free. `None` where the entry has 30 extents, or all runs of as many homes as are missing are blocked.
pub fn widen(
    before: &[Option<Entry>],
    changes: &[Change],
    entry: &Entry,
    count: u64,
    room: Homes,
) -> Option<Entry>
    ensures { MatchOption result (HasNoRoom before.now changes.now entry.now count room) (GivesRoom before.now changes.now entry.now count room) }
{
    let homes = entry.homes();
    if count <= homes {
        return Some(*entry);
    }
    if entry.extents().len() == EXTENTS {
        return None;
    }
    match find_room(before, changes, entry, count - homes, room) {
        Some(extent) => Some(with_extent(entry, extent)),
        None => None,
    }
}

/// An entry with an extent behind its own.
fn with_extent(entry: &Entry, extent: Extent) -> Entry
    requires { length (extents_of entry.now) < 30 }
    ensures { IsWider entry.now extent result }
{
    let place = entry.extents().len();
    let mut extents = entry.extents;
    put_extent(&mut extents, place, extent);
    Entry {
        read_only: entry.read_only,
        length: entry.length,
        extent_count: place as u32 + 1,
        extents,
    }
}

fn put_extent(extents: &mut [Extent; EXTENTS], place: usize, extent: Extent)
    requires { place < 30 }
    ensures extent { extents.new ≡ slice_set extents.old place extent }
    ensures all { length extents.new ≡ 30 }
{
    extents[place] = extent;
}

/// A run of as many homes as a file should get, or else of as many as are missing.
fn find_room(
    before: &[Option<Entry>],
    changes: &[Change],
    entry: &Entry,
    missing: u64,
    room: Homes,
) -> Option<Extent>
    requires { 0 < missing }
    ensures { MatchOption result (HasNoRun before.now changes.now entry.now room missing) (IsRoom before.now changes.now entry.now room missing) }
{
    let wanted = entry.homes().max(LEAST).max(missing);
    match find_run(before, changes, entry, wanted, room) {
        Some(run) => Some(run),
        None => find_run(before, changes, entry, missing, room),
    }
}

/// A run of so many homes: behind all that are in use, or else in the first gap.
fn find_run(
    before: &[Option<Entry>],
    changes: &[Change],
    entry: &Entry,
    count: u64,
    room: Homes,
) -> Option<Extent>
    requires { 0 < count }
    ensures { MatchOption result (HasNoRun before.now changes.now entry.now room count) (IsRunOf before.now changes.now entry.now room count) }
{
    let last = last_end(before, changes, entry).min(u64::from(room.end));
    let behind = Homes {
        first: room.first.max(last as u32),
        end: room.end,
    };
    match find_gap(before, changes, entry, count, behind) {
        Some(run) => Some(run),
        None => find_gap(before, changes, entry, count, room),
    }
}

/// The first run of so many homes in the room that are not in use. A pass over all extents that are in use moves the run's first home
/// behind each that has a home of the run, and a run that a pass leaves where it was is free. Where extents lie in the order of their
/// files, the second pass is the last.
fn find_gap(
    before: &[Option<Entry>],
    changes: &[Change],
    entry: &Entry,
    count: u64,
    room: Homes,
) -> Option<Extent>
    requires { 0 < count }
    ensures { MatchOption result (HasNoRun before.now changes.now entry.now room count) (IsRunOf before.now changes.now entry.now room count) }
{
    let end = u64::from(room.end);
    let mut first = u64::from(room.first);
    while first < end && count <= end - first {
        let next = pass_used(before, changes, entry, first, count);
        if next == first {
            return Some(Extent {
                first: first as u32,
                count: count as u32,
            });
        }
        first = next;
    }
    None
}

/// The home behind the last that is in use. Where a run is looked for first is free, so no clause speaks of it.
fn last_end(before: &[Option<Entry>], changes: &[Change], entry: &Entry) -> u64 {
    end_of_files(before)
        .max(end_of_changes(changes))
        .max(end_among(entry.extents()))
}

/// The home behind the last of these files.
fn end_of_files(entries: &[Option<Entry>]) -> u64 {
    let mut last = 0;
    for entry in entries {
        last = last.max(end_among(extents_of_file(entry)));
    }
    last
}

/// The home behind the last that these changes give.
fn end_of_changes(changes: &[Change]) -> u64 {
    let mut last = 0;
    for change in changes {
        last = last.max(end_among(extents_of_file(&change.entry)));
    }
    last
}

/// The home behind the last of these extents, 0 where there is none.
fn end_among(extents: &[Extent]) -> u64 {
    let mut last = 0;
    for extent in extents {
        last = last.max(end_of(extent));
    }
    last
}
