//! Changes of files that make of them what a caller says.
ghost use Rattle.std.specs.Prelude.{◌≡◌, ◌<◌, ◌≤◌, ◌≢◌, ◌^◌, IfErr, IfOk, IsErrOf, IsTrue, IsFalse, length, MatchOption, OnOk, slice_get, Some, vec_capacity};
ghost use Rattle.std.specs.List.{AllPairs, All};
ghost use Rattle.directories.specs.Homes.{pages_of_length};
ghost use Rattle.directories.specs.Layouts.{entry_in};
ghost use Rattle.growth.specs.Room.{HasNoRoom};
ghost use Rattle.pool_growth.specs.Sizes.{entry_or_empty, room_behind, AreSizes, AreSizesRefused, IsSizeFor, IsProposed, ProposesChanges};
ghost use Rattle.pool_growth.specs.declared.faults.BadSizes.TheVariants.{Memory};
ghost use Rattle.pool_store.specs.Store.{IsReadyPool};
ghost use Rattle.vm_types.specs.Limits.{longest_file};

use crate::faults::BadSizes;
use crate::sizes::FileSize;
use directories::{EXTENTS, Entry, Extent};
use disk_model::SectorDisk;
use growth::{Change, Homes, resize};
use pool_store::{Directory, PoolStore};
use std::alloc::Global;
use vm_types::{FILES, LONGEST_FILE};

/// An entry of no extents.
const EMPTY: Entry = Entry {
    read_only: false,
    length: 0,
    extent_count: 0,
    extents: [Extent { first: 0, count: 0 }; EXTENTS],
};

/// The changes that make files of a store what these sizes say: each file that gets longer keeps the homes that it has, and where they are too few it gets one more
/// extent of free ones, as `growth::resize` finds it.
///
/// # Errors
///
/// `Memory` comes where there was too little for as many changes as there are sizes, and otherwise those of `propose_into`.
pub fn propose_changes<D: SectorDisk>(
    alloc: Global,
    store: &PoolStore<D>,
    sizes: &[FileSize],
) -> Result<Vec<Change>, BadSizes>
    requires ready { IsReadyPool D.SectorDisk store.now }
    ensures proposes { IfOk result (λ changes. ProposesChanges store.now.journal.sizes.homes store.now.directory sizes.now changes.items) }
    ensures refused { IfErr result (AreSizesRefused store.now.journal.sizes.homes store.now.directory sizes.now) }
{
    let mut changes = Vec::with_capacity(alloc, sizes.len())?;
    propose_into(store, sizes, &mut changes)?;
    Ok(changes)
}

/// Lists the changes of `propose_changes` in the place of whatever was listed. There is room for as many as there are sizes, so that nothing is allocated, and there is as
/// much afterwards.
///
/// # Errors
///
/// `Form` comes only where no directory like this one takes sizes like these, and `NoHomes` only where there is no room for a file that is there then, beside what the
/// sizes before it take. Of what is listed then nothing is said.
pub fn propose_into<D: SectorDisk>(
    store: &PoolStore<D>,
    sizes: &[FileSize],
    changes: &mut Vec<Change>,
) -> Result<(), BadSizes>
    requires ready { IsReadyPool D.SectorDisk store.now }
    requires room { length sizes.now ≤ vec_capacity changes.old }
    ensures proposes { OnOk result (ProposesChanges store.now.journal.sizes.homes store.now.directory sizes.now changes.new.items) }
    ensures refused { IfErr result (AreSizesRefused store.now.journal.sizes.homes store.now.directory sizes.now) }
    ensures memory { IsErrOf result Memory → ⊥ }
    ensures room { vec_capacity changes.new ≡ vec_capacity changes.old }
{
    let directory = &store.directory;
    changes.clear();
    if !are_sizes(directory.entries.len(), sizes) {
        return Err(BadSizes::Form);
    }
    let room = Homes {
        first: directory.pages,
        end: store.journal.sizes().homes,
    };
    for size in sizes {
        match change_for(directory, changes, size, room) {
            Some(change) => changes.push_reserved(change),
            None => return Err(BadSizes::NoHomes(size.file)),
        }
    }
    Ok(())
}

/// The change that makes of a file what a size says, beside others.
fn change_for(
    directory: &Directory,
    done: &[Change],
    size: &FileSize,
    room: Homes,
) -> Option<Change>
    requires { size.now.is_there ≢ 0 → size.now.length ≤ longest_file }
    ensures { MatchOption result ((size.now.is_there ≢ 0) × HasNoRoom directory.now.entries.items done.now (entry_or_empty (entry_in directory.now.entries.items size.now.file)) (pages_of_length size.now.length) room)
        (IsProposed directory.now.entries.items room done.now size.now) }
{
    if size.is_there == 0 {
        return Some(Change {
            file: size.file,
            entry: None,
        });
    }
    let entry = entry_or_empty(directory, size.file as usize);
    match resize(&directory.entries, done, &entry, size.length, room) {
        Some(entry) => Some(Change {
            file: size.file,
            entry: Some(entry),
        }),
        None => None,
    }
}

/// The entry of a file, or an empty one where it is not there.
fn entry_or_empty(directory: &Directory, file: usize) -> Entry
    ensures { result ≡ entry_or_empty (entry_in directory.now.entries.items file) }
{
    match directory.entry(file) {
        Some(entry) => *entry,
        None => EMPTY,
    }
}

/// Whether a directory of so many entries takes sizes like these: their files rise, and each of them may be asked of it.
fn are_sizes(entries: usize, sizes: &[FileSize]) -> bool
    ensures all { IsTrue result → AreSizes entries sizes.now }
    ensures one { IsFalse result → AreSizes entries sizes.now → ⊥ }
{
    rise(sizes) && fit(entries, sizes)
}

/// Whether the files of these sizes rise.
fn rise(sizes: &[FileSize]) -> bool
    ensures all { IsTrue result → AllPairs (λ s t. s.file < t.file) sizes.now }
    ensures one { IsFalse result → AllPairs (λ s t. s.file < t.file) sizes.now → ⊥ }
{
    for i in 1..sizes.len() {
        if sizes[i].file <= sizes[i - 1].file {
            return false;
        }
    }
    true
}

/// Whether each of these sizes may be asked of a directory of so many entries.
fn fit(entries: usize, sizes: &[FileSize]) -> bool
    ensures all { IsTrue result → All (IsSizeFor entries) sizes.now }
    ensures one { IsFalse result → AreSizes entries sizes.now → ⊥ }
{
    for size in sizes {
        if !is_size_for(entries, size) {
            return false;
        }
    }
    true
}

/// Whether a file has its place in a directory of so many entries, a number below 4,096, and 2^42 bytes at most, unless it goes.
fn is_size_for(entries: usize, size: &FileSize) -> bool
    ensures all { IsTrue result → IsSizeFor entries size.now }
    ensures one { IsFalse result → IsSizeFor entries size.now → ⊥ }
{
    (size.file as usize) < entries.min(FILES) && (size.is_there == 0 || size.length <= LONGEST_FILE)
}
