//! The pages of the directory that changes change.
ghost use Rattle.std.specs.Prelude.{◌≡◌, ◌≤◌, ◌<◌, ◌+◌, ◌*◌, ◌++◌, ℕ, IfOk, [], length, map, replicate, vec_capacity};
ghost use Rattle.directories.specs.Kinds.{IsDirectorySize};
ghost use Rattle.pool_growth.specs.Asked.{AreFileChanges, changed_pages, entries_then, is_changed};
ghost use Rattle.pool_growth.specs.Front.{AreChangedPages, HasChangeRoom, HaveFewExtents, IsPageThen};
ghost use Rattle.pool_journal.specs.Sizes.{IsSized};

use crate::lookups::entry_then;
use directories::{Entry, PAGE_ENTRIES, write_entry};
use growth::Change;
use pool_journal::PoolSizes;
use pool_store::{Directory, Place};
use std::alloc::{AllocError, Global};

/// Room for what one commit of changes after the other puts into slots.
#[derive(Drop)]
pub struct ChangeRoom {
    /// The homes of all of it, rising.
    pub(crate) homes: Vec<u32>,
    /// The changed pages of the directory, which come first.
    pub(crate) pages: Vec<[u8; 4096]>,
}

impl ChangeRoom {
    /// Room for changes of a directory of so many pages, 1 to 256, and for as many pages of files as a pool of these sizes has slots.
    pub fn new(alloc: Global, sizes: PoolSizes, pages: u32) -> Result<ChangeRoom, AllocError>
        requires sized { IsSized sizes }
        requires pages { IsDirectorySize pages }
        ensures { IfOk result (HasChangeRoom sizes.blocks pages) }
    {
        let slots = 2 * sizes.places() as usize;
        Ok(ChangeRoom {
            homes: Vec::with_capacity(alloc, pages as usize + slots)?,
            pages: Vec::with_capacity(alloc, pages as usize)?,
        })
    }

    /// Lists the pages of the directory that these changes change, as they are then.
    pub(crate) fn list_directory(&mut self, directory: &Directory, changes: &[Change])
        requires changes { (homes : ℕ) × AreFileChanges homes directory.now changes.now }
        requires few { HaveFewExtents (entries_then directory.now changes.now) }
        requires room { (directory.now.pages ≤ vec_capacity self.old.pages) × (directory.now.pages ≤ vec_capacity self.old.homes) }
        ensures homes { self.new.homes.items ≡ changed_pages changes.now directory.now.pages }
        ensures pages { AreChangedPages directory.now changes.now self.new.pages.items }
        ensures room { (vec_capacity self.new.pages ≡ vec_capacity self.old.pages) × (vec_capacity self.new.homes ≡ vec_capacity self.old.homes) }
    {
        self.homes.clear();
        self.pages.clear();
        for page in 0..directory.pages {
            if is_changed(changes, page) {
                self.homes.push_reserved(page);
                self.pages
                    .push_reserved(page_then(directory, changes, page));
            }
        }
    }

    /// Lists the homes of these places behind those of the directory.
    pub(crate) fn list_files(&mut self, places: &[Place])
        requires { length self.old.homes.items + length places.now ≤ vec_capacity self.old.homes }
        ensures homes { self.new.homes.items ≡ self.old.homes.items ++ map (λ place. place.home) places.now }
        ensures pages { self.new.pages ≡ self.old.pages }
        ensures room { vec_capacity self.new.homes ≡ vec_capacity self.old.homes }
    {
        for place in places {
            self.homes.push_reserved(place.home);
        }
    }
}

/// Whether a page of the directory has the entry of a file that is changed.
pub(crate) fn is_changed(changes: &[Change], page: u32) -> bool
    ensures { result ≡ is_changed changes.now page }
{
    for change in changes {
        if change.file / PAGE_ENTRIES as u32 == page {
            return true;
        }
    }
    false
}

/// A page of the directory after changes.
fn page_then(directory: &Directory, changes: &[Change], page: u32) -> [u8; 4096]
    requires changes { (homes : ℕ) × AreFileChanges homes directory.now changes.now }
    requires few { HaveFewExtents (entries_then directory.now changes.now) }
    requires page { page < directory.now.pages }
    ensures { IsPageThen directory.now changes.now page result }
{
    let mut bytes = [0; 4096];
    for place in 0..PAGE_ENTRIES {
        let file = PAGE_ENTRIES * page as usize + place;
        let entry = entry_then(directory, changes, file).copied();
        write_entry(&mut bytes, place, &entry);
    }
    bytes
}
