//! Room for commits of lengths.
ghost use Rattle.std.specs.Prelude.{◌≡◌, IfOk, vec_capacity, length};
ghost use Rattle.directories.specs.Kinds.{IsDirectorySize};
ghost use Rattle.pool_journal.specs.Sizes.{IsSized};
ghost use Rattle.sized_stores.specs.Room.{HasListRoom, HasSizeRoom};

use growth::Change;
use pool_growth::{ChangeRoom, FileSize};
use pool_journal::PoolSizes;
use std::alloc::{AllocError, Global};
use vm_types::FilePage;

/// How many files a page of the directory has places for.
const PAGE_FILES: usize = 16;

/// Room for one commit of lengths after the other.
#[derive(Drop)]
pub struct SizeRoom {
    /// What files are to be.
    pub(crate) sizes: Vec<FileSize>,
    /// The changes of the directory that make them so.
    pub(crate) changes: Vec<Change>,
    /// Their pages: new ones, and others.
    pub(crate) fresh: PageList,
    pub(crate) kept: PageList,
    /// Room for what goes into slots.
    pub(crate) slots: ChangeRoom,
}

/// Pages, and in which place of a caller's list the first ones of them stand.
#[derive(Drop)]
pub(crate) struct PageList {
    pub pages: Vec<FilePage>,
    pub places: Vec<u32>,
}

impl SizeRoom {
    /// Room for a store of these sizes with a directory of so many pages, 1 to 256.
    pub(crate) fn new(alloc: Global, sizes: PoolSizes, pages: u32) -> Result<SizeRoom, AllocError>
        requires sized { IsSized sizes }
        requires pages { IsDirectorySize pages }
        ensures { IfOk result (HasSizeRoom sizes.blocks pages) }
    {
        let files = PAGE_FILES * pages as usize;
        let most = sizes.places() as usize;
        Ok(SizeRoom {
            sizes: Vec::with_capacity(alloc, files)?,
            changes: Vec::with_capacity(alloc, files)?,
            fresh: PageList::new(alloc, most)?,
            kept: PageList::new(alloc, most)?,
            slots: ChangeRoom::new(alloc, sizes, pages)?,
        })
    }
}

impl PageList {
    fn new(alloc: Global, most: usize) -> Result<PageList, AllocError>
        ensures { IfOk result (HasListRoom most) }
    {
        Ok(PageList {
            pages: Vec::with_capacity(alloc, most)?,
            places: Vec::with_capacity(alloc, most)?,
        })
    }

    /// No pages.
    pub(crate) fn clear(&mut self)
        ensures pages { length self.new.pages.items ≡ 0 }
        ensures places { length self.new.places.items ≡ 0 }
        ensures room { (vec_capacity self.new.pages ≡ vec_capacity self.old.pages) × (vec_capacity self.new.places ≡ vec_capacity self.old.places) }
    {
        self.pages.clear();
        self.places.clear();
    }
}
