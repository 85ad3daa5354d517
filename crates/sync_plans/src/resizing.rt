//! Sizes of files asked of the store on a device.
ghost use Rattle.std.specs.Prelude.{◌≡◌, ◌<◌, ◌+◌, ℕ, IfErr, IsTrue, IsFalse, OnOk, length};
ghost use Rattle.sync_plans.specs.Resizing.{ChangesOpenStore, HasReadOnlyPage, HasReadOnlySize, IsReadOnlyIn, MakesSlotsFree, RefusesSizes, ResizesOpenStore, ResizesStore};
ghost use Rattle.sync_plans.specs.Pages.{lent_page};
ghost use Rattle.sync_plans.specs.Requests.{StaysStore};
ghost use Rattle.pool_growth.specs.Asked.{AreFileChanges};
ghost use Rattle.pool_store.specs.Store.{info_by, IsReadyPool};

use crate::lent_pages::LentPages;
use disk_model::{SectorDisk, WriteZeros};
use pool_growth::{
    BadPages, BadSizes, ChangeRoom, FileChanges, FileSize, check_pages, commit_changes,
    propose_changes,
};
use pool_store::{Directory, OpenFault, PoolStore};
use std::alloc::Global;
use vm_types::FilePage;

/// Why files did not get these sizes.
#[derive(Clone, Copy, Debug, PartialEq, Eq)]
pub enum ResizeRefusal {
    Device,
    /// The image is of no store with a pool: files of other stores keep their lengths.
    NoPool,
    /// There was too little memory for what a store keeps there while it is open, or for the changes.
    Memory,
    /// No commit takes these sizes with these pages, or there are not as many bytes as pages.
    BadPages,
    /// A file of these sizes or pages may only be read.
    ReadOnly,
    /// There are not as many free homes in a row as a file lacks, or it has as many extents as a file may have.
    NoHomes,
}

/// The pages that come with sizes: new ones that are more than zeros, and others that were pages before.
#[derive(Clone, Copy)]
pub(crate) struct ResizedPages<'a> {
    pub fresh: &'a [FilePage],
    pub pages: &'a [FilePage],
}

fn unopened(fault: OpenFault) -> ResizeRefusal
    ensures device { result ≡ ResizeRefusal.Device → fault ≡ OpenFault.Device }
    ensures pool { result ≡ ResizeRefusal.NoPool → fault ≡ OpenFault.BadLayout }
    ensures memory { result ≡ ResizeRefusal.Memory → fault ≡ OpenFault.Memory }
    ensures pages { result ≡ ResizeRefusal.BadPages → ⊥ }
    ensures read_only { result ≡ ResizeRefusal.ReadOnly → ⊥ }
    ensures homes { result ≡ ResizeRefusal.NoHomes → ⊥ }
{
    match fault {
        OpenFault::Device => ResizeRefusal::Device,
        OpenFault::BadLayout => ResizeRefusal::NoPool,
        OpenFault::Memory => ResizeRefusal::Memory,
    }
}

/// Gives files other lengths, or makes or removes them, and makes pages of theirs durable with that, all at once: of a store with a pool. Where fewer slots are free
/// than it takes, all pages are brought home first.
pub(crate) fn resize<D: WriteZeros + Drop>(
    alloc: Global,
    disk: D,
    sizes: &[FileSize],
    pages: ResizedPages<'_>,
    source: LentPages<'_>,
) -> (D, Result<(), ResizeRefusal>)
    requires { D.keeps_model disk → (k : ℕ) → D.unsynced disk k → ⊥ }
    ensures stays { StaysStore D.SectorDisk disk result.0 }
    ensures resizes { D.keeps_model result.0 → OnOk result.1 (ResizesStore D.SectorDisk disk result.0 sizes.now pages.entry.fresh.now pages.entry.pages.now (length source.entry.pages.now) (lent_page source.entry.pages.now)) }
    ensures refused { IfErr result.1 (RefusesSizes D.SectorDisk disk result.0 sizes.now pages.entry.fresh.now pages.entry.pages.now (length source.entry.pages.now)) }
{
    let mut store = match PoolStore::resume(alloc, disk) {
        Ok(store) => store,
        Err((fault, disk)) => return (disk, Err(unopened(fault))),
    };
    let resized = resize_store(alloc, &mut store, sizes, pages, source);
    (store.into_disk(), resized)
}

/// Gives files of an open store other lengths, and makes pages durable with that.
fn resize_store<D: WriteZeros>(
    alloc: Global,
    store: &mut PoolStore<D>,
    sizes: &[FileSize],
    pages: ResizedPages<'_>,
    source: LentPages<'_>,
) -> Result<(), ResizeRefusal>
    requires ready { IsReadyPool D.SectorDisk store.old }
    requires synced { D.keeps_model store.old.disk → (k : ℕ) → D.unsynced store.old.disk k → ⊥ }
    ensures { ResizesOpenStore D.SectorDisk store.old store.new.disk sizes.now pages.entry.fresh.now pages.entry.pages.now source.entry.pages.now result }
{
    if has_read_only_size(&store.directory, sizes)
        || has_read_only_page(&store.directory, pages.pages)
    {
        return Err(ResizeRefusal::ReadOnly);
    }
    match propose_changes(alloc, store, sizes) {
        Ok(changes) => {
            let changes = FileChanges {
                changes: &changes,
                fresh: pages.fresh,
                pages: pages.pages,
            };
            change_store(alloc, store, changes, source)
        }
        Err(BadSizes::Form) => Err(ResizeRefusal::BadPages),
        Err(BadSizes::NoHomes(_)) => Err(ResizeRefusal::NoHomes),
        Err(BadSizes::Memory) => Err(ResizeRefusal::Memory),
    }
}

/// Whether a file may only be read.
fn is_read_only(directory: &Directory, file: usize) -> bool
    ensures all { IsTrue result → IsReadOnlyIn (info_by directory.now) file }
    ensures one { IsFalse result → IsReadOnlyIn (info_by directory.now) file → ⊥ }
{
    match directory.info(file) {
        Some(info) => info.read_only,
        None => false,
    }
}

/// Whether one of these sizes is of a file that may only be read.
fn has_read_only_size(directory: &Directory, sizes: &[FileSize]) -> bool
    ensures all { IsTrue result → HasReadOnlySize (info_by directory.now) sizes.now }
    ensures one { IsFalse result → HasReadOnlySize (info_by directory.now) sizes.now → ⊥ }
{
    for size in sizes {
        if is_read_only(directory, size.file as usize) {
            return true;
        }
    }
    false
}

/// Whether one of these pages is.
fn has_read_only_page(directory: &Directory, pages: &[FilePage]) -> bool
    ensures all { IsTrue result → HasReadOnlyPage (info_by directory.now) pages.now }
    ensures one { IsFalse result → HasReadOnlyPage (info_by directory.now) pages.now → ⊥ }
{
    for page in pages {
        if is_read_only(directory, usize::from(page.file)) {
            return true;
        }
    }
    false
}

/// Makes changes and pages of an open store durable all at once.
fn change_store<D: WriteZeros>(
    alloc: Global,
    store: &mut PoolStore<D>,
    asked: FileChanges<'_>,
    mut source: LentPages<'_>,
) -> Result<(), ResizeRefusal>
    requires ready { IsReadyPool D.SectorDisk store.old }
    requires synced { D.keeps_model store.old.disk → (k : ℕ) → D.unsynced store.old.disk k → ⊥ }
    requires changes { AreFileChanges store.old.journal.sizes.homes store.old.directory asked.changes.now }
    ensures { ChangesOpenStore D.SectorDisk store.old store.new.disk asked.entry.changes.now asked.entry.fresh.now asked.entry.pages.now source.entry.pages.now result }
{
    if !is_sum(source.pages.len(), asked.fresh.len(), asked.pages.len()) {
        return Err(ResizeRefusal::BadPages);
    }
    let sizes = store.journal.sizes();
    let Ok(mut room) = ChangeRoom::new(alloc, sizes, store.directory.pages) else {
        return Err(ResizeRefusal::Memory);
    };
    make_slots_free(store, asked)?;
    match commit_changes(store, &mut room, asked, &mut source) {
        Ok(()) => Ok(()),
        Err(_) => Err(ResizeRefusal::Device),
    }
}

/// Whether a number is the sum of two others.
fn is_sum(count: usize, one: usize, other: usize) -> bool
    ensures all { IsTrue result → count ≡ one + other }
    ensures one { IsFalse result → count ≡ one + other → ⊥ }
{
    count >= one && count - one == other
}

/// Whether a commit takes these pages; where too few slots are free, all pages of the store are brought home first.
fn make_slots_free<D: SectorDisk>(
    store: &mut PoolStore<D>,
    asked: FileChanges<'_>,
) -> Result<(), ResizeRefusal>
    requires ready { IsReadyPool D.SectorDisk store.old }
    requires changes { AreFileChanges store.old.journal.sizes.homes store.old.directory asked.changes.now }
    ensures { MakesSlotsFree D.SectorDisk store.old store.new asked.entry.changes.now asked.entry.fresh.now asked.entry.pages.now result }
{
    match check_pages(store, asked) {
        Ok(()) => return Ok(()),
        Err(fault) if fault != BadPages::TooMany => return Err(ResizeRefusal::BadPages),
        Err(_) => {}
    }
    match store.tidy() {
        Ok(()) => {}
        Err(_) => return Err(ResizeRefusal::Device),
    }
    match check_pages(store, asked) {
        Ok(()) => Ok(()),
        Err(_) => Err(ResizeRefusal::BadPages),
    }
}
