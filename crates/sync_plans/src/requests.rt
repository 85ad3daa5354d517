//! What is asked of the store on a device.
ghost use Rattle.std.specs.Prelude.{◌≡◌, ℕ, List, Option, OnOk, IfOk, IfErr, length};
ghost use Rattle.vm_types.specs.declared.file.FileInfo.{FileInfo};
ghost use Rattle.disk_model.specs.Moments.{LeavesOnly, LeavesNow};
ghost use Rattle.file_store.specs.Standing.{IsPageOf};
ghost use Rattle.stores.specs.Commit.{ArePages};
ghost use Rattle.stores.specs.Images.{StandsFor, StandsForEither, capacity_pages, file_info};
ghost use Rattle.sync_plans.specs.Pages.{lent_page};
ghost use Rattle.sync_plans.specs.Requests.{IsStore, AreReadOnly, RefusesOn, StaysStore, OpensStore, TidiesOn, CommitsStore};

use crate::lent_pages::LentPages;
use batches::{BadBatch, check_page, check_pages};
use disk_model::SectorDisk;
use std::alloc::Global;
use stores::{OpenFault, Store};
use vm_types::{FileInfo, FilePage};

/// Why a request was not carried out.
#[derive(Clone, Copy, Debug, PartialEq, Eq)]
pub enum Refusal {
    Device,
    BadLayout,
    BadJournal,
    BadPages,
    ReadOnly,
    /// There was too little memory for what a store with a pool keeps there while it is open.
    Memory,
}

fn unopened(fault: OpenFault) -> Refusal
    ensures device { result ≡ Refusal.Device → fault ≡ OpenFault.Device }
    ensures layout { result ≡ Refusal.BadLayout → fault ≡ OpenFault.BadLayout }
    ensures journal { result ≡ Refusal.BadJournal → fault ≡ OpenFault.BadJournal }
    ensures memory { result ≡ Refusal.Memory → fault ≡ OpenFault.Memory }
    ensures pages { result ≡ Refusal.BadPages → ⊥ }
    ensures read_only { result ≡ Refusal.ReadOnly → ⊥ }
{
    match fault {
        OpenFault::Device => Refusal::Device,
        OpenFault::BadLayout => Refusal::BadLayout,
        OpenFault::BadJournal => Refusal::BadJournal,
        OpenFault::Memory => Refusal::Memory,
    }
}

fn untaken(fault: BadBatch) -> Refusal
    ensures pages { result ≡ Refusal.BadPages → fault ≡ BadBatch.BadPages }
    ensures read_only { result ≡ Refusal.ReadOnly → fault ≡ BadBatch.ReadOnly }
    ensures device { result ≡ Refusal.Device → ⊥ }
    ensures layout { result ≡ Refusal.BadLayout → ⊥ }
    ensures journal { result ≡ Refusal.BadJournal → ⊥ }
    ensures memory { result ≡ Refusal.Memory → ⊥ }
{
    match fault {
        BadBatch::BadPages => Refusal::BadPages,
        BadBatch::ReadOnly => Refusal::ReadOnly,
    }
}

/// Opens the store and leaves it.
pub(crate) fn open<D: SectorDisk + Drop>(alloc: Global, disk: D) -> (D, Result<(), Refusal>)
    requires { D.keeps_model disk → (k : ℕ) → D.unsynced disk k → ⊥ }
    ensures stays { StaysStore D.SectorDisk disk result.0 }
    // Whatever comes of it, at any moment of the call the image stands for the files that it stood for.
    ensures any_moment { D.keeps_model result.0 → (files : ℕ → Option FileInfo) (before : ℕ → ℕ → List ℕ)
        → LeavesNow D.SectorDisk disk (StandsFor (D.sector_count disk) files before)
        → LeavesOnly D.SectorDisk disk result.0 (StandsForEither (D.sector_count disk) files before before) }
    ensures opens { D.keeps_model result.0 → OnOk result.1 (OpensStore D.SectorDisk disk result.0) }
    ensures refused { IfErr result.1 (RefusesOn D.SectorDisk disk result.0 ⊥ ⊥) }
{
    match Store::open(alloc, disk) {
        Ok(store) => (store.into_disk(), Ok(())),
        Err((fault, disk)) => (disk, Err(unopened(fault))),
    }
}

/// Brings all pages of the store home, and leaves it.
pub(crate) fn tidy<D: SectorDisk + Drop>(alloc: Global, disk: D) -> (D, Result<(), Refusal>)
    requires { D.keeps_model disk → (k : ℕ) → D.unsynced disk k → ⊥ }
    ensures stays { StaysStore D.SectorDisk disk result.0 }
    // Whatever comes of it, at any moment of the call the image stands for the files that it stood for.
    ensures any_moment { D.keeps_model result.0 → (files : ℕ → Option FileInfo) (before : ℕ → ℕ → List ℕ)
        → LeavesNow D.SectorDisk disk (StandsFor (D.sector_count disk) files before)
        → LeavesOnly D.SectorDisk disk result.0 (StandsForEither (D.sector_count disk) files before before) }
    ensures tidies { D.keeps_model result.0 → OnOk result.1 (TidiesOn D.SectorDisk disk result.0) }
    ensures refused { IfErr result.1 (RefusesOn D.SectorDisk disk result.0 ⊥ ⊥) }
{
    let mut store = match Store::resume(alloc, disk) {
        Ok(store) => store,
        Err((fault, disk)) => return (disk, Err(unopened(fault))),
    };
    let tidied = store.tidy();
    let disk = store.into_disk();
    match tidied {
        Ok(()) => (disk, Ok(())),
        Err(_) => (disk, Err(Refusal::Device)),
    }
}

/// The facts of a file, where the store has it.
pub(crate) fn facts<D: SectorDisk + Drop>(
    alloc: Global,
    disk: D,
    file: u16,
) -> (D, Result<Option<FileInfo>, Refusal>)
    requires synced { D.keeps_model disk → (k : ℕ) → D.unsynced disk k → ⊥ }
    ensures facts { D.keeps_model result.0 → IfOk result.1 (λ info. info ≡ file_info (D.sector_count disk) (D.content disk) file) }
    ensures store { D.keeps_model result.0 → OnOk result.1 (IsStore (D.sector_count disk) (D.content disk)) }
    ensures refused { IfErr result.1 (RefusesOn D.SectorDisk disk result.0 ⊥ ⊥) }
{
    match Store::resume(alloc, disk) {
        Ok(store) => {
            let info = store.file(file);
            (store.into_disk(), Ok(info))
        }
        Err((fault, disk)) => (disk, Err(unopened(fault))),
    }
}

/// Reads a page.
pub(crate) fn read<D: SectorDisk + Drop>(
    alloc: Global,
    disk: D,
    page: FilePage,
    to: &mut [u8; 4096],
) -> (D, Result<(), Refusal>)
    requires synced { D.keeps_model disk → (k : ℕ) → D.unsynced disk k → ⊥ }
    ensures page { D.keeps_model result.0 → (files : ℕ → Option FileInfo) (pages : ℕ → ℕ → List ℕ) → LeavesNow D.SectorDisk disk (StandsFor (D.sector_count disk) files pages)
        → IsPageOf files page.file page.page → OnOk result.1 (to.new ≡ pages page.file page.page) }
    ensures inside { D.keeps_model result.0 → OnOk result.1 (IsPageOf (file_info (D.sector_count disk) (D.content disk)) page.file page.page) }
    ensures store { D.keeps_model result.0 → OnOk result.1 (IsStore (D.sector_count disk) (D.content disk)) }
    ensures refused { IfErr result.1 (RefusesOn D.SectorDisk disk result.0 (D.keeps_model result.0 → IsPageOf (file_info (D.sector_count disk) (D.content disk)) page.file page.page → ⊥) ⊥) }
{
    let mut store = match Store::resume(alloc, disk) {
        Ok(store) => store,
        Err((fault, disk)) => return (disk, Err(unopened(fault))),
    };
    if !check_page(&store, page) {
        return (store.into_disk(), Err(Refusal::BadPages));
    }
    let read = store.read_page(page, to);
    let disk = store.into_disk();
    match read {
        Ok(()) => (disk, Ok(())),
        Err(_) => (disk, Err(Refusal::Device)),
    }
}

/// Makes pages durable all at once. Where fewer slots are free than they are, all pages are brought home first.
pub(crate) fn commit<D: SectorDisk + Drop>(
    alloc: Global,
    disk: D,
    pages: &[FilePage],
    mut source: LentPages<'_>,
) -> (D, Result<(), Refusal>)
    requires synced { D.keeps_model disk → (k : ℕ) → D.unsynced disk k → ⊥ }
    requires bytes { length source.pages.now ≡ length pages.now }
    ensures stays { StaysStore D.SectorDisk disk result.0 }
    ensures commits { D.keeps_model result.0 → OnOk result.1 (CommitsStore D.SectorDisk disk result.0 pages.now (lent_page source.entry.pages.now)) }
    ensures refused { IfErr result.1 (RefusesOn D.SectorDisk disk result.0
        (D.keeps_model result.0 → ArePages (file_info (D.sector_count disk) (D.content disk)) (capacity_pages (D.sector_count disk) (D.content disk)) pages.now → ⊥)
        (D.keeps_model result.0 → AreReadOnly (D.sector_count disk) (D.content disk) pages.now)) }
{
    let mut store = match Store::resume(alloc, disk) {
        Ok(store) => store,
        Err((fault, disk)) => return (disk, Err(unopened(fault))),
    };
    match check_pages(&store, store.capacity_pages(), pages) {
        Ok(()) => {}
        Err(fault) => return (store.into_disk(), Err(untaken(fault))),
    }
    match store.make_room_for(pages.len()) {
        Ok(()) => {}
        Err(_) => return (store.into_disk(), Err(Refusal::Device)),
    }
    let committed = store.commit(pages, &mut source);
    let disk = store.into_disk();
    match committed {
        Ok(()) => (disk, Ok(())),
        Err(_) => (disk, Err(Refusal::Device)),
    }
}
