//! A store taken up as it stands.
ghost use Rattle.std.specs.Prelude.{ℕ, ◌≡◌, MatchResult};
ghost use Rattle.pool_store.specs.Resume.{ResumesStore, RefusesToResume, store_on};

use crate::directory::Directory;
use crate::faults::OpenFault;
use crate::head::read_head;
use crate::reading::read_directory;
use crate::room::CommitRoom;
use crate::store::PoolStore;
use disk_model::SectorDisk;
use pool_journal::PoolJournal;
use std::alloc::Global;

/// What is kept in memory of a store that was found on a device.
#[derive(Drop)]
pub(crate) struct Found {
    /// Its journal.
    pub journal: PoolJournal,
    /// What its files are.
    pub directory: Directory,
    /// Room for the homes of its commits.
    pub room: CommitRoom,
}

impl<D: SectorDisk> PoolStore<D> {
    /// Opens the store on a device of which nothing is unsynced, and writes nothing: the next commit goes on from the map that the gate names. What the device did
    /// at first is what it does now, after every stop from now on, and at every moment of the call.
    ///
    /// It syncs nothing. That the device has nothing unsynced is asked of the caller: if a gate were written and not synced yet, a stop might still leave the one
    /// before, which names the other map, and that one the next commit writes. After a stop, or where the device may hold what another has written, take `open`.
    ///
    /// # Errors
    ///
    /// Those of `open`.
    pub fn resume(alloc: Global, disk: D) -> Result<PoolStore<D>, (OpenFault, D)>
        requires synced { D.keeps_model disk → (k : ℕ) → D.unsynced disk k → ⊥ }
        ensures { MatchResult result (λ store. ResumesStore D.SectorDisk disk store) (λ e. RefusesToResume D.SectorDisk disk e.0 e.1) }
    {
        let mut disk = disk;
        match take_up(alloc, &mut disk) {
            Ok(found) => Ok(PoolStore::on(disk, found)),
            Err(fault) => Err((fault, disk)),
        }
    }
}

impl<D> PoolStore<D> {
    /// The store on this device of which this was found.
    pub(crate) fn on(disk: D, found: Found) -> PoolStore<D>
        ensures { result ≡ store_on found disk }
    {
        PoolStore {
            disk,
            journal: found.journal,
            directory: found.directory,
            room: found.room,
        }
    }
}

/// Finds the store on a device of which nothing is unsynced. Nothing is written.
pub(crate) fn take_up<D: SectorDisk>(alloc: Global, disk: &mut D) -> Result<Found, OpenFault>
    requires synced { D.keeps_model disk.old → (k : ℕ) → D.unsynced disk.old k → ⊥ }
    ensures { MatchResult result
        (λ found. ResumesStore D.SectorDisk disk.old (store_on found disk.new)) (λ fault. RefusesToResume D.SectorDisk disk.old fault disk.new) }
{
    let (sizes, pages) = read_head(disk)?;
    let mut journal = PoolJournal::new(alloc, sizes)?;
    let room = CommitRoom::new(alloc, sizes)?;
    journal.resume(disk)?;
    let directory = read_directory(alloc, disk, &journal, pages)?;
    Ok(Found {
        journal,
        directory,
        room,
    })
}
