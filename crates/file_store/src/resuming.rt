//! A store of which nothing is unsynced.
ghost use Rattle.std.specs.Prelude.{ℕ, IfOk, IfErr, MatchResult};
ghost use Rattle.file_store.specs.Opened.{IsRefusedFor, Mounts, OpensFrom, RefusesToOpen};
ghost use Rattle.file_store.specs.Store.{IsMounted};

use crate::directory::Directory;
use crate::faults::OpenFault;
use crate::opening::read_layout;
use crate::store::FileStore;
use disk_model::{SECTOR_BYTES, SectorDisk};
use sync_journal::{Journal, Version, recover_synced};

impl<D: SectorDisk> FileStore<D> {
    /// Opens the store on a device of which nothing is unsynced, as `open` does, but for its first sync: where the journal is closed nothing
    /// is written and nothing synced. That nothing is unsynced is for the caller to know: a gate that is not synced yet may be open or closed after a
    /// stop. Who doesn't know takes `open`.
    ///
    /// # Errors
    ///
    /// Those of `open`.
    pub fn resume(disk: D) -> Result<FileStore<D>, (OpenFault, D)>
        requires synced { D.keeps_model disk → (k : ℕ) → D.unsynced disk k → ⊥ }
        ensures { MatchResult result (λ store. OpensFrom D.SectorDisk disk store) (λ e. RefusesToOpen D.SectorDisk disk e.0 e.1) }
    {
        let mut disk = disk;
        match mount_synced(&mut disk) {
            Ok(directory) => Ok(FileStore {
                disk,
                journal: Journal::closed(),
                directory,
            }),
            Err(fault) => Err((fault, disk)),
        }
    }
}

/// Reads the directory and carries out an open journal, of a device of which nothing is unsynced.
fn mount_synced<D: SectorDisk>(disk: &mut D) -> Result<Directory, OpenFault>
    requires synced { D.keeps_model disk.old → (k : ℕ) → D.unsynced disk.old k → ⊥ }
    ensures run { Mounts D.SectorDisk disk.old disk.new }
    ensures ok { IfOk result (λ directory. IsMounted D.SectorDisk disk.old disk.new directory) }
    ensures err { IfErr result (λ fault. IsRefusedFor D.SectorDisk disk.old fault disk.new) }
{
    let mut sector = [0; SECTOR_BYTES];
    let directory = read_layout(disk, Version::Two, &mut sector)?;
    recover_synced(disk)?;
    Ok(directory)
}
