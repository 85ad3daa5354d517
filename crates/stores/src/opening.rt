//! A store found on a device.
ghost use Rattle.std.specs.Prelude.{◌≡◌, ℕ, true, false, MatchResult};
ghost use Rattle.disk_model.specs.Stop.{Image};
ghost use Rattle.disk_model.specs.Moments.{Nothing};
ghost use Rattle.stores.specs.Images.{is_pool, SaysMostOf, StandsAs};
ghost use Rattle.stores.specs.Opened.{OpensFrom, OpensWith, RefusesToOpen, LeftInARow};

use crate::faults::OpenFault;
use crate::marks::has_pool;
use crate::store::Store;
use disk_model::SectorDisk;
use file_store::FileStore;
use pool_store::PoolStore;
use std::alloc::Global;

impl<D: SectorDisk> Store<D> {
    /// Opens the store on a device, as a stop left it or as whoever had it last in this program: what he wrote may be unsynced still. Its
    /// mark says which layout it has; all is synced, and what a stop left is carried out: of layout 2 an open journal is copied home, of
    /// layout 4 the map is written anew. What the device did at first is what it does now, and after every stop from now on; and where nothing was
    /// unsynced, so does every image that a stop might leave meanwhile, any number of times in a row.
    ///
    /// # Errors
    ///
    /// `BadLayout` and `BadJournal` come exactly where the image is so, unless memory is short or the device fails first, and `Memory` only of a store
    /// of layout 4; nothing was written then. `Device` comes exactly where the device failed. Each fault hands the device back.
    pub fn open(alloc: Global, disk: D) -> Result<Store<D>, (OpenFault, D)>
        ensures { MatchResult result (λ store. OpensFrom D.SectorDisk disk store) (λ e. RefusesToOpen D.SectorDisk disk e.0 e.1) }
    {
        // No store lies on a device without a sector.
        if disk.sectors() == 0 {
            return Err((OpenFault::BadLayout, disk));
        }
        let mut disk = disk;
        match has_pool(&mut disk) {
            Ok(true) => open_pool(alloc, disk),
            Ok(false) => open_journal(disk),
            Err(fault) => Err((OpenFault::from(fault), disk)),
        }
    }
}

/// It does nothing: its contract is a law. Whatever image any number of stops in a row leave, each within an opening of
/// what the one before left, stands for the files of the first image, and every commit may take as many pages as that one said.
pub fn stops_in_a_row<D: SectorDisk>(_disk: &D)
    ensures stands { (sectors n : ℕ) (first last : Image) → LeftInARow D.SectorDisk sectors n first last → StandsAs sectors first last }
    ensures most { (sectors n : ℕ) (first last : Image) → LeftInARow D.SectorDisk sectors n first last → SaysMostOf sectors first last }
{}

/// Opens a store of layout 4.
fn open_pool<D: SectorDisk>(alloc: Global, disk: D) -> Result<Store<D>, (OpenFault, D)>
    requires { D.keeps_model disk → is_pool (D.content disk) ≡ true }
    ensures { MatchResult result (λ store. OpensWith D.SectorDisk Nothing disk store) (λ e. RefusesToOpen D.SectorDisk disk e.0 e.1) }
{
    match PoolStore::open(alloc, disk) {
        Ok(store) => Ok(Store::Pool(store)),
        Err((fault, disk)) => Err((OpenFault::from(fault), disk)),
    }
}

/// Opens a store of layout 2.
fn open_journal<D: SectorDisk>(disk: D) -> Result<Store<D>, (OpenFault, D)>
    requires { D.keeps_model disk → is_pool (D.content disk) ≡ false }
    ensures { MatchResult result (λ store. OpensWith D.SectorDisk Nothing disk store) (λ e. RefusesToOpen D.SectorDisk disk e.0 e.1) }
{
    match FileStore::open(disk) {
        Ok(store) => Ok(Store::Journal(store)),
        Err((fault, disk)) => Err((OpenFault::from(fault), disk)),
    }
}
