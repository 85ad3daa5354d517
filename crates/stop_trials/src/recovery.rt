//! What the files hold that a stop leaves.
ghost use Rattle.std.specs.Prelude.{◌≡◌, ◌++◌, IfOk, IfErr, OnOk, IsErrOf};
ghost use Rattle.disk_model.specs.Moments.{Touches, Nothing};
ghost use Rattle.disk_model.specs.SimDisk.{sectors_in, sector_of};
ghost use Rattle.stores.specs.Images.{IsBadLayout, IsBadJournal};
ghost use Rattle.stores.specs.Store.{IsReadyStore, disk_of};
ghost use Rattle.stores.specs.declared.faults.OpenFault.{OpenFault};
ghost use Rattle.stop_trials.specs.Standing.{standing_bytes, standing_contents, IsUnopenedFor};

use crate::faults::TrialFault;
use disk_model::{SectorDisk, SimDisk};
use programs::{ShowFault, show_opened};
use std::alloc::Global;
use stores::Store;
use vm_types::FILES;

/// Opens the store on a device, which carries out what a stop left, and gives the lengths and bytes of all its files, one
/// file after another.
///
/// # Errors
///
/// `Open` where the store can't be opened, `ReadFailed` where its device fails, and `OutOfMemory` for want of room for the
/// bytes.
pub(crate) fn recovered(alloc: Global, disk: SimDisk) -> Result<Vec<u8>, TrialFault>
    ensures layout { OnOk result (IsBadLayout (sectors_in disk) (sector_of disk) → ⊥) }
    ensures journal { OnOk result (IsBadJournal (sectors_in disk) (sector_of disk) → ⊥) }
    ensures bytes { IfOk result (λ bytes. bytes.items ≡ standing_contents (sectors_in disk) (sector_of disk)) }
    ensures refused { IfErr result (IsUnopenedFor (sectors_in disk) (sector_of disk)) }
{
    let mut store = match Store::open(alloc, disk) {
        Ok(store) => store,
        Err((fault, _)) => return Err(TrialFault::Open(fault)),
    };
    let bytes = contents(alloc, &mut store)?;
    Ok(bytes)
}

/// The lengths and bytes of all files of an open store, one file after another.
fn contents<D: SectorDisk>(alloc: Global, store: &mut Store<D>) -> Result<Vec<u8>, TrialFault>
    requires { IsReadyStore D.SectorDisk store.old }
    ensures unopened { (fault : OpenFault) → IsErrOf result (TrialFault.Open fault) → ⊥ }
    ensures kept { D.keeps_model (disk_of store.new) → D.keeps_model (disk_of store.old) }
    ensures bytes { D.keeps_model (disk_of store.new) → IfOk result (λ bytes. bytes.items ≡ standing_contents (D.sector_count (disk_of store.old)) (D.content (disk_of store.old))) }
{
    let mut bytes = Vec::new(alloc);
    for file in 0..FILES as u32 {
        match add_file(store, file, &mut bytes) {
            Ok(()) => {}
            Err(fault) => return Err(fault),
        }
    }
    Ok(bytes)
}

/// Adds the length of a file in eight bytes, the lowest first, and its bytes: none where there is no such file.
fn add_file<D: SectorDisk>(
    store: &mut Store<D>,
    file: u32,
    bytes: &mut Vec<u8>,
) -> Result<(), TrialFault>
    requires { IsReadyStore D.SectorDisk store.old }
    ensures ready { IsReadyStore D.SectorDisk store.new }
    ensures unopened { (fault : OpenFault) → IsErrOf result (TrialFault.Open fault) → ⊥ }
    ensures size { D.sector_count (disk_of store.new) ≡ D.sector_count (disk_of store.old) }
    ensures kept { D.keeps_model (disk_of store.new) → D.keeps_model (disk_of store.old) }
    ensures touches { D.keeps_model (disk_of store.new) → Touches D.SectorDisk Nothing (disk_of store.old) (disk_of store.new) }
    ensures added { D.keeps_model (disk_of store.new) → OnOk result (bytes.new.items ≡ bytes.old.items ++ standing_bytes (D.sector_count (disk_of store.old)) (D.content (disk_of store.old)) file) }
{
    let Some(info) = store.info(u64::from(file)) else {
        return Ok(());
    };
    bytes.extend_from_slice(&info.length.to_le_bytes())?;
    match show_opened(store, file, bytes) {
        Ok(()) => Ok(()),
        Err(ShowFault::Open(fault)) => Err(TrialFault::Open(fault)),
        Err(ShowFault::NoFile) => Err(TrialFault::NoFile(file)),
        Err(ShowFault::Read) => Err(TrialFault::ReadFailed),
        Err(ShowFault::Write) => Err(TrialFault::OutOfMemory),
    }
}
