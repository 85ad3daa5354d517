//! Starting the machine of one mode.
ghost use Rattle.stores.specs.Store as Durable;
ghost use Rattle.sized_stores.specs.Store.{disk_of, StartsSized};
ghost use Rattle.std.specs.Prelude.{◌≡◌, IfOk, IfErr, MatchResult};
ghost use Rattle.machine.specs.Engine.{IsSoundEngine};
ghost use Rattle.machine.specs.Boot.{BootAccepts, BootLeaves, BootRefuses};
ghost use Rattle.machine.specs.StoreBoot.{BootsStore, RefusesStore};
ghost use Rattle.machine.specs.EngineBoot.{EngineBoots, EngineStarts};
ghost use Rattle.machine.specs.Fault.{fault_number, boot_fault};
ghost use Rattle.machine.specs.declared.boot.BootFault.TheVariants.{OutOfMemory};

use crate::config::Config;
use crate::engine::{Engine, device_of};
use crate::fault_log::FaultLog;
use disk_model::{DiskFault, SectorDisk};
use residency::Core;
use sized_stores::SizedStore;
use spaces::{RegionRoom, SyncRoom};
use std::alloc::Global;
use stores::{OpenFault, Store};
use swap::Swap;
use thiserror::Error;
use vm_types::Levels;

/// The fewest and the most frames.
const MIN_FRAMES: u32 = 8;

const MAX_FRAMES: u32 = 1 << 16;

/// The most slots of swap that a machine has.
pub const MAX_SLOTS: u32 = 1 << 16;

/// The sectors of a slot.
const SLOT_SECTORS: u64 = 8;

/// Why a machine doesn't start. `Display` gives its name, as the programs print it.
#[derive(Clone, Copy, Debug, PartialEq, Eq, Error)]
pub enum BootFault {
    /// Fewer than 8 or more than 65,536 frames.
    #[error("FRAMES")]
    Frames = 1,
    /// More than 65,536 slots, or more than the swap device has room for.
    #[error("SLOTS")]
    Slots = 2,
    /// Want of memory.
    #[error("OUTOFMEMORY")]
    OutOfMemory = 3,
    /// The store device failed.
    #[error("{}", OpenFault::Device)]
    Device = 4,
    /// The image has no layout of a store, as `OpenFault::BadLayout` says. Nothing was written.
    #[error("{}", OpenFault::BadLayout)]
    BadLayout = 5,
    /// The journal is open with a map that no commit writes. Nothing was written.
    #[error("{}", OpenFault::BadJournal)]
    BadJournal = 6,
}

impl BootFault {
    /// The number, 1 to 6.
    pub fn number(self) -> u8
        ensures { result ≡ fault_number self }
    {
        self as u8
    }
}

impl From<OpenFault> for BootFault {
    ghost from_gives = { λ fault boot. boot ≡ boot_fault fault };

    fn from(fault: OpenFault) -> Self {
        match fault {
            OpenFault::Device => BootFault::Device,
            OpenFault::BadLayout => BootFault::BadLayout,
            OpenFault::BadJournal => BootFault::BadJournal,
            OpenFault::Memory => BootFault::OutOfMemory,
        }
    }
}

impl<D: SectorDisk, E: SectorDisk + Drop, M: Levels> Engine<D, E, M> {
    /// Starts the engine of that mode, as `Machine::boot` starts the machine that has it: of the configuration it reads the sizes
    /// alone, before the store is asked.
    ///
    /// `Frames`, `Slots`, `BadLayout` and `BadJournal` come exactly where their texts say, unless another one
    /// comes first; `Device` exactly where the store device failed in this call. Each fault hands the store back.
    pub fn boot(
        alloc: Global,
        config: Config,
        store: D,
        swap: E,
    ) -> Result<Engine<D, E, M>, (BootFault, D)>
        ensures sound { IfOk result (λ m. IsSoundEngine D.SectorDisk E.SectorDisk m) }
        ensures boots { IfOk result (λ m. EngineBoots D.SectorDisk E.SectorDisk store m) }
        ensures starts { IfOk result (λ m. EngineStarts m config swap) }
        ensures accepts { IfOk result (λ m. BootAccepts D.SectorDisk config (E.sector_count swap) store (disk_of m.core.store)) }
        ensures moments { IfOk result (λ m. BootLeaves D.SectorDisk store (disk_of m.core.store)) }
        ensures refuses { IfErr result (λ e. BootRefuses D.SectorDisk config (E.sector_count swap) store e.0 e.1) }
        ensures err_moments { IfErr result (λ e. BootLeaves D.SectorDisk store e.1) }
    {
        if config.frames < MIN_FRAMES || config.frames > MAX_FRAMES {
            return Err((BootFault::Frames, store));
        }
        if config.slots > MAX_SLOTS || SLOT_SECTORS * u64::from(config.slots) > swap.sectors() {
            return Err((BootFault::Slots, store));
        }
        let store = match open_store(alloc, store) {
            Ok(store) => store,
            Err(fault) => return Err(fault),
        };
        let Ok(past) = FaultLog::new(alloc) else {
            return Err((BootFault::OutOfMemory, device_of(store)));
        };
        let Ok(swap) = Swap::new(alloc, swap, config.slots) else {
            return Err((BootFault::OutOfMemory, device_of(store)));
        };
        let nodes = config.frames + config.slots;
        let most = store.store.always_free_pages();
        let Ok(sync_room) = SyncRoom::new(alloc, most, nodes, store.sizes.len()) else {
            return Err((BootFault::OutOfMemory, device_of(store)));
        };
        match Core::new(alloc, store, swap, config.frames, config.slots) {
            Ok(core) => Ok(Engine {
                core,
                halted: false,
                past,
                sync_room,
                region_room: RegionRoom::new(),
            }),
            Err((_, store)) => Err((BootFault::OutOfMemory, device_of(store))),
        }
    }
}

/// Opens the store on a device, makes room in it for as many pages as every commit may take, and takes memory for other lengths of its files.
fn open_store<D: SectorDisk>(alloc: Global, disk: D) -> Result<SizedStore<D>, (BootFault, D)>
    ensures { MatchResult result (λ store. BootsStore D.SectorDisk disk store) (λ e. RefusesStore D.SectorDisk disk e.0 e.1) }
{
    let mut store = match Store::open(alloc, disk) {
        Ok(store) => store,
        Err((fault, disk)) => return Err((BootFault::from(fault), disk)),
    };
    match store.make_room_for(store.always_free_pages()) {
        Ok(()) => with_lengths(alloc, store),
        Err(DiskFault) => Err((BootFault::Device, store.into_disk())),
    }
}

/// An open store with memory for other lengths of its files, which have those that they have durably. `OutOfMemory` where the host has not
/// enough of it; the device is given back then.
fn with_lengths<D: SectorDisk>(
    alloc: Global,
    store: Store<D>,
) -> Result<SizedStore<D>, (BootFault, D)>
    requires { Durable.IsReadyStore D.SectorDisk store }
    ensures { MatchResult result (λ sized. StartsSized D.SectorDisk store sized) (λ e. (e.0 ≡ OutOfMemory) × (e.1 ≡ Durable.disk_of store)) }
{
    match SizedStore::new(alloc, store) {
        Ok(store) => Ok(store),
        Err(store) => Err((BootFault::OutOfMemory, store.into_disk())),
    }
}
