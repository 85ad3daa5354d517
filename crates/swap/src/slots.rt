//! Slots that pages are put into and got from.
ghost use Rattle.std.specs.Prelude.{◌≡◌, ◌≢◌, ℕ, ◌*◌, ◌<◌, ◌≤◌, ◌↔◌, List, length, IsTrue, Some, None, IfOk};
ghost use Rattle.swap.specs.Counts.{count_at};
ghost use Rattle.swap.specs.Written.{written_in};

use crate::pages::Pages;
use crate::share_counts::ShareCounts;
use disk_model::{DiskFault, SectorDisk};
use std::alloc::{AllocError, Global};
use thiserror::Error;
use vm_types::SlotNo;

/// A device of slots of 4,096 bytes, at most 65,536: slot `n` is sectors `8n` to `8n + 7`. Nothing that lies on it is used
/// after a stop, so nothing is synced. In contracts it is the bytes and the share count of each slot.
///
/// A slot gives back what was put into it as long as the device keeps its model.
#[derive(Drop)]
pub struct Swap<D> {
    pub(crate) pages: Pages<D>,
    pub(crate) counts: ShareCounts,
    pub ghost known: { (n : ℕ) → 0 < count_at counts n → written_in pages.written.notes n ≢ None },
    /// A slot in use holds 4,096 bytes.
    pub ghost whole: { (n : ℕ) (w : List ℕ) → 0 < count_at counts n → written_in pages.written.notes n ≡ Some w → length w ≡ 4096 },
}

/// Why a page got no slot.
#[derive(Clone, Copy, Debug, PartialEq, Eq, Error)]
pub enum PutFault {
    /// No slot is free.
    #[error("no slot is free")]
    Full,
    /// The device failed.
    #[error("{}", DiskFault)]
    Device,
}

impl From<DiskFault> for PutFault {
    ghost use Rattle.swap.specs.declared.slots.PutFault.TheVariants as PutFault;

    ghost from_gives = { λ _ fault. fault ≡ PutFault.Device };

    fn from(_: DiskFault) -> Self {
        PutFault::Device
    }
}

impl<D: SectorDisk> Swap<D> {
    ghost use Rattle.swap.specs.Slots.{slots_of, IsReady, IsInUse, AreNewSlots, AreSoundSlots};
    ghost use Rattle.swap.specs.SlotAccess.{PutsInSlot, GetsFromSlot};

    /// The first `slots` slots of a device, at most 65,536, all of them free. No later call takes memory of the host.
    ///
    /// # Errors
    /// `AllocError` where the host has not enough memory for the share counts.
    pub fn new(alloc: Global, disk: D, slots: u32) -> Result<Swap<D>, AllocError>
    where
        D: Drop,
        requires room { 8 * slots ≤ D.sector_count disk }
        requires most { slots ≤ 65536 }
        ensures ready { IfOk result (IsReady D.SectorDisk) }
        ensures fresh { IfOk result (λ swap. AreNewSlots (slots_of swap) slots) }
        ensures disk { IfOk result (λ swap. swap.pages.disk ≡ disk) }
        ensures sound { IfOk result (λ swap. AreSoundSlots (slots_of swap)) }
    {
        let counts = ShareCounts::new(alloc, slots)?;
        Ok(Swap {
            pages: Pages::new(disk),
            counts,
        })
    }

    /// Puts a page into a free slot, with one share, by one write of the device.
    ///
    /// # Errors
    /// `Full` exactly where no slot is free; then the device is not asked. `Device` only where the device failed. After
    /// either no slot is taken, and every slot in use keeps its bytes.
    #[tactic(auto, using(crate::proofs::Sound::sound_slots))]
    pub fn put(&mut self, page: &[u8; 4096]) -> Result<SlotNo, PutFault>
        requires ready { IsReady D.SectorDisk self.old }
        ensures { PutsInSlot D.SectorDisk self.old self.new page.now result }
    {
        let Some(n) = self.counts.take() else {
            return Err(PutFault::Full);
        };
        match self.pages.put(n, page) {
            Ok(()) => Ok(SlotNo(n)),
            Err(fault) => {
                self.counts.lower(n);
                Err(PutFault::from(fault))
            }
        }
    }

    /// Reads a slot in use, by one read of the device. On a fault nothing is said of `to`.
    ///
    /// # Errors
    /// Only where the device failed.
    pub fn get(&mut self, n: SlotNo, to: &mut [u8; 4096]) -> Result<(), DiskFault>
        requires ready { IsReady D.SectorDisk self.old }
        requires in_use { IsInUse (slots_of self.old) n.0 }
        ensures { GetsFromSlot D.SectorDisk self.old self.new n.0 to.new result }
    {
        self.pages.get(n.0, to)
    }
}

impl<D> Swap<D> {
    ghost use Rattle.swap.specs.Slots.{slots_of, IsInUse, IsSwapFull, AreSoundSlots, SharesSlot, ReleasesSlot, free_slots};
    ghost use Rattle.vm_types.specs.Processes.{process_limit};

    /// The number of slots, at most 65,536. The second clause is what is true of slots at all times.
    pub fn len(&self) -> u32
        ensures count { result ≡ (slots_of self.now).total }
        ensures sound { AreSoundSlots (slots_of self.now) }
    {
        self.counts.len()
    }

    /// The share count of a slot, 0 where it is free.
    pub fn count(&self, n: SlotNo) -> u8
        requires { n.0 < (slots_of self.now).total }
        ensures { result ≡ (slots_of self.now).count n.0 }
    {
        self.counts.of(n.0)
    }

    /// The number of free slots.
    pub fn free_slots(&self) -> u32
        ensures { result ≡ free_slots (slots_of self.now) }
    {
        self.counts.free_count()
    }

    /// Whether no slot is free.
    pub fn is_full(&self) -> bool
        ensures { IsTrue result ↔ IsSwapFull (slots_of self.now) }
    {
        self.counts.free_count() == 0
    }

    /// One more shares a slot in use, which fewer than 64 share. The device is not asked.
    #[tactic(auto, using(crate::proofs::Sound::sound_slots))]
    pub fn share(&mut self, n: SlotNo)
        requires in_use { IsInUse (slots_of self.old) n.0 }
        requires few { (slots_of self.old).count n.0 < process_limit }
        ensures shares { SharesSlot (slots_of self.old) (slots_of self.new) n.0 }
        ensures pages { self.new.pages ≡ self.old.pages }
        ensures sound { AreSoundSlots (slots_of self.new) }
    {
        self.counts.raise(n.0);
    }

    /// Gives back one share of a slot in use, which is free after the last. The device is not asked.
    #[tactic(auto, using(crate::proofs::Sound::sound_slots))]
    pub fn release(&mut self, n: SlotNo)
        requires { IsInUse (slots_of self.old) n.0 }
        ensures releases { ReleasesSlot (slots_of self.old) (slots_of self.new) n.0 }
        ensures pages { self.new.pages ≡ self.old.pages }
        ensures sound { AreSoundSlots (slots_of self.new) }
    {
        self.counts.lower(n.0);
    }
}
