//! What the calls above do to memory, a step at a time.
ghost use Rattle.std.specs.Prelude.{◌≡◌, true};
ghost use Rattle.vm_types.specs.declared.object.PageKey.TheVariants.{File, Object};
ghost use Rattle.vm_types.specs.Objects.{is_named};
ghost use Rattle.file_store.specs.Standing.{IsPageOf};
ghost use Rattle.sized_stores.specs.Store.{IsReadySized};
ghost use Rattle.page_cache.specs.declared.place.Place.TheVariants.{Home, Slot};
ghost use Rattle.swap.specs.Slots.{IsReady};
ghost use Rattle.residency.specs.Picture.{picture_of};
ghost use Rattle.residency.specs.Parts.{IsFit};
ghost use Rattle.residency.specs.AskedFrames.{ReadsFromHome, ReadsFromSlot, TakesBlank, TakesOwnFrame, TakesTable};

use crate::kernel::Core;
use crate::obtaining::obtain;
use disk_model::{DiskFault, SectorDisk};
use frames::Role;
use memory::take_table;
use page_cache::Place;
use vm_types::{FilePage, FrameNo, Levels, NoFree, ObjectPage, PageKey, SlotNo, Stall, Vpn};

impl<D, E: SectorDisk, M: Levels> Core<D, E, M> {
    /// A free frame of zeros, taken for that page as a process's own. No entry names it yet. Where none is free another is given
    /// up for it, but not the one to keep.
    ///
    /// # Errors
    /// As `obtain`.
    pub fn take_own(&mut self, page: Vpn, keep: Option<FrameNo>) -> Result<FrameNo, Stall>
        requires fit { IsFit (picture_of self.old) }
        requires swap { IsReady E.SectorDisk self.old.swap }
        ensures { TakesOwnFrame E.SectorDisk self.old self.new page keep result }
    {
        obtain(self, keep)?;
        match self.frames.take(Role::Private) {
            Ok(own) => {
                self.page_of[own.0 as usize] = page.get();
                Ok(own)
            }
            Err(NoFree) => unreachable!(),
        }
    }

    /// A free frame of zeros, taken for a table that is in no tree yet: to be linked, or to be the root of a process.
    ///
    /// # Errors
    /// As `obtain`.
    pub fn take_table(&mut self) -> Result<FrameNo, Stall>
        requires fit { IsFit (picture_of self.old) }
        requires swap { IsReady E.SectorDisk self.old.swap }
        ensures { TakesTable E.SectorDisk self.old self.new result }
    {
        obtain(self, None)?;
        match take_table(&mut self.frames) {
            Ok(table) => Ok(table),
            Err(NoFree) => unreachable!(),
        }
    }

    /// Reads a page of a file or an object, which lies in that slot, into a free frame, where it lies afterwards. Its slot is given back.
    ///
    /// # Errors
    /// As `obtain`; and `SwapDevice` where the swap device failed as the slot was read. The page stays in its slot then, and no
    /// frame is taken.
    pub fn bring_back(&mut self, page: PageKey, slot: SlotNo) -> Result<FrameNo, Stall>
        requires fit { IsFit (picture_of self.old) }
        requires swap { IsReady E.SectorDisk self.old.swap }
        requires there { (picture_of self.old).place page ≡ Slot slot }
        ensures { ReadsFromSlot E.SectorDisk self.old self.new page slot result }
    {
        obtain(self, None)?;
        let Ok(frame) = self.frames.take(Role::Cache) else {
            unreachable!();
        };
        match self.swap.get(slot, self.frames.bytes_mut(frame)) {
            Ok(()) => {
                self.cache.set_place(page, Place::Frame(frame));
                self.swap.release(slot);
                Ok(frame)
            }
            Err(DiskFault) => {
                self.frames.release(frame);
                Err(Stall::SwapDevice)
            }
        }
    }

    /// Takes a free frame of zeros for a page of an object that a process names and that lies at home, which is zeros: it lies there
    /// afterwards.
    ///
    /// # Errors
    /// As `obtain`. The page stays at home then.
    pub fn bring_blank(&mut self, page: ObjectPage) -> Result<FrameNo, Stall>
        requires fit { IsFit (picture_of self.old) }
        requires swap { IsReady E.SectorDisk self.old.swap }
        requires named { is_named (picture_of self.old).at page.object page.page ≡ true }
        requires home { (picture_of self.old).place (Object page) ≡ Home }
        ensures { TakesBlank E.SectorDisk self.old self.new (Object page) result }
    {
        obtain(self, None)?;
        let Ok(frame) = self.frames.take(Role::Cache) else {
            unreachable!();
        };
        self.cache
            .set_place(PageKey::Object(page), Place::Frame(frame));
        Ok(frame)
    }
}

impl<D: SectorDisk, E: SectorDisk, M: Levels> Core<D, E, M> {
    /// Reads a file page, which begins inside its file and lies at home, into a free frame, with zeros from where its file was cut
    /// off: it lies there afterwards.
    ///
    /// # Errors
    /// As `obtain`, and then the store isn't read; `StoreDevice` exactly where the store's device failed. The page stays at home
    /// then, and no frame is taken.
    pub fn bring_in(&mut self, page: FilePage) -> Result<FrameNo, Stall>
        requires fit { IsFit (picture_of self.old) }
        requires store { IsReadySized D.SectorDisk self.old.store }
        requires swap { IsReady E.SectorDisk self.old.swap }
        requires inside { IsPageOf (picture_of self.old).files page.file page.page }
        requires home { (picture_of self.old).place (File page) ≡ Home }
        ensures { ReadsFromHome D.SectorDisk E.SectorDisk self.old self.new page result }
    {
        obtain(self, None)?;
        let Ok(frame) = self.frames.take(Role::Cache) else {
            unreachable!();
        };
        match self.store.read_page(page, self.frames.bytes_mut(frame)) {
            Ok(()) => {
                self.cache
                    .set_place(PageKey::File(page), Place::Frame(frame));
                Ok(frame)
            }
            Err(DiskFault) => {
                self.frames.release(frame);
                Err(Stall::StoreDevice)
            }
        }
    }
}
