//! Pages of files and objects that lose what memory and swap hold of them.
ghost use Rattle.std.specs.Prelude.{◌≡◌};
ghost use Rattle.frames.specs.FrameTable.{IsFrame};
ghost use Rattle.page_cache.specs.declared.place.Place.TheVariants.{Frame, Slot};
ghost use Rattle.residency.specs.Picture.{picture_of};
ghost use Rattle.residency.specs.Parts.{IsFit};
ghost use Rattle.residency.specs.Steps.{HasNoEntry};
ghost use Rattle.residency.specs.DroppedPages.{DropsPage};

use crate::kernel::Core;
use memory::forget_pages;
use page_cache::Place;
use vm_types::{FrameNo, Levels, PageKey, SlotNo};

impl<D, E, M: Levels> Core<D, E, M> {
    /// Forgets a page of a file or an object, where no page that stands on it has an entry: it is at home and untouched, and the
    /// frame or the slot that it had is free. It isn't written: what was stored to a page of a file and isn't durable is lost, and a
    /// page of an object is zeros again.
    pub fn forget(&mut self, page: PageKey)
        requires fit { IsFit (picture_of self.old) }
        requires bare { HasNoEntry (picture_of self.old) page }
        ensures { DropsPage self.old self.new page }
    {
        match self.cache.place(page) {
            Place::Home => {}
            Place::Frame(frame) => self.forget_frame(page, frame),
            Place::Slot(slot) => self.forget_slot(page, slot),
        }
    }

    /// The same of a page in a frame.
    fn forget_frame(&mut self, page: PageKey, frame: FrameNo)
        requires fit { IsFit (picture_of self.old) }
        requires bare { HasNoEntry (picture_of self.old) page }
        requires placed { (picture_of self.old).place page ≡ Frame frame }
        ensures { DropsPage self.old self.new page }
    {
        self.cache.clean(page);
        self.cache.set_place(page, Place::Home);
        forget_pages(&mut self.frames, frame);
        self.frames.release(frame);
    }

    /// The same of a page in a slot.
    fn forget_slot(&mut self, page: PageKey, slot: SlotNo)
        requires fit { IsFit (picture_of self.old) }
        requires placed { (picture_of self.old).place page ≡ Slot slot }
        ensures { DropsPage self.old self.new page }
    {
        self.cache.clean(page);
        self.cache.set_place(page, Place::Home);
        self.swap.release(slot);
    }
}
