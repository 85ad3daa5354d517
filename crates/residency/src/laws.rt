//! A law of the frames that are given up. The function does nothing: its contract is the law.
ghost use Rattle.std.specs.Prelude.{ℕ, Option, None, Ok};
ghost use Rattle.vm_types.specs.declared.number.FrameNo.{FrameNo};
ghost use Rattle.frames.specs.FrameTable.{IsFull};
ghost use Rattle.vm_types.specs.declared.object.PageKey.{PageKey};
ghost use Rattle.residency.specs.AskedFrames.{Obtains, SeeksFrame, TakesOwnFrame};
ghost use Rattle.residency.specs.Calls.{ObtainsCached};
ghost use Rattle.residency.specs.Chances.{GivesChance};
ghost use Rattle.residency.specs.Picture.{picture_of};
ghost use Rattle.residency.specs.Views.{IsLeftBut};
ghost use Rattle.residency.specs.declared.kernel.Core.{Core};

use crate::kernel::Core;
use disk_model::SectorDisk;
use vm_types::Levels;

/// The second chance: where a frame is obtained, each page that was accessed keeps its entry but for A, unless every frame that might have been given
/// up had its mark. So it is where the frame is taken for a process's own page, or brought a page of a file or an object, and where it is put to any
/// use while none was free.
pub fn second_chance<D, E: SectorDisk, M: Levels>(_core: &Core<D, E, M>)
    ensures obtained { (old new : Core D E M M.Levels) (keep : Option FrameNo) (n : FrameNo) → Obtains E.SectorDisk old new keep (Ok n)
        → GivesChance (picture_of old) (picture_of new) keep }
    ensures own { (old new : Core D E M M.Levels) (page : ℕ) (keep : Option FrameNo) (n : FrameNo) → TakesOwnFrame E.SectorDisk old new page keep (Ok n)
        → GivesChance (picture_of old) (picture_of new) keep }
    ensures cached { (old new : Core D E M M.Levels) (page : PageKey) (n : FrameNo) → ObtainsCached (picture_of old) (picture_of new) page n.0
        → (IsFull old.frames → IsLeftBut old new None n) → GivesChance (picture_of old) (picture_of new) None }
    ensures full { (old new : Core D E M M.Levels) (keep : Option FrameNo) (n : FrameNo) → IsFull old.frames → SeeksFrame E.SectorDisk old new keep (Ok n)
        → GivesChance (picture_of old) (picture_of new) keep }
{}
