//! The pages of a file past a length.
ghost use Rattle.residency.specs.Picture.{picture_of};
ghost use Rattle.residency.specs.Parts.{IsFit};
ghost use Rattle.truncation.specs.Drops.{DropsPast};

use crate::clearing::clear_past;
use crate::forgetting::forget_past;
use residency::Core;
use vm_types::Levels;

/// Drops the pages of file `file` that begin at or past `length` bytes from memory and swap. Pages of processes over them stay
/// mapped, without entries, and private ones lose their own copies; what was stored to shared ones and isn't durable is lost
/// (truncate(2); mmap(2), "the effect of changing the size of the underlying file"). The page in which the length ends isn't among
/// them. Each process and each of its runs is looked at once, and then each frame and each slot. No device is asked, no frame is
/// taken, and the call can't fail. The file has the length that it had: to change that is the caller's.
pub fn drop_past<D, E, M: Levels>(core: &mut Core<D, E, M>, file: u16, length: u64)
    requires { IsFit (picture_of core.old) }
    ensures { DropsPast core.old core.new file length }
{
    clear_past(core, file, length);
    forget_past(core, file, length);
}
