//! truncate: a file gets another length.
ghost use Rattle.std.specs.Prelude.{◌≡◌, Some, IfOk, IfErr};
ghost use Rattle.sized_stores.specs.Store.{can_resize, files_of};
ghost use Rattle.vm_types.specs.Checks.{first_of};
ghost use Rattle.vm_types.specs.Replies.{reply_of};
ghost use Rattle.vm_types.specs.declared.command.Command.TheVariants.{Truncate};
ghost use Rattle.msync.specs.Shows.{IsSoundCore};
ghost use Rattle.spaces.specs.Calls.{Carries};
ghost use Rattle.spaces.specs.Truncating.{resize_checks, IsResizable, KeepsToFile};

use disk_model::SectorDisk;
use residency::Core;
use sized_stores::SizedStore;
use truncation::resize;
use vm_types::{Answer, Errno, FileInfo, LONGEST_FILE, Levels};

/// The facts of a file as they are now, if it may get that length, in bytes, or why it may not.
fn resizable<D: SectorDisk>(
    store: &SizedStore<D>,
    file: u64,
    length: u64,
) -> Result<FileInfo, Errno>
    ensures ok { IfOk result (IsResizable (files_of store.now) (can_resize store.now) file length) }
    ensures err { IfErr result (λ errno. first_of (resize_checks (files_of store.now) (can_resize store.now) file length) ≡ Some errno) }
{
    let Some(info) = store.info(file) else {
        return Err(Errno::EBADF);
    };
    if info.read_only {
        return Err(Errno::EACCES);
    }
    if !store.can_resize() {
        return Err(Errno::EINVAL);
    }
    if length > LONGEST_FILE {
        return Err(Errno::EFBIG);
    }
    Ok(info)
}

/// Gives a file another length, in bytes, at once and not durably (truncate(2)): an msync that shows a shared page of the file makes it durable.
/// What lies past the new end is gone, own copies of private pages there included; pages over it stay mapped, and an access to one faults
/// (SIGBUS). Where the file gets longer, what it is longer by is zeros.
///
/// In this order: `EBADF` where there is no such file, `EACCES` where it may only be read, `EINVAL` where files keep their lengths, as those of
/// layout 2, and `EFBIG` where the length is over 2^42 bytes. A refused call changes nothing, nor does one that asks for the length that the file
/// has.
///
/// It may stall, and only where a frame is wanted for the page within which the shorter of the two lengths ends: `NoFrames` where the tables of
/// all processes and two more frames fill memory, `NoSwap` where slots are fewer than own copies, touched file pages and stored pages of shared
/// anonymous memory, `SwapDevice` where that device failed as a frame was given up or the page was brought back, `StoreDevice` where that one
/// failed as the page was read from its home, which comes only where the file gets longer. Then the file has the length that it had, and nobody
/// sees a change.
pub fn truncate<D: SectorDisk, E: SectorDisk, M: Levels>(
    core: &mut Core<D, E, M>,
    file: u64,
    length: u64,
) -> Answer
    requires sound { IsSoundCore D.SectorDisk E.SectorDisk core.old }
    ensures comes { Carries D.SectorDisk E.SectorDisk core.old core.new (Truncate file length) (reply_of result) }
    ensures keeps { KeepsToFile D.SectorDisk E.SectorDisk core.old core.new file length (reply_of result) }
{
    let info = match resizable(&core.store, file, length) {
        Ok(info) => info,
        Err(errno) => return Answer::Refused(errno),
    };
    if info.length == length {
        return Answer::Done;
    }
    // What `resize` cuts is a frame of 4,096 bytes: the clause `whole` of `len` says so of each frame.
    let _ = core.frames.len();
    match resize(core, file as u16, length) {
        Ok(()) => Answer::Done,
        Err(stall) => Answer::Stalled(stall),
    }
}
