//! msync: file pages, and lengths of files, made durable through the store.
ghost use Rattle.std.specs.Prelude.{◌≡◌, ◌≤◌, ◌<◌, ℕ, true, length, take};
ghost use Rattle.vm_types.specs.declared.object.PageKey.TheVariants.{File};
ghost use Rattle.swap.specs.Slots.{slots_of};
ghost use Rattle.residency.specs.Picture.{picture_of};
ghost use Rattle.residency.specs.Parts.{IsFit};
ghost use Rattle.msync.specs.SyncEnds.{CommitsListed, SyncsBytes};
ghost use Rattle.msync.specs.Choice.{chosen_of, IsListed, chosen_page};
ghost use Rattle.msync.specs.Judging.{is_resized_by};
ghost use Rattle.msync.specs.Shows.{HasSyncRoom, IsSoundCore};
ghost use Rattle.msync.specs.Storing.{CommitsTaken, MayCommit};
ghost use Rattle.sized_stores.specs.Store.{kept_of, IsReadySized};
ghost use Rattle.stores.specs.Store.{always_free_in};
ghost use Rattle.msync.specs.Spots.{HasSpots, HoldsTouched, IsSpot, bytes_there};

use crate::choosing::rule;
use crate::chosen::{Residence, Ruling, Spot, SyncCall};
use crate::page_source::TouchedPages;
use crate::room::SyncRoom;
use crate::settling::settle;
use disk_model::{SectorDisk, WriteZeros};
use page_cache::Place;
use residency::Core;
use sized_stores::{SizeFault, SizedStore};
use sync_journal::PageSource;
use vm_types::{Answer, Errno, FilePage, Levels, PageKey, Stall};

/// Makes the touched pages of a range durable, all at once and over all files (msync(2); Park, Kelly and Shen, Failure-Atomic
/// msync, EuroSys 2013): the file pages, stored to and not made durable since, that stand behind the shared pages which hold
/// the `len` bytes from `addr` on. A file that has got another length since its length was made durable, and of which one of those is
/// a shared page, past its end or not, is made durable whole with them: its length, all its touched pages, and zeros where it was cut
/// off. Pages that are made durable are touched no more, bytes past a file's end become zero, and no process's entry says D of them. One
/// that lay in a slot is at home then. Where there is neither page nor file, and where the call is asynchronous, no device is asked. Else
/// the store is asked for its journal and the homes of pages that leave it alone, or with lengths for any sector from its gate on, and
/// swap for the slots of those pages alone.
///
/// `ESRCH` where no such process lives, `EINVAL` where `addr` is no multiple of 4,096, `ENOMEM` where a page of the range
/// isn't mapped, `ENOSPC` where there are more such pages than the store always takes at once: 1,023 of layout 2, and of
/// layout 4 as many as a body of its pool has slots; nothing is changed then. Otherwise `ENOSPC` comes only where files are taken whole and
/// the store has no homes for one, or no slots for the pages and the zeros: then nothing has become durable, memory is as it was, and the
/// call may be made again. `EIO` comes exactly where the store failed in this call, which then isn't to be called again; memory is as it was.
/// `SwapDevice` comes exactly where a slot that one of those pages lies in could not be read: nothing has become durable then, memory is
/// as it was, and the call may be made again.
///
/// What becomes durable of a page in a slot is what was put there as long as the swap device keeps its model. Its time, beside the
/// commit's, is that of the touched pages and of the files that are taken whole times the runs of all processes, however long they are.
pub fn msync<D: WriteZeros, E: SectorDisk, M: Levels>(
    core: &mut Core<D, E, M>,
    room: &mut SyncRoom,
    call: SyncCall,
) -> Answer
    requires sound { IsSoundCore D.SectorDisk E.SectorDisk core.old }
    requires room { HasSyncRoom D.SectorDisk core.old room.old }
    ensures syncs { SyncsBytes D.SectorDisk E.SectorDisk core.old core.new call.pid call.addr call.len call.mode result }
    ensures room { room.new ≡ room.old }
{
    match rule(core, call, &mut room.lists) {
        Ruling::Refuses(errno) => Answer::Refused(errno),
        Ruling::Passes => Answer::Done,
        Ruling::Takes(taken) => {
            let files = &room.lists.files[..taken.files];
            commit(core, &room.lists.pages, taken.pages, files, &mut room.spots)
        }
    }
}

/// Commits the first `count` pages of a list to the store, with the lengths of files, and they are touched no more then. `EIO` where the
/// store failed, `SwapDevice` where a slot couldn't be read, `ENOSPC` where the store has no room: memory is left as it was then.
fn commit<D: WriteZeros, E: SectorDisk, M: Levels>(
    core: &mut Core<D, E, M>,
    list: &[FilePage],
    count: usize,
    files: &[u16],
    spots: &mut [Spot],
) -> Answer
    requires sound { IsSoundCore D.SectorDisk E.SectorDisk core.old }
    requires listed { IsListed (picture_of core.old) (is_resized_by core.old) (chosen_of list.now count files.now) }
    requires few { count ≤ always_free_in (kept_of core.old.store) }
    requires room { count ≤ length spots.old }
    ensures { CommitsListed D.SectorDisk E.SectorDisk core.old core.new (chosen_of list.now count files.now) result }
{
    let list = &list[..count];
    fill_spots(core, list, spots);
    let spots = &spots[..list.len()];
    let mut source = TouchedPages {
        frames: &core.frames,
        swap: &mut core.swap,
        spots,
    };
    match commit_to(&mut core.store, files, list, &mut source) {
        Ok(()) => {
            settle(core, spots);
            Answer::Done
        }
        Err(SizeFault::Device) => Answer::Refused(Errno::EIO),
        Err(SizeFault::Source) => Answer::Stalled(Stall::SwapDevice),
        Err(SizeFault::NoRoom) => Answer::Refused(Errno::ENOSPC),
    }
}

/// Commits pages to a store, with the lengths of files where there are any.
///
/// # Errors
/// `Device` where the device failed, `Source` where a page couldn't be given, and `NoRoom` with lengths alone, where the store has no room.
fn commit_to<D: WriteZeros, S: PageSource>(
    store: &mut SizedStore<D>,
    files: &[u16],
    pages: &[FilePage],
    source: &mut S,
) -> Result<(), SizeFault>
    requires ready { IsReadySized D.SectorDisk store.old }
    requires taken { MayCommit store.old files.now pages.now }
    requires gives { (i : ℕ) → i < length pages.now → S.gives source.old i }
    ensures { CommitsTaken D.SectorDisk S.PageSource store.old store.new files.now pages.now source.old source.new result }
{
    if files.is_empty() {
        store.store.commit(pages, source)?;
        return Ok(());
    }
    store.commit_sizes(files, pages, source)
}

/// Puts the places that touched pages lie in to the front of a list.
fn fill_spots<D, E, M: Levels>(core: &Core<D, E, M>, pages: &[FilePage], spots: &mut [Spot])
    requires fit { IsFit (picture_of core.now) }
    requires room { length pages.now ≤ length spots.old }
    requires touched { (i : ℕ) → i < length pages.now → (picture_of core.now).touched (File (chosen_page pages.now i)) ≡ true }
    ensures { HasSpots (picture_of core.now) pages.now (take (length pages.now) spots.new) }
{
    for i in 0..pages.len() {
        spots[i] = spot_of(core, pages[i]);
    }
}

/// The place that a touched page lies in.
fn spot_of<D, E, M: Levels>(core: &Core<D, E, M>, page: FilePage) -> Spot
    requires { HoldsTouched (picture_of core.now) page }
    ensures spot { IsSpot (picture_of core.now) result }
    ensures whole { length (bytes_there core.now.frames (slots_of core.now.swap) result.at) ≡ 4096 }
    ensures page { result.page ≡ page }
{
    match core.cache.place(PageKey::File(page)) {
        Place::Frame(frame) => {
            let _ = whole(core.frames.bytes(frame));
            Spot {
                page,
                at: Residence::Framed(frame),
            }
        }
        Place::Slot(slot) => Spot {
            page,
            at: Residence::Slotted(slot),
        },
        Place::Home => unreachable!(),
    }
}

/// These bytes, which are 4,096.
fn whole(bytes: &[u8; 4096]) -> usize
    ensures { length bytes.now ≡ 4096 }
{
    bytes.len()
}
