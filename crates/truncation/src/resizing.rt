//! A file gets another length, and memory with it.
ghost use Rattle.std.specs.Prelude.{◌≡◌, ◌≤◌, ◌<◌, ◌↔◌, length, replicate, IsSome, IsTrue};
ghost use Rattle.vm_types.specs.Files.{cut};
ghost use Rattle.vm_types.specs.Limits.{file_limit, longest_file};
ghost use Rattle.vm_types.specs.declared.object.PageKey.TheVariants.{File};
ghost use Rattle.frames.specs.FrameTable.{IsFrame, bytes_of, with_bytes};
ghost use Rattle.sized_stores.specs.Store.{files_of};
ghost use Rattle.page_cache.specs.declared.place.Place.TheVariants.{Home, Frame};
ghost use Rattle.residency.specs.Leaves.{KeepsAllButFrames};
ghost use Rattle.residency.specs.Parts.{IsFit};
ghost use Rattle.residency.specs.Picture.{picture_of};
ghost use Rattle.fault.specs.PagingIn.{MayBring};
ghost use Rattle.truncation.specs.Resizing.{length_now, CutsOrLacks, IsSettled, MayResize, Resizes, SettlesEnd};

use crate::dropping::drop_past;
use disk_model::SectorDisk;
use fault::cached;
use page_cache::Place;
use residency::Core;
use vm_types::{FilePage, FrameNo, Levels, PAGE_BYTES, PageKey, Stall};

/// Gives file `file` another length, in bytes, 2^42 at most, at once and not durably (truncate(2)). What lies past the new end is gone:
/// pages of processes over it stay mapped, and private ones lose their own copies there. Where the file gets longer, what it is longer by
/// is zeros. The page within which the shorter of the two lengths ends, if one does, is brought into a frame and cut there, unless the file
/// gets shorter and the page is at home: what is read from there later is cut then. Where the file gets longer the page is touched. Own
/// copies of it stay as they are. Of the store no sector is asked for but those of that page, and of swap none but those of the slot that
/// it lies in and, where no frame is free, of free ones.
///
/// # Errors
/// Only where a frame is wanted for that page: `NoFrames` and `NoSwap` where none could be given up; `SwapDevice` where the swap device
/// failed; `StoreDevice` where the store device failed as the page was read from its home, which comes only where the file gets no shorter.
/// Then the file has the length that it had, and no process and no file sees a change.
pub fn resize<D: SectorDisk, E: SectorDisk, M: Levels>(
    core: &mut Core<D, E, M>,
    file: u16,
    length: u64,
) -> Result<(), Stall>
    requires { MayResize D.SectorDisk E.SectorDisk core.old file length }
    ensures { Resizes D.SectorDisk E.SectorDisk core.old core.new file length result }
{
    let was = length_now(core, file);
    settle_end(core, file, was, length)?;
    if length < was {
        drop_past(core, file, length);
    }
    core.store.resize(file, length);
    Ok(())
}

/// The length of a file, in bytes, 0 where there is no such file.
fn length_now<D: SectorDisk, E, M: Levels>(core: &Core<D, E, M>, file: u16) -> u64
    ensures length { result ≡ length_now core.now file }
    ensures number { IsSome (files_of core.now.store file) → file < file_limit }
{
    match core.store.info(u64::from(file)) {
        Some(info) => info.length,
        None => 0,
    }
}

/// Makes ready the page within which the shorter ends of the length that a file has, `was`, and the one that it is to get, if one does: its
/// bytes from there on become zeros, and where the file gets longer it is touched. Where the file gets shorter and the page is at home
/// nothing is done.
///
/// # Errors
/// As `cut_page`.
fn settle_end<D: SectorDisk, E: SectorDisk, M: Levels>(
    core: &mut Core<D, E, M>,
    file: u16,
    was: u64,
    length: u64,
) -> Result<(), Stall>
    requires may { MayResize D.SectorDisk E.SectorDisk core.old file length }
    requires was { was ≡ length_now core.old file }
    ensures { SettlesEnd D.SectorDisk E.SectorDisk core.old core.new file was length result }
{
    let end = was.min(length);
    let page = FilePage {
        file,
        page: (end / PAGE_BYTES as u64) as u32,
    };
    let inside = (end % PAGE_BYTES as u64) as usize;
    if inside == 0 || length < was && is_home(core, page) {
        return Ok(());
    }
    cut_page(core, page, inside, was < length)
}

/// Whether a page of a file is at home.
fn is_home<D, E, M: Levels>(core: &Core<D, E, M>, page: FilePage) -> bool
    ensures { IsTrue result ↔ ((picture_of core.now).place (File page) ≡ Home) }
{
    matches!(core.cache.place(PageKey::File(page)), Place::Home)
}

/// Puts zeros in place of the bytes of a page from `inside` on, 4,096 at most, in a frame, and touches the page if told so.
///
/// # Errors
/// As `fault::cached`, where the page isn't to be had in a frame: it stays where it was.
fn cut_page<D: SectorDisk, E: SectorDisk, M: Levels>(
    core: &mut Core<D, E, M>,
    page: FilePage,
    inside: usize,
    touches: bool,
) -> Result<(), Stall>
    requires may { MayBring D.SectorDisk E.SectorDisk core.old (File page) }
    requires inside { inside ≤ 4096 }
    ensures { CutsOrLacks D.SectorDisk E.SectorDisk core.old core.new page inside touches result }
{
    let frame = cached(core, PageKey::File(page))?;
    cut_frame(core, page, frame, inside);
    if touches {
        core.cache.mark_dirty(PageKey::File(page));
    }
    Ok(())
}

/// The same of a page in a frame, which isn't touched for that.
fn cut_frame<D, E, M: Levels>(
    core: &mut Core<D, E, M>,
    page: FilePage,
    frame: FrameNo,
    inside: usize,
)
    requires fit { IsFit (picture_of core.old) }
    requires placed { (picture_of core.old).place (File page) ≡ Frame frame }
    requires inside { inside ≤ 4096 }
    ensures fit { IsFit (picture_of core.new) }
    ensures beside { KeepsAllButFrames core.old core.new }
    ensures cuts { core.new.frames ≡ with_bytes core.old.frames frame.0 (cut inside (bytes_of core.old.frames frame.0)) }
{
    cut_from(core.frames.bytes_mut(frame), inside);
}

/// Puts zeros in place of the bytes from `inside` on.
fn cut_from(page: &mut [u8; 4096], inside: usize)
    requires { inside ≤ 4096 }
    ensures { page.new ≡ cut inside page.old }
{
    clear(&mut page[inside..]);
}

fn clear(bytes: &mut [u8])
    ensures { bytes.new ≡ replicate (length bytes.old) 0 }
{
    bytes.fill(0);
}
