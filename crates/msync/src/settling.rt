//! What memory is after a commit: its pages are as they stand in the store, and touched no more.
ghost use Rattle.std.specs.Prelude.{◌≡◌, ◌≤◌, length, replicate};
ghost use Rattle.vm_types.specs.Files.{inside_of, cut};
ghost use Rattle.frames.specs.FrameTable.{bytes_of, with_bytes};
ghost use Rattle.residency.specs.Picture.{picture_of};
ghost use Rattle.residency.specs.Parts.{IsFit};
ghost use Rattle.residency.specs.Leaves.{KeepsAllButFrames};
ghost use Rattle.msync.specs.Spots.{framed_at, slotted_at, AreSpots};
ghost use Rattle.msync.specs.Settling.{IsSettleable, SettlesPage, SettlesPages};

use crate::chosen::{Residence, Spot};
use disk_model::SectorDisk;
use page_cache::Place;
use residency::{Change, Core, change_leaves};
use vm_types::{FilePage, FrameNo, Levels, PageKey, SlotNo};

/// Pages that were committed: bytes past the end of their files become zero, no entry says D of them, and they are touched
/// no more. One that lay in a slot is at home then, and its slot is free. Every page keeps its own copy.
pub(crate) fn settle<D: SectorDisk, E, M: Levels>(core: &mut Core<D, E, M>, spots: &[Spot])
    requires fit { IsFit (picture_of core.old) }
    requires spots { AreSpots (picture_of core.old) spots.now }
    ensures { SettlesPages core.old core.new spots.now }
{
    for i in 0..spots.len() {
        settle_one(core, spots[i]);
    }
}

/// The same of one page.
fn settle_one<D: SectorDisk, E, M: Levels>(core: &mut Core<D, E, M>, spot: Spot)
    requires { IsSettleable (picture_of core.old) spot }
    ensures { SettlesPage core.old core.new spot }
{
    match spot.at {
        Residence::Framed(frame) => settle_in_frame(core, spot.page, frame),
        Residence::Slotted(slot) => settle_in_slot(core, spot.page, slot),
    }
}

/// The same of a page in a frame.
fn settle_in_frame<D: SectorDisk, E, M: Levels>(
    core: &mut Core<D, E, M>,
    page: FilePage,
    frame: FrameNo,
)
    requires { IsSettleable (picture_of core.old) (framed_at page frame) }
    ensures { SettlesPage core.old core.new (framed_at page frame) }
{
    cut_tail(core, page, frame);
    change_leaves(core, frame, Change::ClearDirty);
    core.cache.clean(PageKey::File(page));
}

/// The same of a page in a slot, which is given back.
fn settle_in_slot<D, E, M: Levels>(core: &mut Core<D, E, M>, page: FilePage, slot: SlotNo)
    requires { IsSettleable (picture_of core.old) (slotted_at page slot) }
    ensures { SettlesPage core.old core.new (slotted_at page slot) }
{
    core.cache.clean(PageKey::File(page));
    core.cache.set_place(PageKey::File(page), Place::Home);
    core.swap.release(slot);
}

/// Bytes past the end of a page's file become zero in its frame.
fn cut_tail<D: SectorDisk, E, M: Levels>(core: &mut Core<D, E, M>, page: FilePage, frame: FrameNo)
    requires { IsSettleable (picture_of core.old) (framed_at page frame) }
    ensures fit { IsFit (picture_of core.new) }
    ensures beside { KeepsAllButFrames core.old core.new }
    ensures cuts { core.new.frames ≡ with_bytes core.old.frames frame.0
        (cut (inside_of ((picture_of core.old).files page.file) page.page) (bytes_of core.old.frames frame.0)) }
{
    let inside = match core.store.file(page.file) {
        Some(info) => info.bytes_inside(page.page),
        None => 0,
    };
    cut_from(core.frames.bytes_mut(frame), inside);
}

/// Puts zeros in place of the bytes from `inside` on.
fn cut_from(page: &mut [u8; 4096], inside: usize)
    requires { inside ≤ 4096 }
    ensures { page.new ≡ cut inside page.old }
{
    clear(&mut page[inside..]);
}

fn clear(bytes: &mut [u8])
    ensures { bytes.new ≡ replicate (length bytes.old) 0 }
{
    bytes.fill(0);
}
