//! Plans of device calls.
ghost use Rattle.std.specs.Prelude.{◌≡◌, ◌≤◌, ◌<◌, ◌⊎◌, ℕ, min, true, List, [], Option, Ok, Err, IfOk, IfErr, OnOk, length};
ghost use Rattle.vm_types.specs.declared.file.FileInfo.{FileInfo};
ghost use Rattle.file_store.specs.Standing.{IsPageOf};
ghost use Rattle.stores.specs.Commit.{ArePages};
ghost use Rattle.stores.specs.Images.{StandsFor, capacity_pages, file_info};
ghost use Rattle.sync_plans.specs.Resizing.{PlansResizing, RefusesSizesOf};
ghost use Rattle.sync_plans.specs.Pages.{lent_page};
ghost use Rattle.sync_plans.specs.Planned.{PlansOpening, PlansTidying, PlansCommit};
ghost use Rattle.sync_plans.specs.Plans.{row, room_of, AreCalls};
ghost use Rattle.sync_plans.specs.Requests.{IsStore, AreReadOnly, RefusesImage};
ghost use Rattle.sync_plans.specs.Writing.{Begins, CopiesPlan};

use crate::call::Call;
use crate::lent_pages::LentPages;
use crate::plan_disk::PlanDisk;
use crate::requests::{Refusal, commit, facts, open, read, tidy};
use crate::resizing::{ResizeRefusal, ResizedPages, resize};
use crate::scratch::Scratch;
use crate::updates::{PageUpdates, SizeUpdates};
use std::alloc::Global;
use std::cell::Cell;
use vm_types::{FileInfo, FilePage};

/// A plan for this image that may have as many calls as the shortest of the four lists has places.
fn begun<'a>(
    image: &'a [[u8; 512]],
    lent: LentPages<'a>,
    scratch: Scratch<'a>,
    calls: &[Call],
    rows: &[[u8; 512]],
) -> PlanDisk<'a>
    ensures { Begins image.now (lent_page lent.entry.pages.now) (room_of scratch.entry.calls.now scratch.entry.rows.now calls.now rows.now) result }
{
    PlanDisk::new(image, lent, scratch, calls.len().min(rows.len()))
}

/// Gives the caller a plan that was made, and tells how many calls it has. Where there was no room for it that is what he is told, whatever came of it.
fn told<E: Copy>(
    disk: &PlanDisk<'_>,
    outcome: Result<(), E>,
    no_room: E,
    calls: &mut [Call],
    rows: &mut [[u8; 512]],
) -> Result<usize, E>
    requires room { disk.now.used ≤ min (length calls.old) (length rows.old) }
    requires caused { IfErr outcome (λ refusal. refusal ≡ no_room → 0 < disk.now.failures.number) }
    ensures copies { CopiesPlan disk.now calls.new rows.new }
    ensures made { IfOk result (λ used. (used ≡ disk.now.used) × (outcome ≡ Ok tt)) }
    ensures full { IfErr result (λ refusal. refusal ≡ no_room → disk.now.full ≡ true) }
    ensures refused { IfErr result (λ refusal. (refusal ≡ no_room) ⊎ (outcome ≡ Err refusal)) }
{
    disk.copy_to(calls, rows);
    if disk.full {
        return Err(no_room);
    }
    match outcome {
        Ok(()) => Ok(disk.used),
        Err(refusal) => Err(refusal),
    }
}

/// Plans that pages become durable all at once. There is at least one and there are no more than the store takes: 1,023 of layout 2, of layout 4
/// as many as its pool has slots. Where fewer of these are free, all pages that stand in slots are brought home first, which takes 2 syncs more.
///
/// In any order of the pages each is written by a call that names where its bytes lie, but one with bytes past its file's end, or that is stored to meanwhile: it is
/// written by eight calls, with a row each. A plan for pages in rising order, by file and then by page, takes a time that grows as it does; in another order each
/// page is looked for among those before it.
///
/// # Errors
///
/// `Device` says that the plan has more calls than the shortest of the four lists has places; as many of them are listed then. `BadLayout` and `BadJournal`
/// come only where the image is so, `BadPages` and `ReadOnly` only for pages that are so, and `Memory`, where there was too little, only of a store with a
/// pool.
pub fn plan_commit(
    alloc: Global,
    image: &[[u8; 512]],
    scratch: Scratch<'_>,
    calls: &mut [Call],
    rows: &mut [[u8; 512]],
    updates: PageUpdates<'_>,
) -> Result<usize, Refusal>
    requires bytes { length updates.bytes.now ≡ length updates.pages.now }
    ensures commits { IfOk result (λ used. PlansCommit image.now (room_of scratch.entry.calls.now scratch.entry.rows.now calls.old rows.old) updates.entry.pages.now (lent_page updates.entry.bytes.now) calls.new rows.new used) }
    ensures no_room { IfErr result (λ refusal. refusal ≡ Refusal.Device → AreCalls (length image.now) calls.new (room_of scratch.entry.calls.now scratch.entry.rows.now calls.old rows.old)) }
    ensures refused { IfErr result (RefusesImage (length image.now) (row image.now)
        (ArePages (file_info (length image.now) (row image.now)) (capacity_pages (length image.now) (row image.now)) updates.entry.pages.now → ⊥)
        (AreReadOnly (length image.now) (row image.now) updates.entry.pages.now)) }
{
    let PageUpdates { pages, bytes } = updates;
    let last = Cell::new(None);
    let source = LentPages {
        pages: bytes,
        last: &last,
    };
    let disk = begun(image, source, scratch, calls, rows);
    let (disk, outcome) = commit(alloc, disk, pages, source);
    told(&disk, outcome, Refusal::Device, calls, rows)
}

/// Plans that what a stop has left is carried out: what stands in an open journal of layout 2, or the map of a pool, which is written anew in the place
/// of the other one.
///
/// # Errors
///
/// Those of `plan_commit`, but `BadPages` and `ReadOnly`.
pub fn plan_open(
    alloc: Global,
    image: &[[u8; 512]],
    scratch: Scratch<'_>,
    calls: &mut [Call],
    rows: &mut [[u8; 512]],
) -> Result<usize, Refusal>
    ensures opens { IfOk result (λ used. PlansOpening image.now (room_of scratch.entry.calls.now scratch.entry.rows.now calls.old rows.old) (lent_page []) calls.new rows.new used) }
    ensures no_room { IfErr result (λ refusal. refusal ≡ Refusal.Device → AreCalls (length image.now) calls.new (room_of scratch.entry.calls.now scratch.entry.rows.now calls.old rows.old)) }
    ensures refused { IfErr result (RefusesImage (length image.now) (row image.now) ⊥ ⊥) }
{
    let last = Cell::new(None);
    let disk = begun(image, LentPages::none(&last), scratch, calls, rows);
    let (disk, outcome) = open(alloc, disk);
    told(&disk, outcome, Refusal::Device, calls, rows)
}

/// Plans that all pages are brought home that stand in slots of a pool, so that all slots are free, or in an open journal of layout 2.
///
/// # Errors
///
/// Those of `plan_open`.
pub fn plan_tidy(
    alloc: Global,
    image: &[[u8; 512]],
    scratch: Scratch<'_>,
    calls: &mut [Call],
    rows: &mut [[u8; 512]],
) -> Result<usize, Refusal>
    ensures tidies { IfOk result (λ used. PlansTidying image.now (room_of scratch.entry.calls.now scratch.entry.rows.now calls.old rows.old) (lent_page []) calls.new rows.new used) }
    ensures no_room { IfErr result (λ refusal. refusal ≡ Refusal.Device → AreCalls (length image.now) calls.new (room_of scratch.entry.calls.now scratch.entry.rows.now calls.old rows.old)) }
    ensures refused { IfErr result (RefusesImage (length image.now) (row image.now) ⊥ ⊥) }
{
    let last = Cell::new(None);
    let disk = begun(image, LentPages::none(&last), scratch, calls, rows);
    let (disk, outcome) = tidy(alloc, disk);
    told(&disk, outcome, Refusal::Device, calls, rows)
}

/// Reads a page as it is once the image is opened. Nothing is to be carried out.
///
/// # Errors
///
/// Those of `plan_open`, where `Device` says that there is too little room to work in, and `BadPages` where the page doesn't begin inside its file.
pub fn read_page(
    alloc: Global,
    image: &[[u8; 512]],
    scratch: Scratch<'_>,
    page: FilePage,
    to: &mut [u8; 4096],
) -> Result<(), Refusal>
    ensures page { (files : ℕ → Option FileInfo) (pages : ℕ → ℕ → List ℕ) → StandsFor (length image.now) files pages (row image.now)
        → IsPageOf files page.file page.page → OnOk result (to.new ≡ pages page.file page.page) }
    ensures store { OnOk result (IsStore (length image.now) (row image.now)) }
    ensures inside { OnOk result (IsPageOf (file_info (length image.now) (row image.now)) page.file page.page) }
    ensures refused { IfErr result (RefusesImage (length image.now) (row image.now) (IsPageOf (file_info (length image.now) (row image.now)) page.file page.page → ⊥) ⊥) }
{
    let last = Cell::new(None);
    let disk = PlanDisk::new(image, LentPages::none(&last), scratch, usize::MAX);
    let (disk, outcome) = read(alloc, disk, page, to);
    if disk.full {
        return Err(Refusal::Device);
    }
    outcome
}

/// The facts of a file, where the image has it. Nothing is to be carried out.
///
/// # Errors
///
/// Those of `plan_open`, where `Device` says that there is too little room to work in.
pub fn file_facts(
    alloc: Global,
    image: &[[u8; 512]],
    scratch: Scratch<'_>,
    file: u16,
) -> Result<Option<FileInfo>, Refusal>
    ensures facts { IfOk result (λ info. info ≡ file_info (length image.now) (row image.now) file) }
    ensures store { OnOk result (IsStore (length image.now) (row image.now)) }
    ensures refused { IfErr result (RefusesImage (length image.now) (row image.now) ⊥ ⊥) }
{
    let last = Cell::new(None);
    let disk = PlanDisk::new(image, LentPages::none(&last), scratch, usize::MAX);
    let (disk, outcome) = facts(alloc, disk, file);
    if disk.full {
        return Err(Refusal::Device);
    }
    outcome
}

/// Plans that files get other lengths, come or go, and pages of theirs become durable with that, all at once: of a store with a pool. Each file that a size names has
/// its length from then on, or goes; the new pages that are more than zeros come first among the bytes, then those of the other list, each with zeros past its file's end
/// then. Every other new page becomes zeros, a row of homes by one call.
/// Where fewer slots are free than it takes, all pages that stand in slots are brought home first, which takes 2 syncs more.
///
/// # Errors
///
/// `Device` says that the plan has more calls than the shortest of the four lists has places; as many of them are listed then. `NoPool` comes only where the
/// image is of no store with a pool, `BadPages`, `ReadOnly` and `NoHomes` only for sizes and pages that are so, and `Memory` where there was too little.
pub fn plan_resize(
    alloc: Global,
    image: &[[u8; 512]],
    scratch: Scratch<'_>,
    calls: &mut [Call],
    rows: &mut [[u8; 512]],
    updates: SizeUpdates<'_>,
) -> Result<usize, ResizeRefusal>
    ensures resizes { IfOk result (λ used. PlansResizing image.now (room_of scratch.entry.calls.now scratch.entry.rows.now calls.old rows.old) updates.entry.sizes.now updates.entry.fresh.now updates.entry.pages.now (length updates.entry.bytes.now) (lent_page updates.entry.bytes.now) calls.new rows.new used) }
    ensures no_room { IfErr result (λ refusal. refusal ≡ ResizeRefusal.Device → AreCalls (length image.now) calls.new (room_of scratch.entry.calls.now scratch.entry.rows.now calls.old rows.old)) }
    ensures refused { IfErr result (RefusesSizesOf (length image.now) (row image.now) updates.entry.sizes.now updates.entry.fresh.now updates.entry.pages.now (length updates.entry.bytes.now)) }
{
    let SizeUpdates {
        sizes,
        fresh,
        pages,
        bytes,
    } = updates;
    let last = Cell::new(None);
    let source = LentPages {
        pages: bytes,
        last: &last,
    };
    let disk = begun(image, source, scratch, calls, rows);
    let pages = ResizedPages { fresh, pages };
    let (disk, outcome) = resize(alloc, disk, sizes, pages, source);
    told(&disk, outcome, ResizeRefusal::Device, calls, rows)
}
