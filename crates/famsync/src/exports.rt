//! What C programs call. `image` is what the file holds, a sector a row, and is never written here. After the result 0 of
//! `famsync_open`, `famsync_commit`, `famsync_resize` or `famsync_tidy` the first `used` of `calls`, the plan, have to be made of the file, in their order, and
//! then `famsync_done` is called, or `famsync_failed` where one of them failed. After any other result there is nothing to
//! do. `Call` of `sync_plans` says what each call is: some name a page of the commit, which stays as it is until they are
//! made. `scratch_calls` and `scratch_rows` are room to work in: nothing is said of what they hold. A plan has no more calls than the shortest of
//! these two, `calls` and `rows` has places.
//!
//! An image of layout 4 takes memory while it is asked something of: what it says of the slots of its pool, and its directory. The program gives it.
//!
//! `StopLeaves` in the `Plans` of `sync_plans` says what a stop leaves of an image. The numbers that are returned stand in `codes`.
ghost use Rattle.std.specs.Prelude.{◌≡◌, ◌≢◌, ◌≤◌, ◌<◌, ◌↔◌, true, false, not, ℕ, List, [], Option, Some, None, length};
ghost use Rattle.vm_types.specs.declared.file.FileInfo.{FileInfo};
ghost use Rattle.disk_model.specs.Stop.{Image};
ghost use Rattle.file_store.specs.Commit.{Changes};
ghost use Rattle.file_store.specs.Standing.{IsPageOf};
ghost use Rattle.pool_journal.specs.Pools.{pool_named};
ghost use Rattle.pool_store.specs.Resume.{HasPoolHead};
ghost use Rattle.stores.specs.Commit.{ArePages};
ghost use Rattle.stores.specs.Images.{is_pool, capacity_pages, file_info, IsBadLayout, IsClosed, StandsFor, StandsForEither};
ghost use Rattle.famsync.specs.Codes.{RefusesResizing, done, out_of_turn, bad_layout, bad_journal, bad_pages, read_only, no_room, no_memory, closed, ready, pending};
ghost use Rattle.sync_plans.specs.Pages.{lent_page};
ghost use Rattle.sync_plans.specs.Plans.{row, room_of, AreCalls, AreSources, image_after, IsLeftUnsynced, StopLeaves};
ghost use Rattle.sync_plans.specs.Resizing.{PlansResizing};
ghost use Rattle.sync_plans.specs.Requests.{IsStore, HasBadJournal, KeepsOutside, AreWritable, AreReadOnly};

use crate::codes::{BAD_PAGES, CLOSED, OK, PENDING, READY, TURN, number, number_of_resizing};
use crate::handle::Handle;
use pool_growth::FileSize;
use std::alloc::Global;
use sync_plans::{
    Call, PageBytes, PageUpdates, Scratch, SizeUpdates, file_facts, plan_commit, plan_open,
    plan_resize, plan_tidy, read_page,
};
use vm_types::FilePage;

/// Plans that the image is opened. It must hold what the file holds, all of it synced. Returns 0, and the handle is pending then; 2 or 3
/// where the image is no store or its journal is bad, 6 where there is no room for the plan, 7 where there is no memory: then the plan is empty and the
/// handle closed.
#[unsafe(no_mangle)]
pub extern "C" fn famsync_open(
    handle: &mut Handle,
    alloc: Global,
    image: &[[u8; 512]],
    scratch_calls: &mut [Call],
    scratch_rows: &mut [[u8; 512]],
    used: &mut usize,
    calls: &mut [Call],
    rows: &mut [[u8; 512]],
) -> u32
    ensures few { used.new ≤ room_of scratch_calls.old scratch_rows.old calls.old rows.old }
    ensures all { AreCalls (length image.now) calls.new used.new }
    ensures sources { AreSources (lent_page []) calls.new used.new }
    ensures synced { (n : ℕ) → IsLeftUnsynced calls.new used.new n → ⊥ }
    ensures any_moment { (files : ℕ → Option FileInfo) (pages : ℕ → ℕ → List ℕ) → StandsFor (length image.now) files pages (row image.now)
        → (left : Image) → StopLeaves calls.new rows.new (lent_page []) (row image.now) used.new left → StandsFor (length image.now) files pages left }
    ensures closed { result ≡ done → is_pool (row image.now) ≡ false → IsClosed (length image.now) (image_after calls.new rows.new (lent_page []) (row image.now) used.new) }
    ensures anew { result ≡ done → is_pool (row image.now) ≡ true → (IsClosed (length image.now) (row image.now) → ⊥)
        → pool_named (image_after calls.new rows.new (lent_page []) (row image.now) used.new) ≡ not (pool_named (row image.now)) }
    ensures outside { KeepsOutside (length image.now) (row image.now) (image_after calls.new rows.new (lent_page []) (row image.now) used.new) }
    ensures state { result ≡ done → handle.new.state ≡ pending }
    ensures nothing { result ≢ done → (used.new ≡ 0) × (handle.new.state ≡ closed) }
    ensures store { result ≡ done → IsStore (length image.now) (row image.now) }
    ensures layout { result ≡ bad_layout → IsBadLayout (length image.now) (row image.now) }
    ensures journal { result ≡ bad_journal → HasBadJournal (length image.now) (row image.now) }
    ensures room { result ≡ no_room → AreCalls (length image.now) calls.new (room_of scratch_calls.old scratch_rows.old calls.old rows.old) }
    ensures turn { result ≢ out_of_turn }
    ensures pages { result ≢ bad_pages }
    ensures read_only { result ≢ read_only }
    ensures memory { result ≡ no_memory → HasPoolHead (length image.now) (row image.now) }
    ensures answers { result ≤ 7 }
{
    *used = 0;
    handle.state = CLOSED;
    let scratch = Scratch {
        calls: scratch_calls,
        rows: scratch_rows,
    };
    match plan_open(alloc, image, scratch, calls, rows) {
        Ok(count) => {
            *used = count;
            handle.state = PENDING;
            OK
        }
        Err(refusal) => number(refusal),
    }
}

/// Plans that these pages become durable all at once: page `pages[i]` becomes the bytes at `bytes[i]`, with zeros past its
/// file's end. There is at least one page, and there are no more than the store takes: 1,023 of layout 2, of layout 4 as many as its pool has slots, where
/// all pages are brought home first if fewer of them are free; none comes twice, and each begins inside its file. No order of the pages makes a plan longer; in rising order, by file
/// and then by page, the time that it takes grows as the plan does. Returns 0, and the handle is pending then; 1 exactly where the handle is not ready; 2 to 7 as in `codes`. After another
/// result than 0 the plan is empty and the handle as it was.
#[unsafe(no_mangle)]
pub extern "C" fn famsync_commit(
    handle: &mut Handle,
    alloc: Global,
    image: &[[u8; 512]],
    scratch_calls: &mut [Call],
    scratch_rows: &mut [[u8; 512]],
    used: &mut usize,
    calls: &mut [Call],
    rows: &mut [[u8; 512]],
    pages: &[FilePage],
    bytes: &[PageBytes<'_>],
) -> u32
    ensures few { used.new ≤ room_of scratch_calls.old scratch_rows.old calls.old rows.old }
    ensures all { AreCalls (length image.now) calls.new used.new }
    ensures sources { AreSources (lent_page bytes.now) calls.new used.new }
    ensures synced { (n : ℕ) → IsLeftUnsynced calls.new used.new n → ⊥ }
    ensures any_moment { (files : ℕ → Option FileInfo) (before after : ℕ → ℕ → List ℕ)
        → StandsFor (length image.now) files before (row image.now) → Changes files pages.now (lent_page bytes.now) before after
        → (left : Image) → StopLeaves calls.new rows.new (lent_page bytes.now) (row image.now) used.new left → StandsForEither (length image.now) files before after left }
    ensures ok { result ≡ done → (files : ℕ → Option FileInfo) (before after : ℕ → ℕ → List ℕ)
        → StandsFor (length image.now) files before (row image.now) → Changes files pages.now (lent_page bytes.now) before after
        → StandsFor (length image.now) files after (image_after calls.new rows.new (lent_page bytes.now) (row image.now) used.new) }
    ensures outside { KeepsOutside (length image.now) (row image.now) (image_after calls.new rows.new (lent_page bytes.now) (row image.now) used.new) }
    ensures state { result ≡ done → (handle.old.state ≡ ready) × (handle.new.state ≡ pending) }
    ensures nothing { result ≢ done → (used.new ≡ 0) × (handle.new ≡ handle.old) }
    ensures store { result ≡ done → IsStore (length image.now) (row image.now) }
    ensures writable { result ≡ done → AreWritable (length image.now) (row image.now) pages.now × (length bytes.now ≡ length pages.now) }
    ensures turn { result ≡ out_of_turn ↔ handle.old.state ≢ ready }
    ensures layout { result ≡ bad_layout → IsBadLayout (length image.now) (row image.now) }
    ensures journal { result ≡ bad_journal → HasBadJournal (length image.now) (row image.now) }
    ensures pages { result ≡ bad_pages → length bytes.now ≡ length pages.now → ArePages (file_info (length image.now) (row image.now)) (capacity_pages (length image.now) (row image.now)) pages.now → ⊥ }
    ensures read_only { result ≡ read_only → AreReadOnly (length image.now) (row image.now) pages.now }
    ensures room { result ≡ no_room → AreCalls (length image.now) calls.new (room_of scratch_calls.old scratch_rows.old calls.old rows.old) }
    ensures memory { result ≡ no_memory → HasPoolHead (length image.now) (row image.now) }
    ensures answers { result ≤ 7 }
{
    *used = 0;
    if handle.state != READY {
        return TURN;
    }
    if pages.len() != bytes.len() {
        return BAD_PAGES;
    }
    let scratch = Scratch {
        calls: scratch_calls,
        rows: scratch_rows,
    };
    let planned = plan_commit(
        alloc,
        image,
        scratch,
        calls,
        rows,
        PageUpdates { pages, bytes },
    );
    match planned {
        Ok(count) => {
            *used = count;
            handle.state = PENDING;
            OK
        }
        Err(refusal) => number(refusal),
    }
}

/// Plans that all pages are brought home that stand in slots of a pool, so that all slots are free, or in an open journal of layout 2: homes at idle.
/// Returns 0, and the handle is pending then; 1 exactly where the handle is not ready; 2, 3, 6 and 7 as an opening does. After another result than
/// 0 the plan is empty and the handle as it was.
#[unsafe(no_mangle)]
pub extern "C" fn famsync_tidy(
    handle: &mut Handle,
    alloc: Global,
    image: &[[u8; 512]],
    scratch_calls: &mut [Call],
    scratch_rows: &mut [[u8; 512]],
    used: &mut usize,
    calls: &mut [Call],
    rows: &mut [[u8; 512]],
) -> u32
    ensures few { used.new ≤ room_of scratch_calls.old scratch_rows.old calls.old rows.old }
    ensures all { AreCalls (length image.now) calls.new used.new }
    ensures sources { AreSources (lent_page []) calls.new used.new }
    ensures synced { (n : ℕ) → IsLeftUnsynced calls.new used.new n → ⊥ }
    ensures any_moment { (files : ℕ → Option FileInfo) (pages : ℕ → ℕ → List ℕ) → StandsFor (length image.now) files pages (row image.now)
        → (left : Image) → StopLeaves calls.new rows.new (lent_page []) (row image.now) used.new left → StandsFor (length image.now) files pages left }
    ensures closed { result ≡ done → IsClosed (length image.now) (image_after calls.new rows.new (lent_page []) (row image.now) used.new) }
    ensures outside { KeepsOutside (length image.now) (row image.now) (image_after calls.new rows.new (lent_page []) (row image.now) used.new) }
    ensures state { result ≡ done → (handle.old.state ≡ ready) × (handle.new.state ≡ pending) }
    ensures nothing { result ≢ done → (used.new ≡ 0) × (handle.new ≡ handle.old) }
    ensures store { result ≡ done → IsStore (length image.now) (row image.now) }
    ensures turn { result ≡ out_of_turn ↔ handle.old.state ≢ ready }
    ensures layout { result ≡ bad_layout → IsBadLayout (length image.now) (row image.now) }
    ensures journal { result ≡ bad_journal → HasBadJournal (length image.now) (row image.now) }
    ensures room { result ≡ no_room → AreCalls (length image.now) calls.new (room_of scratch_calls.old scratch_rows.old calls.old rows.old) }
    ensures pages { result ≢ bad_pages }
    ensures read_only { result ≢ read_only }
    ensures memory { result ≡ no_memory → HasPoolHead (length image.now) (row image.now) }
    ensures answers { result ≤ 7 }
{
    *used = 0;
    if handle.state != READY {
        return TURN;
    }
    let scratch = Scratch {
        calls: scratch_calls,
        rows: scratch_rows,
    };
    match plan_tidy(alloc, image, scratch, calls, rows) {
        Ok(count) => {
            *used = count;
            handle.state = PENDING;
            OK
        }
        Err(refusal) => number(refusal),
    }
}

/// Plans that files get these sizes, and pages of theirs become durable with that, all at once: of an image of layout 4. `bytes` has first page `fresh[i]`, each of which is
/// one behind the last that its file had, and then page `pages[i]`; each with zeros past its file's end then. Every other page behind the last that its file had becomes
/// zeros, a row of homes by one call of kind 5. The sizes rise by file, both lists of pages by file and page; those of `pages` are pages of their files before and
/// after, and have among them the last page of a file that gets longer, where it was not full.
/// Returns 0, and the handle is pending then; 1 exactly where the handle is not ready; 4 to 9 as in `codes`. After another result than 0 the plan is empty and the
/// handle as it was.
#[unsafe(no_mangle)]
pub extern "C" fn famsync_resize(
    handle: &mut Handle,
    alloc: Global,
    image: &[[u8; 512]],
    scratch_calls: &mut [Call],
    scratch_rows: &mut [[u8; 512]],
    used: &mut usize,
    calls: &mut [Call],
    rows: &mut [[u8; 512]],
    sizes: &[FileSize],
    fresh: &[FilePage],
    pages: &[FilePage],
    bytes: &[PageBytes<'_>],
) -> u32
    ensures resizes { result ≡ done → PlansResizing image.now (room_of scratch_calls.old scratch_rows.old calls.old rows.old) sizes.now fresh.now pages.now (length bytes.now) (lent_page bytes.now) calls.new rows.new used.new }
    ensures state { result ≡ done → (handle.old.state ≡ ready) × (handle.new.state ≡ pending) }
    ensures nothing { result ≢ done → (used.new ≡ 0) × (handle.new ≡ handle.old) }
    ensures turn { result ≡ out_of_turn ↔ handle.old.state ≢ ready }
    ensures refused { handle.old.state ≡ ready → result ≢ done → RefusesResizing image.now (room_of scratch_calls.old scratch_rows.old calls.old rows.old) sizes.now fresh.now pages.now (length bytes.now) calls.new result }
{
    *used = 0;
    if handle.state != READY {
        return TURN;
    }
    let scratch = Scratch {
        calls: scratch_calls,
        rows: scratch_rows,
    };
    let updates = SizeUpdates {
        sizes,
        fresh,
        pages,
        bytes,
    };
    match plan_resize(alloc, image, scratch, calls, rows, updates) {
        Ok(count) => {
            *used = count;
            handle.state = PENDING;
            OK
        }
        Err(refusal) => number_of_resizing(refusal),
    }
}

/// Reads a page that begins inside its file: the file's bytes, and zeros past its end. Returns 0; 1 exactly where the handle is not ready; 2, 3,
/// 6 and 7 as an opening does; 4 where the page does not begin inside its file, or there is no such file.
#[unsafe(no_mangle)]
pub extern "C" fn famsync_read(
    handle: &Handle,
    alloc: Global,
    image: &[[u8; 512]],
    scratch_calls: &mut [Call],
    scratch_rows: &mut [[u8; 512]],
    file: u16,
    page: u32,
    to: &mut [u8; 4096],
) -> u32
    ensures page { result ≡ done → (files : ℕ → Option FileInfo) (pages : ℕ → ℕ → List ℕ) → StandsFor (length image.now) files pages (row image.now)
        → IsPageOf files file page → to.new ≡ pages file page }
    ensures store { result ≡ done → IsStore (length image.now) (row image.now) }
    ensures inside { result ≡ done → IsPageOf (file_info (length image.now) (row image.now)) file page }
    ensures turn { result ≡ out_of_turn ↔ handle.now.state ≢ ready }
    ensures layout { result ≡ bad_layout → IsBadLayout (length image.now) (row image.now) }
    ensures journal { result ≡ bad_journal → HasBadJournal (length image.now) (row image.now) }
    ensures pages { result ≡ bad_pages → IsPageOf (file_info (length image.now) (row image.now)) file page → ⊥ }
    ensures read_only { result ≢ read_only }
    ensures memory { result ≡ no_memory → HasPoolHead (length image.now) (row image.now) }
    ensures answers { result ≤ 7 }
{
    if handle.state != READY {
        return TURN;
    }
    let scratch = Scratch {
        calls: scratch_calls,
        rows: scratch_rows,
    };
    match read_page(alloc, image, scratch, FilePage { file, page }, to) {
        Ok(()) => OK,
        Err(refusal) => number(refusal),
    }
}

/// Tells the length of a file in bytes. Returns as `famsync_read`, 4 where there is no such file.
#[unsafe(no_mangle)]
pub extern "C" fn famsync_length(
    handle: &Handle,
    alloc: Global,
    image: &[[u8; 512]],
    scratch_calls: &mut [Call],
    scratch_rows: &mut [[u8; 512]],
    file: u16,
    to: &mut u64,
) -> u32
    ensures length { result ≡ done → (info : FileInfo) × (file_info (length image.now) (row image.now) file ≡ Some info) × (to.new ≡ info.length) }
    ensures store { result ≡ done → IsStore (length image.now) (row image.now) }
    ensures turn { result ≡ out_of_turn ↔ handle.now.state ≢ ready }
    ensures layout { result ≡ bad_layout → IsBadLayout (length image.now) (row image.now) }
    ensures journal { result ≡ bad_journal → HasBadJournal (length image.now) (row image.now) }
    ensures pages { result ≡ bad_pages → file_info (length image.now) (row image.now) file ≡ None }
    ensures read_only { result ≢ read_only }
    ensures memory { result ≡ no_memory → HasPoolHead (length image.now) (row image.now) }
    ensures answers { result ≤ 7 }
{
    if handle.state != READY {
        return TURN;
    }
    let scratch = Scratch {
        calls: scratch_calls,
        rows: scratch_rows,
    };
    match file_facts(alloc, image, scratch, file) {
        Ok(Some(info)) => {
            *to = info.length;
            OK
        }
        Ok(None) => BAD_PAGES,
        Err(refusal) => number(refusal),
    }
}

/// The calls of the plan were made, and all of them succeeded. Returns 0, and the handle is ready then; 1 exactly where it was not pending,
/// and it stays as it was.
#[unsafe(no_mangle)]
pub extern "C" fn famsync_done(handle: &mut Handle) -> u32
    ensures state { result ≡ done → (handle.old.state ≡ pending) × (handle.new.state ≡ ready) }
    ensures turn { result ≡ out_of_turn ↔ handle.old.state ≢ pending }
    ensures same { result ≢ done → handle.new ≡ handle.old }
    ensures answers { result ≤ 1 }
{
    if handle.state != PENDING {
        return TURN;
    }
    handle.state = READY;
    OK
}

/// A call failed. None may be made after it until the image is opened again: the handle is closed then, whatever it was.
#[unsafe(no_mangle)]
pub extern "C" fn famsync_failed(handle: &mut Handle)
    ensures { handle.new.state ≡ closed }
{
    handle.state = CLOSED;
}
