//! Pages of objects that lose their last name.
ghost use Rattle.std.specs.Prelude.{◌≡◌, ◌≢◌, ℕ, Some, ◌+◌, ◌-◌, ◌≤◌, ◌<◌, true, false, IfSome, IfNone};
ghost use Rattle.vm_types.specs.Limits.{user_start, user_end};
ghost use Rattle.vm_types.specs.Objects.{is_named, names};
ghost use Rattle.vm_types.specs.declared.object.PageKey.TheVariants.{Object};
ghost use Rattle.vm_types.specs.declared.region.Backing.TheVariants.{Common};
ghost use Rattle.page_cache.specs.declared.place.Place.TheVariants.{Home};
ghost use Rattle.residency.specs.Picture.{picture_of, is_live};
ghost use Rattle.residency.specs.Parts.{IsFit};
ghost use Rattle.residency.specs.Steps.{Forgets};
ghost use Rattle.page_cache.specs.CacheTable.{cache_frames, slot_count};
ghost use Rattle.ranges.specs.ObjectSteps.{ForgetsLast, IsForgottenThere, IsNextCommon, NamesWithoutEntry};
ghost use Rattle.ranges.specs.Rows.{is_common, node_of};
ghost use Rattle.ranges.specs.RowsForgotten.{ForgetsNames};
ghost use Rattle.ranges.specs.RowsRemapped.{IsBareRowOf};

use regions::Run;
use residency::{Core, PLACES, page_over};
use vm_types::{Attr, Backing, FrameNo, Levels, ObjectPage, PageKey, Pid, SlotNo, Vpn};

/// A page of a process and the page of an object that it names.
#[derive(Clone, Copy)]
pub(crate) struct Named {
    pub(crate) at: Vpn,
    pub(crate) page: ObjectPage,
}

/// Forgets the pages of objects that the `pages` pages from `first` on of a live process name, and no other page does: each is at
/// home, as zeros, and its frame or slot is free. The pages of the row have no entries. Where none of them is of an object nothing is
/// looked at but the regions; else either the pages of the row that are, or all frames and slots, whichever are fewer, once each.
pub fn forget_row<D, E, M: Levels>(core: &mut Core<D, E, M>, pid: Pid, first: u64, pages: u64)
    requires { IsBareRowOf (picture_of core.old) pid first pages }
    ensures { ForgetsNames core.old core.new pid first pages }
{
    let count = common_pages(core, pid, first, first + pages);
    if count == 0 {
        return;
    }
    if count <= u64::from(core.cache.frames()) + u64::from(core.cache.slots()) {
        forget_pages(core, pid, first, pages);
    } else {
        forget_nodes(core, pid, first, pages);
    }
}

/// How many pages from `first` up to, not including, `end` are of objects.
fn common_pages<D, E, M: Levels>(core: &Core<D, E, M>, pid: Pid, first: u64, end: u64) -> u64
    requires live { is_live (picture_of core.now) pid ≡ true }
    ensures none { result ≡ 0 → (k object page : ℕ) → first ≤ k → k < end → names ((picture_of core.now).at pid k) object page ≡ false }
{
    let mut count = 0;
    let mut from = first;
    while let Some(run) = core.regions(pid).next_run(from) {
        if run.first >= end {
            return count;
        }
        count += common_part(run, end);
        from = run.end;
    }
    count
}

/// How many pages of a run below `end` are of objects: all or none.
fn common_part(run: Run, end: u64) -> u64
    requires part { (run.first < run.end) × (run.first < end) }
    ensures none { result ≡ 0 → is_common run.attr.backing ≡ false }
    ensures few { result ≤ run.end - run.first }
{
    if is_common(run.attr.backing) {
        run.end.min(end) - run.first
    } else {
        0
    }
}

/// `forget_row` by the pages of the row that are of objects.
fn forget_pages<D, E, M: Levels>(core: &mut Core<D, E, M>, pid: Pid, first: u64, pages: u64)
    requires { IsBareRowOf (picture_of core.old) pid first pages }
    ensures { ForgetsNames core.old core.new pid first pages }
{
    let mut from = first;
    while let Some(named) = next_common(core, pid, from, first + pages) {
        forget_there(core, pid, named.at, named.page);
        from = named.at.get() + 1;
    }
}

/// The first page from `first` up to, not including, `end` that is of an object.
fn next_common<D, E, M: Levels>(
    core: &Core<D, E, M>,
    pid: Pid,
    first: u64,
    end: u64,
) -> Option<Named>
    requires live { is_live (picture_of core.now) pid ≡ true }
    ensures some { IfSome result (IsNextCommon (picture_of core.now) pid first end) }
    ensures none { IfNone result ((k object page : ℕ) → first ≤ k → k < end → names ((picture_of core.now).at pid k) object page ≡ false) }
{
    let mut from = first;
    while let Some(run) = core.regions(pid).next_run(from) {
        if run.first >= end {
            return None;
        }
        if let Some(named) = first_of::<M>(run) {
            return Some(named);
        }
        from = run.end;
    }
    None
}

/// The first page of a run, where that is of an object.
fn first_of<M: Levels>(run: Run) -> Option<Named>
    requires user { (user_start ≤ run.first) × (run.first < user_end M.mode) }
    ensures some { IfSome result (λ named. (named.at ≡ run.first) × (run.attr.backing ≡ Common named.page)) }
    ensures none { IfNone result (is_common run.attr.backing ≡ false) }
{
    match (Vpn::new::<M>(run.first), run.attr.backing) {
        (Some(at), Backing::Common(page)) => Some(Named { at, page }),
        _ => None,
    }
}

/// `forget_row` by frames and slots.
fn forget_nodes<D, E, M: Levels>(core: &mut Core<D, E, M>, pid: Pid, first: u64, pages: u64)
    requires { IsBareRowOf (picture_of core.old) pid first pages }
    ensures { ForgetsNames core.old core.new pid first pages }
{
    let nodes = core.cache.frames() + core.cache.slots();
    for node in 0..nodes {
        if let Some(page) = object_at(core, node) {
            forget_last(core, pid, first, pages, page);
        }
    }
}

/// Whether that is a page of an object.
fn is_common(backing: Backing) -> bool
    ensures { result ≡ is_common backing }
{
    matches!(backing, Backing::Common(_))
}

/// The page of an object that a frame holds, or a slot, the slots being numbered behind the frames.
fn object_at<D, E, M: Levels>(core: &Core<D, E, M>, node: u32) -> Option<ObjectPage>
    requires { node < cache_frames core.now.cache + slot_count core.now.cache }
    ensures away { IfSome result (λ p. (picture_of core.now).place (Object p) ≢ Home) }
    ensures found { (p : ObjectPage) → node_of (cache_frames core.now.cache) ((picture_of core.now).place (Object p)) ≡ Some node → result ≡ Some p }
{
    match page_in(core, node) {
        Some(PageKey::Object(page)) => Some(page),
        _ => None,
    }
}

/// The page of a file or an object that a frame holds, or a slot, the slots being numbered behind the frames.
pub fn page_in<D, E, M: Levels>(core: &Core<D, E, M>, node: u32) -> Option<PageKey>
    requires { node < cache_frames core.now.cache + slot_count core.now.cache }
    ensures held { IfSome result (λ p. (picture_of core.now).place p ≢ Home) }
    ensures found { (p : PageKey) → node_of (cache_frames core.now.cache) ((picture_of core.now).place p) ≡ Some node → result ≡ Some p }
{
    let frames = core.cache.frames();
    if node < frames {
        return core.cache.page_in_frame(FrameNo(node));
    }
    core.cache.page_in_slot(SlotNo(node - frames))
}

/// Forgets a page of an object that lies somewhere, where none but the row names it.
fn forget_last<D, E, M: Levels>(
    core: &mut Core<D, E, M>,
    pid: Pid,
    first: u64,
    pages: u64,
    page: ObjectPage,
)
    requires bare { IsBareRowOf (picture_of core.old) pid first pages }
    requires away { (picture_of core.old).place (Object page) ≢ Home }
    ensures { ForgetsLast core.old core.new pid first pages page }
{
    let Some(at) = page_naming(core, pid, first, first + pages, page) else {
        return;
    };
    forget_there(core, pid, at, page);
}

/// Forgets a page of an object that a live process names at a page without an entry, where no other process does there. (A page of an
/// object is at one page number in all processes.)
fn forget_there<D, E, M: Levels>(core: &mut Core<D, E, M>, pid: Pid, at: Vpn, page: ObjectPage)
    requires { NamesWithoutEntry (picture_of core.old) pid at page }
    ensures fit { IsFit (picture_of core.new) }
    ensures there { IsForgottenThere core.old core.new pid at page }
{
    if !is_named_beside(core, pid, at, page) {
        core.forget(PageKey::Object(page));
    }
}

/// The page from `first` up to, not including, `end` that names that page of an object.
fn page_naming<D, E, M: Levels>(
    core: &Core<D, E, M>,
    pid: Pid,
    first: u64,
    end: u64,
    page: ObjectPage,
) -> Option<Vpn>
    requires live { is_live (picture_of core.now) pid ≡ true }
    ensures some { IfSome result (λ k. (first ≤ k) × (k < end) × (names ((picture_of core.now).at pid k) page.object page.page ≡ true)) }
    ensures none { IfNone result ((k : ℕ) → first ≤ k → k < end → names ((picture_of core.now).at pid k) page.object page.page ≡ false) }
{
    let mut from = first;
    while let Some(run) = core.regions(pid).next_run(from) {
        if run.first >= end {
            return None;
        }
        if let Some(at) = page_over::<M>(run, PageKey::Object(page)) {
            if at.get() < end {
                return Some(at);
            }
        }
        from = run.end;
    }
    None
}

/// Whether another process than this one names that page of an object at a page.
fn is_named_beside<D, E, M: Levels>(
    core: &Core<D, E, M>,
    pid: Pid,
    at: Vpn,
    page: ObjectPage,
) -> bool
    requires fit { IsFit (picture_of core.now) }
    ensures some { result ≡ true → (q : ℕ) × (q < 65) × (q ≢ pid) × (names ((picture_of core.now).at q at) page.object page.page ≡ true) }
    ensures none { result ≡ false → (q : ℕ) → q ≢ pid → names ((picture_of core.now).at q at) page.object page.page ≡ false }
{
    for number in 1..PLACES {
        if names_at(core, number as u64, pid, at, page) {
            return true;
        }
    }
    false
}

/// Whether the process of that number, where it is another one, names that page of an object at a page.
fn names_at<D, E, M: Levels>(
    core: &Core<D, E, M>,
    number: u64,
    pid: Pid,
    at: Vpn,
    page: ObjectPage,
) -> bool
    requires fit { IsFit (picture_of core.now) }
    ensures some { result ≡ true → (number ≢ pid) × (names ((picture_of core.now).at number at) page.object page.page ≡ true) }
    ensures none { result ≡ false → number ≢ pid → names ((picture_of core.now).at number at) page.object page.page ≡ false }
{
    let Some(other) = core.live(number) else {
        return false;
    };
    other.get() != pid.get() && is_object_page(core.regions(other).at(at), page)
}

/// Whether a page so mapped is of that page of an object.
fn is_object_page(attr: Option<Attr>, page: ObjectPage) -> bool
    ensures { result ≡ names attr page.object page.page }
{
    match attr {
        Some(
            Attr {
                prot: _,
                backing: Backing::Common(named),
            },
        ) => named.object == page.object && named.page == page.page,
        _ => false,
    }
}
