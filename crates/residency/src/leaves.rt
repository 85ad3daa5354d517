//! The entries over one frame, in the tables of all processes: found, and changed.
ghost use Rattle.std.specs.Prelude.{◌≡◌, ◌≢◌, ◌≤◌, ◌<◌, ◌+◌, ◌-◌, ◌^◌, ◌↔◌, ℕ, true, false, Some, IfSome, IfNone, IsSome};
ghost use Rattle.vm_types.specs.Limits.{top_level, user_start, user_end};
ghost use Rattle.vm_types.specs.Attributes.{stands_on};
ghost use Rattle.frames.specs.declared.role.Role.TheVariants as Roles;
ghost use Rattle.frames.specs.FrameTable.{IsFrame, role_of};
ghost use Rattle.sv39_walk.specs.Entry.{is_valid, is_accessed, is_dirty, frame_of};
ghost use Rattle.page_tables.specs.Entry.{number_of, IsEntry};
ghost use Rattle.page_tables.specs.Tree.{IsPage};
ghost use Rattle.residency.specs.Picture.{picture_of, is_data};
ghost use Rattle.residency.specs.Parts.{IsFit};
ghost use Rattle.residency.specs.declared.leaves.Change.{Change};
ghost use Rattle.residency.specs.declared.leaves.Change.TheVariants as Kinds;
ghost use Rattle.page_cache.specs.declared.place.Place.TheVariants.{Frame};
ghost use Rattle.residency.specs.Contents.{HasContent};
ghost use Rattle.residency.specs.Leaves.{concerns, IsOver, IsChanged, HasEntryOver, AreKinds, IsPageOver, key_after};
ghost use Rattle.residency.specs.LeafChanges.{HasData, LivesIn, IsAmong, IsOnlyOver, IsChangeable, IsSearchIn, FindsFirst, ClearsPage, ClearsProcess, ClearsFrame};

use crate::contents::{Content, content_of};
use crate::kernel::{Core, PLACES};
use crate::searches::{LeafSearch, LiveProcess};
use memory::{entry, entry_number, forget_pages, is_kind, kinds_over, set};
use page_tables::Entry;
use regions::Run;
use sv39_walk::Pte;
use vm_types::{FrameNo, Levels, PageKey, Vpn};

/// What becomes of an entry.
#[derive(Clone, Copy, Debug, PartialEq, Eq)]
pub enum Change {
    /// There is none any more.
    Forget,
    /// A is cleared.
    ClearAccessed,
    /// D is cleared.
    ClearDirty,
}

/// Whether the change is for that entry.
fn is_concerned(entry: Pte, change: Change) -> bool
    ensures { result ≡ concerns change entry.0 }
{
    match change {
        Change::Forget => entry.to_u64() != 0 && !entry.is_swapped(),
        Change::ClearAccessed => entry.is_valid() && entry.is_accessed(),
        Change::ClearDirty => entry.is_valid() && entry.is_dirty(),
    }
}

/// Whether the page has an entry over the frame that the change is for.
fn is_over<D, E, M: Levels>(
    core: &Core<D, E, M>,
    process: LiveProcess,
    page: Vpn,
    search: &LeafSearch,
) -> bool
    requires lives { LivesIn (picture_of core.now) process }
    ensures over { result ≡ true → IsOver (picture_of core.now) search.now.change search.now.frame.0 process.pid page }
    ensures other { result ≡ false → IsOver (picture_of core.now) search.now.change search.now.frame.0 process.pid page → ⊥ }
{
    let entry = entry_number(&core.frames, process.root, page);
    is_concerned(entry, search.change) && entry.frame() == u64::from(search.frame.0)
}

/// The first page of a process from a page on that has an entry over the frame that the change is for: that of the own copy, that
/// which is noted for the frame, or else the first that stands on what the frame holds.
pub(crate) fn find_in<D, E, M: Levels>(
    core: &Core<D, E, M>,
    process: LiveProcess,
    low: u64,
    search: &LeafSearch,
) -> Option<Vpn>
    requires lives { LivesIn (picture_of core.now) process }
    requires holds { HasContent (picture_of core.now) search.now.frame.0 search.now.content }
    ensures { FindsFirst (picture_of core.now) search.now process.pid low result }
{
    match search.content {
        Content::Own(page) => match Vpn::new::<M>(page) {
            Some(at) => find_at(core, process, low, at, search),
            None => None,
        },
        Content::Page(page) => match memory::page_over(&core.frames, search.frame) {
            Some(at) => find_at(core, process, low, at, search),
            None => find_standing(core, process, low, page, search),
        },
    }
}

/// The same where only one page can have such an entry.
fn find_at<D, E, M: Levels>(
    core: &Core<D, E, M>,
    process: LiveProcess,
    low: u64,
    page: Vpn,
    search: &LeafSearch,
) -> Option<Vpn>
    requires lives { LivesIn (picture_of core.now) process }
    requires only { IsOnlyOver (picture_of core.now) search.now process.pid page }
    ensures { FindsFirst (picture_of core.now) search.now process.pid low result }
{
    if low <= page.get() && is_over(core, process, page, search) {
        Some(page)
    } else {
        None
    }
}

/// The same by the runs of the process.
fn find_standing<D, E, M: Levels>(
    core: &Core<D, E, M>,
    process: LiveProcess,
    low: u64,
    page: PageKey,
    search: &LeafSearch,
) -> Option<Vpn>
    requires lives { LivesIn (picture_of core.now) process }
    requires placed { (picture_of core.now).place page ≡ Frame search.now.frame }
    ensures { FindsFirst (picture_of core.now) search.now process.pid low result }
{
    let mut from = low;
    while let Some(at) = core.regions[process.pid].first_on(from, page) {
        if is_over(core, process, at, search) {
            return Some(at);
        }
        from = at.get() + 1;
    }
    None
}

/// The page of a run that stands on this page of a file or an object.
pub fn page_over<M: Levels>(run: Run, page: PageKey) -> Option<Vpn>
    requires low { user_start ≤ run.first }
    requires order { run.first ≤ run.end }
    requires high { run.end ≤ user_end M.mode }
    ensures some { IfSome result (λ k. IsPageOver run page k) }
    ensures none { IfNone result ((k : ℕ) → IsPageOver run page k → ⊥) }
{
    match run.attr.backing.stands_on() {
        Some(first) => page_after::<M>(run, first, page),
        None => None,
    }
}

/// The same in a run the first page of which stands on `first`.
fn page_after<M: Levels>(run: Run, first: PageKey, page: PageKey) -> Option<Vpn>
    requires low { user_start ≤ run.first }
    requires order { run.first ≤ run.end }
    requires high { run.end ≤ user_end M.mode }
    requires first { stands_on run.attr.backing ≡ Some first }
    ensures some { IfSome result (λ k. IsPageOver run page k) }
    ensures none { IfNone result ((k : ℕ) → IsPageOver run page k → ⊥) }
{
    let offset = offset_from(first, page)?;
    if offset < run.end - run.first {
        Vpn::new::<M>(run.first + offset)
    } else {
        None
    }
}

/// How many pages further on than the first the second is; `None` where it isn't, or is of another file or object.
fn offset_from(first: PageKey, page: PageKey) -> Option<u64>
    ensures some { IfSome result (λ n. key_after first n ≡ page) }
    ensures none { IfNone result ((n : ℕ) → key_after first n ≡ page → ⊥) }
{
    match (first, page) {
        (PageKey::File(first), PageKey::File(page)) => {
            if first.file == page.file && first.page <= page.page {
                Some(u64::from(page.page - first.page))
            } else {
                None
            }
        }
        (PageKey::Object(first), PageKey::Object(page)) => {
            if first.object == page.object && first.page <= page.page {
                Some(page.page - first.page)
            } else {
                None
            }
        }
        _ => None,
    }
}

/// Changes the entry of one page, which is over the frame.
fn change_at<D, E, M: Levels>(
    core: &mut Core<D, E, M>,
    process: LiveProcess,
    page: Vpn,
    search: &LeafSearch,
)
    requires lives { LivesIn (picture_of core.old) process }
    requires user { page < user_end M.mode }
    requires over { IsOver (picture_of core.old) search.now.change search.now.frame.0 process.pid page }
    requires filed { search.now.change ≡ Kinds.Forget → role_of core.old.frames search.now.frame.0 ≡ Roles.Cache }
    ensures { ClearsPage search.now.change search.now.frame.0 process.pid page core.old core.new }
{
    let entry = changed(entry(&core.frames, process.root, page), search.change);
    set(&mut core.frames, process.root, page, entry);
}

/// Changes so each entry of a process that is over the frame.
fn change_in<D, E, M: Levels>(core: &mut Core<D, E, M>, process: LiveProcess, search: &LeafSearch)
    requires lives { LivesIn (picture_of core.old) process }
    requires held { IsChangeable (picture_of core.old) search.now }
    ensures { ClearsProcess search.now.change search.now.frame.0 process.pid core.old core.new }
{
    let mut low = 0;
    while let Some(page) = find_in(core, process, low, search) {
        change_at(core, process, page, search);
        low = page.get() + 1;
    }
}

/// The same for the process of that number, where it lives. Entries over the frame are in the trees of roots of these kinds alone.
fn change_of<D, E, M: Levels>(core: &mut Core<D, E, M>, pid: usize, kinds: u64, search: &LeafSearch)
    requires among { IsAmong (picture_of core.old) search.now kinds }
    requires number { pid < 65 }
    requires held { IsChangeable (picture_of core.old) search.now }
    ensures { ClearsProcess search.now.change search.now.frame.0 pid core.old core.new }
{
    match core.roots[pid] {
        Some(root) => {
            if is_kind(kinds, root) {
                change_in(core, LiveProcess { pid, root }, search);
            }
        }
        None => {}
    }
}

/// Changes so each entry over a frame that holds a page, in the tables of all processes: no process sees it. Entries are forgotten
/// only over a frame that holds a page of a file or an object.
pub fn change_leaves<D, E, M: Levels>(core: &mut Core<D, E, M>, frame: FrameNo, change: Change)
    requires fit { IsFit (picture_of core.old) }
    requires inside { IsFrame core.old.frames frame.0 }
    requires data { is_data (role_of core.old.frames frame.0) ≡ true }
    requires filed { change ≡ Kinds.Forget → role_of core.old.frames frame.0 ≡ Roles.Cache }
    ensures { ClearsFrame change frame.0 core.old core.new }
{
    let search = LeafSearch {
        frame,
        content: content_of(core, frame),
        change,
    };
    change_all(core, &search);
}

/// Changes so each entry over the frame, where it is known what that holds.
fn change_all<D, E, M: Levels>(core: &mut Core<D, E, M>, search: &LeafSearch)
    requires has { HasData (picture_of core.old) search.now.frame.0 }
    requires held { IsChangeable (picture_of core.old) search.now }
    ensures { ClearsFrame search.now.change search.now.frame.0 core.old core.new }
{
    let kinds = kinds_of(core, search);
    for pid in 1..PLACES {
        change_of(core, pid, kinds, search);
    }
}

/// Forgets each entry over the frame of a page of a file or an object, in the tables of all processes, and the notes of
/// which pages name it: no process sees it. So a frame that is taken again begins with no note.
pub(crate) fn forget_leaves<D, E, M: Levels>(
    core: &mut Core<D, E, M>,
    frame: FrameNo,
    page: PageKey,
)
    requires fit { IsFit (picture_of core.old) }
    requires inside { IsFrame core.old.frames frame.0 }
    requires placed { (picture_of core.old).place page ≡ Frame frame }
    ensures { ClearsFrame Kinds.Forget frame.0 core.old core.new }
{
    let search = LeafSearch {
        frame,
        content: Content::Page(page),
        change: Change::Forget,
    };
    change_all(core, &search);
    forget_pages(&mut core.frames, frame);
}

/// The kinds of the roots in whose trees there may be entries over a frame that holds a page. Own copies aren't noted.
fn kinds_of<D, E, M: Levels>(core: &Core<D, E, M>, search: &LeafSearch) -> u64
    requires { IsSearchIn (picture_of core.now) search.now }
    ensures { AreKinds (picture_of core.now) search.now.change search.now.frame.0 result }
{
    match search.content {
        Content::Own(_) => u64::MAX,
        Content::Page(_) => kinds_over(&core.frames, search.frame),
    }
}

/// Whether the change is for an entry over a frame that holds a page.
pub(crate) fn has_leaf<D, E, M: Levels>(core: &Core<D, E, M>, search: &LeafSearch) -> bool
    requires { IsSearchIn (picture_of core.now) search.now }
    ensures { (result ≡ true) ↔ HasEntryOver (picture_of core.now) search.now.change search.now.frame.0 }
{
    let kinds = kinds_of(core, search);
    for pid in 1..PLACES {
        if has_leaf_in(core, pid, kinds, search) {
            return true;
        }
    }
    false
}

/// The same for the process of that number, where it lives. Entries over the frame are in the trees of roots of these kinds alone.
fn has_leaf_in<D, E, M: Levels>(
    core: &Core<D, E, M>,
    pid: usize,
    kinds: u64,
    search: &LeafSearch,
) -> bool
    requires among { IsAmong (picture_of core.now) search.now kinds }
    requires number { pid < 65 }
    requires holds { HasContent (picture_of core.now) search.now.frame.0 search.now.content }
    ensures some { result ≡ true → HasEntryOver (picture_of core.now) search.now.change search.now.frame.0 }
    ensures none { result ≡ false → (page : ℕ) → IsPage (top_level M.mode) page → IsOver (picture_of core.now) search.now.change search.now.frame.0 pid page → ⊥ }
{
    let Some(root) = core.roots[pid] else {
        return false;
    };
    if !is_kind(kinds, root) {
        return false;
    }
    find_in(core, LiveProcess { pid, root }, 0, search).is_some()
}

/// The entry changed.
fn changed(entry: Entry, change: Change) -> Entry
    requires form { IsEntry entry }
    requires concerned { concerns change (number_of entry) ≡ true }
    ensures form { IsEntry result }
    ensures changed { IsChanged change (number_of entry) (number_of result) }
{
    let Entry::Leaf(leaf) = entry else {
        return Entry::None;
    };
    match change {
        Change::Forget => Entry::None,
        Change::ClearAccessed => Entry::Leaf(without_accessed(leaf)),
        Change::ClearDirty => Entry::Leaf(without_dirty(leaf)),
    }
}

/// The entry with A clear.
fn without_accessed(leaf: Pte) -> Pte
    requires { is_accessed leaf.0 ≡ true }
    ensures { IsChanged Kinds.ClearAccessed leaf.0 result.0 }
{
    leaf.without_accessed()
}

/// The entry with D clear.
fn without_dirty(leaf: Pte) -> Pte
    requires { is_dirty leaf.0 ≡ true }
    ensures { IsChanged Kinds.ClearDirty leaf.0 result.0 }
{
    leaf.without_dirty()
}
