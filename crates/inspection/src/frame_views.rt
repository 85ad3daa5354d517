//! What a frame holds, and which pages have it.
ghost use Rattle.std.specs.Prelude.{ℕ, ◌≡◌, ◌≤◌, ◌<◌, ◌==◌, if◌then◌else◌, true, false, IfSome, IfNone};
ghost use Rattle.vm_types.specs.Limits.{top_level};
ghost use Rattle.frames.specs.FrameTable.{IsFrame};
ghost use Rattle.page_tables.specs.Tree.{IsPage};
ghost use Rattle.residency.specs.declared.leaves.Change.TheVariants as Kinds;
ghost use Rattle.residency.specs.Picture.{picture_of, is_data};
ghost use Rattle.residency.specs.Parts.{IsFit};
ghost use Rattle.residency.specs.Leaves.{IsOver};
ghost use Rattle.inspection.specs.Frames.{IsDataFrame, IsFrameView, IsHolding, HoldsData, HasNoMapper, IsMapper};

use frames::Role;
use memory::entry_number;
use residency::{Content, Core, content_of, next_over};
use sv39_walk::Pte;
use vm_types::{FrameNo, Levels, PROCESSES, PageKey, Pid, Vpn};

/// What a frame holds.
#[derive(Clone, Copy, Debug, PartialEq, Eq)]
pub enum Holding {
    /// Nothing: it is free.
    Nothing,
    /// The zero page.
    Zeros,
    /// A page table.
    Table,
    /// The own copy of the page of that number, of each process that shares it.
    Own(u64),
    /// That page of a file or of shared anonymous memory.
    Page(PageKey),
}

/// A frame as it is.
#[derive(Clone, Copy, Debug, PartialEq, Eq)]
pub struct FrameView {
    pub holding: Holding,
    /// How many share it.
    pub shares: u8,
}

/// What frame `n` holds, and how many share it; `None` exactly where memory has no frame of that number.
pub(crate) fn frame_view<D, E, M: Levels>(core: &Core<D, E, M>, n: FrameNo) -> Option<FrameView>
    requires fit { IsFit (picture_of core.now) }
    ensures some { IfSome result (IsFrameView (picture_of core.now) n.0) }
    ensures none { IfNone result (IsFrame core.now.frames n.0 → ⊥) }
{
    if n.0 < core.frames.len() {
        Some(FrameView {
            holding: holding_of(core, n),
            shares: core.frames.count(n),
        })
    } else {
        None
    }
}

fn holding_of<D, E, M: Levels>(core: &Core<D, E, M>, n: FrameNo) -> Holding
    requires fit { IsFit (picture_of core.now) }
    requires inside { IsFrame core.now.frames n.0 }
    ensures { IsHolding (picture_of core.now) n.0 result }
{
    match core.frames.role(n) {
        Role::Free => Holding::Nothing,
        Role::Zero => Holding::Zeros,
        Role::Table => Holding::Table,
        Role::Private | Role::Cache => match content_of(core, n) {
            Content::Own(page) => Holding::Own(page),
            Content::Page(page) => Holding::Page(page),
        },
    }
}

/// A page of a process, and its entry, which names a frame or a slot.
#[derive(Clone, Copy, Debug, PartialEq, Eq)]
pub struct Mapper {
    pub pid: Pid,
    pub page: Vpn,
    pub entry: Pte,
}

/// The first page over frame `n`, which holds an own copy or a page of a file or of shared anonymous memory, in the order of processes
/// and pages, from page `page` of process number `pid` on; `None` exactly where there is none, or no such frame.
pub(crate) fn next_mapper<D, E, M: Levels>(
    core: &Core<D, E, M>,
    n: FrameNo,
    pid: u64,
    page: u64,
) -> Option<Mapper>
    requires fit { IsFit (picture_of core.now) }
    ensures some { IfSome result (IsMapper (picture_of core.now) n.0 pid page) }
    ensures none { IfNone result (HoldsData (picture_of core.now) n.0 → HasNoMapper (picture_of core.now) n.0 pid page) }
{
    if n.0 < core.frames.len() && holds_data(core.frames.role(n)) {
        first_mapper(core, n, pid, page)
    } else {
        None
    }
}

// Whether a frame of that role holds a page of a process or of a file.
fn holds_data(role: Role) -> bool
    ensures { result ≡ is_data role }
{
    matches!(role, Role::Private | Role::Cache)
}

// The same over a frame of data.
fn first_mapper<D, E, M: Levels>(
    core: &Core<D, E, M>,
    n: FrameNo,
    pid: u64,
    page: u64,
) -> Option<Mapper>
    requires { IsDataFrame (picture_of core.now) n.0 }
    ensures some { IfSome result (IsMapper (picture_of core.now) n.0 pid page) }
    ensures none { IfNone result (HasNoMapper (picture_of core.now) n.0 pid page) }
{
    for number in pid..PROCESSES as u64 + 1 {
        let low = low_in(number, pid, page);
        if let Some(found) = mapper_of(core, n, number, low) {
            return Some(found);
        }
    }
    None
}

// The first page of a process that is looked at, where page `page` of process `pid` is the first of all.
pub(crate) fn low_in(number: u64, pid: u64, page: u64) -> u64
    ensures { result ≡ (if number == pid then page else 0) }
{
    if number == pid { page } else { 0 }
}

// The same in the process of that number alone.
fn mapper_of<D, E, M: Levels>(
    core: &Core<D, E, M>,
    n: FrameNo,
    number: u64,
    low: u64,
) -> Option<Mapper>
    requires { IsDataFrame (picture_of core.now) n.0 }
    ensures some { IfSome result (λ m. IsMapper (picture_of core.now) n.0 number low m × (m.pid ≡ number)) }
    ensures none { IfNone result ((k : ℕ) → low ≤ k → IsPage (top_level M.mode) k → IsOver (picture_of core.now) Kinds.Forget n.0 number k → ⊥) }
{
    let pid = core.live(number)?;
    let page = next_over(core, pid, low, n)?;
    let root = core.root(pid)?;
    Some(Mapper {
        pid,
        page,
        entry: entry_number(&core.frames, root, page),
    })
}
