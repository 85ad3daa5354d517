//! The way of an address through the tables of a process (RISC-V Privileged Specification, "Virtual Address Translation Process").
ghost use Rattle.std.specs.Prelude.{◌≡◌, ◌≤◌, ◌<◌, true, false, Some, IfSome, IfNone};
ghost use Rattle.vm_types.specs.Limits.{top_level};
ghost use Rattle.sv39_walk.specs.Entry.{is_pointer};
ghost use Rattle.page_tables.specs.Tree.{IsTable};
ghost use Rattle.residency.specs.Picture.{picture_of, is_live};
ghost use Rattle.residency.specs.Parts.{IsFit};
ghost use Rattle.inspection.specs.Walks.{IsEntryOf, IsNextStep, IsStep, IsStepOfSome};

use memory::{Memory, entry_in};
use residency::Core;
use sv39_walk::{Pte, table_index};
use vm_types::{FrameNo, Levels, Pid};

/// What one table says on the way to a page.
#[derive(Clone, Copy, Debug, PartialEq, Eq)]
pub struct Step {
    /// The level of the table: 0 is the lowest.
    pub level: u32,
    /// The frame that the table lies in.
    pub table: FrameNo,
    /// The place of the entry in it.
    pub index: usize,
    pub entry: Pte,
}

/// What the root table of a process says on the way to a page, whatever its number; `None` exactly where no such process lives.
pub(crate) fn root_step<D, E, M: Levels>(core: &Core<D, E, M>, pid: Pid, page: u64) -> Option<Step>
    requires fit { IsFit (picture_of core.now) }
    ensures some { IfSome result (IsStep (picture_of core.now) pid page) }
    ensures level { IfSome result (λ step. step.level ≡ top_level M.mode) }
    ensures root { IfSome result (λ step. (picture_of core.now).root pid ≡ Some step.table.0) }
    ensures none { IfNone result (is_live (picture_of core.now) pid ≡ false) }
{
    match core.root(pid) {
        Some(root) => Some(step_in(&core.frames, root, page, M::top_level())),
        None => None,
    }
}

/// What the next table says on the way to a page, one level lower, in the tree of whichever process has this step; `None` exactly where the way
/// ends with it: at the lowest level, or where the entry is no pointer.
pub(crate) fn next_step<D, E, M: Levels>(
    core: &Core<D, E, M>,
    page: u64,
    step: Step,
) -> Option<Step>
    requires fit { IsFit (picture_of core.now) }
    requires step { IsStepOfSome (picture_of core.now) page step }
    ensures some { IfSome result (IsStepOfSome (picture_of core.now) page) }
    ensures next { IfSome result (IsNextStep (picture_of core.now) page step) }
    ensures pointer { IfSome result (λ next. is_pointer step.entry.0 ≡ true) }
    ensures none { IfNone result (0 < step.level → is_pointer step.entry.0 ≡ false) }
{
    if step.level > 0 && step.entry.is_pointer() {
        let table = step.entry.frame_number();
        Some(step_in(&core.frames, table, page, step.level - 1))
    } else {
        None
    }
}

// What a table of that level says on the way to a page.
fn step_in<M: Levels>(memory: &Memory<M>, table: FrameNo, page: u64, level: u32) -> Step
    requires table { IsTable memory.now table.0 }
    requires level { level ≤ 3 }
    ensures step { IsEntryOf memory.now page result }
    ensures level { result.level ≡ level }
    ensures table { result.table ≡ table }
{
    let index = table_index(page, level);
    Step {
        level,
        table,
        index,
        entry: entry_in(memory, table, index),
    }
}
