//! The way of an address through the page tables of its process.
ghost use Rattle.std.specs.Prelude.{ℕ, ◌≡◌, ◌<◌, ◌≤◌, ◌^◌, true, false, Some, IfSome, IfNone};
ghost use Rattle.sv39_walk.specs.Entry.{frame_of, is_swapped};
ghost use Rattle.inspection.specs.Walks.{IsStepOfSome};
ghost use Rattle.machine.specs.Machine.{bits_of, mode_of, IsSoundMachine};
ghost use Rattle.inspection.specs.Machines.{memory_of};
ghost use Rattle.vm_types.specs.Limits.{top_level, user_end};
ghost use Rattle.inspection.specs.declared.walks.Step.{Step};
ghost use Rattle.ways.specs.WaySteps.{StepsFrom, IsWayOf, last_step};

use disk_model::SectorDisk;
use inspection::Step;
use machine::Machine;
use sv39_walk::{Pte, TABLE_ENTRIES};
use vm_types::{FrameNo, Levels, Pid, SlotNo, Sv39, Sv48};

/// What the tables on the way to a page say, from the root on: four at most.
#[derive(Clone, Copy)]
pub struct Way {
    pub steps: [Option<Step>; 4],
}

impl Way {
    /// The way to a page of a process; without a step where no such process lives or the machine has halted.
    pub fn new<D: SectorDisk, E: SectorDisk>(machine: &Machine<D, E>, pid: Pid, page: u64) -> Way
        requires { IsSoundMachine D.SectorDisk E.SectorDisk machine.now }
        ensures { IsWayOf machine.now pid page result.steps }
    {
        let root = inspection::root_step(machine, pid, page);
        let second = step_below(machine, page, root);
        let third = step_below(machine, page, second);
        let fourth = step_below(machine, page, third);
        Way {
            steps: [root, second, third, fourth],
        }
    }

    /// What the last table on the way says.
    pub fn last(&self) -> Option<Step>
        ensures { result ≡ last_step self.now.steps }
    {
        let [root, second, third, fourth] = self.steps;
        fourth.or(third).or(second).or(root)
    }

    /// The entry of the page itself; `None` where a table is missing on the way.
    pub fn entry(&self) -> Option<Pte>
        ensures some { IfSome result (λ entry. (step : Step) × (last_step self.now.steps ≡ Some step) × (step.level ≡ 0) × (step.entry ≡ entry)) }
        ensures none { IfNone result ((step : Step) → last_step self.now.steps ≡ Some step → 0 < step.level) }
    {
        match self.last() {
            Some(
                Step {
                    level: 0,
                    entry,
                    ..
                },
            ) => Some(entry),
            _ => None,
        }
    }
}

/// The next step behind one.
fn step_below<D: SectorDisk, E: SectorDisk>(
    machine: &Machine<D, E>,
    page: u64,
    step: Option<Step>,
) -> Option<Step>
    requires sound { IsSoundMachine D.SectorDisk E.SectorDisk machine.now }
    requires step { IfSome step (IsStepOfSome (memory_of machine.now) page) }
    ensures some { IfSome result (IsStepOfSome (memory_of machine.now) page) }
    ensures goes_on { (pid : ℕ) → StepsFrom machine.now pid page step result }
{
    match step {
        Some(step) => inspection::next_step(machine, page, step),
        None => None,
    }
}

/// How many pages stand in the place of one entry of a table of that level.
pub fn pages_of_entry(level: u32) -> u64
    ensures some { 0 < result }
    ensures pages { level ≤ 3 → result ≡ 512 ^ level }
{
    match level {
        0 => 1,
        1 => TABLE_ENTRIES,
        2 => TABLE_ENTRIES * TABLE_ENTRIES,
        _ => TABLE_ENTRIES * TABLE_ENTRIES * TABLE_ENTRIES,
    }
}

/// The level of a root table.
pub fn top_level<D, E>(machine: &Machine<D, E>) -> u32
    ensures level { result ≡ top_level (bits_of (mode_of machine.now)) }
    ensures most { result ≤ 3 }
{
    match machine {
        Machine::Sv39(_) => Sv39::top_level(),
        Machine::Sv48(_) => Sv48::top_level(),
    }
}

/// One past the last user page.
pub fn user_end<D, E>(machine: &Machine<D, E>) -> u64
    ensures { result ≡ user_end (bits_of (mode_of machine.now)) }
{
    match machine {
        Machine::Sv39(_) => Sv39::user_end(),
        Machine::Sv48(_) => Sv48::user_end(),
    }
}

/// The frame that a page's entry names; `None` where it says nothing, or names a slot.
pub fn frame_in(entry: Pte) -> Option<FrameNo>
    ensures frame { IfSome result (λ frame. (0 < entry.0) × (frame.0 ≡ frame_of entry.0) × (is_swapped entry.0 ≡ false)) }
    ensures none { IfNone result (0 < entry.0 → is_swapped entry.0 ≡ false → 2 ^ 32 ≤ frame_of entry.0) }
{
    if entry.to_u64() == 0 || entry.is_swapped() {
        return None;
    }
    match u32::try_from(entry.frame()) {
        Ok(frame) => Some(FrameNo(frame)),
        Err(_) => None,
    }
}

/// The slot that a page's entry names; `None` where it names none.
pub fn slot_in(entry: Pte) -> Option<SlotNo>
    ensures slot { IfSome result (λ slot. (slot.0 ≡ frame_of entry.0) × (is_swapped entry.0 ≡ true)) }
    ensures none { IfNone result (is_swapped entry.0 ≡ true → 2 ^ 32 ≤ frame_of entry.0) }
{
    if !entry.is_swapped() {
        return None;
    }
    match u32::try_from(entry.frame()) {
        Ok(slot) => Some(SlotNo(slot)),
        Err(_) => None,
    }
}
