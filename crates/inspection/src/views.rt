//! What a machine holds, told as values to whoever looks inside: nothing here changes anything, and nothing above knows how memory is kept.
ghost use Rattle.std.specs.Prelude.{ℕ, ◌≡◌, ◌≤◌, ◌<◌, ◌↔◌, true, false, None, Some, IfSome, IsNone};
ghost use Rattle.vm_types.specs.Limits.{top_level};
ghost use Rattle.frames.specs.FrameTable.{IsFrame};
ghost use Rattle.sv39_walk.specs.Entry.{is_pointer};
ghost use Rattle.page_tables.specs.Tree.{IsTable};
ghost use Rattle.memory.specs.Kept.{IsLeafOf};
ghost use Rattle.memory.specs.Lines.{line_place};
ghost use Rattle.regions.specs.RunList.{IsNextRun};
ghost use Rattle.residency.specs.Picture.{is_live};
ghost use Rattle.sized_stores.specs.Store.{files_in};
ghost use Rattle.inspection.specs.Files.{IsFileView};
ghost use Rattle.inspection.specs.Frames.{IsFrameView, HoldsData, HasNoMapper, IsMapper};
ghost use Rattle.inspection.specs.Machines.{files_kept, hand_of, memory_of, Tells};
ghost use Rattle.inspection.specs.Pages.{HasNoEntryFrom, IsNextEntry, IsPageView};
ghost use Rattle.inspection.specs.Slots.{HasNoPageIn, IsNextSwapped, IsSlotView};
ghost use Rattle.inspection.specs.Tables.{IsPlaceOf};
ghost use Rattle.inspection.specs.Walks.{IsNextStep, IsStep, IsStepOfSome};
ghost use Rattle.machine.specs.Machine.{bits_of, halted_of, mode_of, IsSoundMachine};

use crate::files::FileView;
use crate::frame_views::{FrameView, Mapper};
use crate::pages::PageEntry;
use crate::places::PageView;
use crate::slots::SlotView;
use crate::tables::TablePlace;
use crate::walks::Step;
use crate::{buffer, files, frame_views, pages, places, slots, tables, walks};
use disk_model::SectorDisk;
use machine::Machine;
use memory::Line;
use regions::Run;
use vm_types::{FrameNo, PageKey, Pid, SlotNo};

/// What the root table of a process says on the way to page number `page`, whatever that number; `None` exactly where no such process lives, or
/// the machine has halted.
pub fn root_step<D: SectorDisk, E: SectorDisk>(
    machine: &Machine<D, E>,
    pid: Pid,
    page: u64,
) -> Option<Step>
    requires sound { IsSoundMachine D.SectorDisk E.SectorDisk machine.now }
    ensures tells { Tells machine.now (IsStep (memory_of machine.now) pid page) (is_live (memory_of machine.now) pid ≡ false) result }
    ensures level { IfSome result (λ step. step.level ≡ top_level (bits_of (mode_of machine.now))) }
    ensures root { IfSome result (λ step. (memory_of machine.now).root pid ≡ Some step.table.0) }
{
    match machine {
        Machine::Sv39(engine) => walks::root_step(engine.memory()?, pid, page),
        Machine::Sv48(engine) => walks::root_step(engine.memory()?, pid, page),
    }
}

/// What the next table says on the way to a page, one level below a step that was returned for that page, in the tree of whichever process; `None` exactly where the way ends with
/// that step, at the lowest level or where its entry is no pointer, or the machine has halted.
pub fn next_step<D: SectorDisk, E: SectorDisk>(
    machine: &Machine<D, E>,
    page: u64,
    step: Step,
) -> Option<Step>
    requires sound { IsSoundMachine D.SectorDisk E.SectorDisk machine.now }
    requires step { IsStepOfSome (memory_of machine.now) page step }
    ensures tells { Tells machine.now (IsStepOfSome (memory_of machine.now) page) (0 < step.level → is_pointer step.entry.0 ≡ false) result }
    ensures next { IfSome result (IsNextStep (memory_of machine.now) page step) }
    ensures pointer { IfSome result (λ next. is_pointer step.entry.0 ≡ true) }
{
    match machine {
        Machine::Sv39(engine) => walks::next_step(engine.memory()?, page, step),
        Machine::Sv48(engine) => walks::next_step(engine.memory()?, page, step),
    }
}

/// What frame `n` holds, and how many share it; `None` exactly where memory has no frame of that number, or the machine has halted.
pub fn frame_view<D: SectorDisk, E: SectorDisk>(
    machine: &Machine<D, E>,
    n: FrameNo,
) -> Option<FrameView>
    requires sound { IsSoundMachine D.SectorDisk E.SectorDisk machine.now }
    ensures { Tells machine.now (IsFrameView (memory_of machine.now) n.0) (IsFrame (memory_of machine.now).frames n.0 → ⊥) result }
{
    match machine {
        Machine::Sv39(engine) => frame_views::frame_view(engine.memory()?, n),
        Machine::Sv48(engine) => frame_views::frame_view(engine.memory()?, n),
    }
}

/// What slot `n` holds, and how many share it; `None` exactly where there is no slot of that number, or the machine has halted.
pub fn slot_view<D: SectorDisk, E: SectorDisk>(
    machine: &Machine<D, E>,
    n: SlotNo,
) -> Option<SlotView>
    requires sound { IsSoundMachine D.SectorDisk E.SectorDisk machine.now }
    ensures { Tells machine.now (IsSlotView (memory_of machine.now) n.0) ((memory_of machine.now).slots.total ≤ n.0) result }
{
    match machine {
        Machine::Sv39(engine) => slots::slot_view(engine.memory()?, n),
        Machine::Sv48(engine) => slots::slot_view(engine.memory()?, n),
    }
}

/// The first page over frame `n`, which holds an own copy or a page of a file or of shared anonymous memory, in the order of processes and pages,
/// from page number `page` of process number `pid` on; `None` exactly where there is none, the frame holds no such page, or the machine has halted.
pub fn next_mapper<D: SectorDisk, E: SectorDisk>(
    machine: &Machine<D, E>,
    n: FrameNo,
    pid: u64,
    page: u64,
) -> Option<Mapper>
    requires sound { IsSoundMachine D.SectorDisk E.SectorDisk machine.now }
    ensures { Tells machine.now (IsMapper (memory_of machine.now) n.0 pid page) (HoldsData (memory_of machine.now) n.0 → HasNoMapper (memory_of machine.now) n.0 pid page) result }
{
    match machine {
        Machine::Sv39(engine) => frame_views::next_mapper(engine.memory()?, n, pid, page),
        Machine::Sv48(engine) => frame_views::next_mapper(engine.memory()?, n, pid, page),
    }
}

/// The first page whose own copy lies in slot `n`, in the order of processes and pages, from page number `page` of process number `pid` on; `None`
/// exactly where there is none, or the machine has halted.
pub fn next_swapped<D: SectorDisk, E: SectorDisk>(
    machine: &Machine<D, E>,
    n: SlotNo,
    pid: u64,
    page: u64,
) -> Option<Mapper>
    requires sound { IsSoundMachine D.SectorDisk E.SectorDisk machine.now }
    ensures { Tells machine.now (IsNextSwapped (memory_of machine.now) n.0 pid page) (HasNoPageIn (memory_of machine.now) n.0 pid page) result }
{
    match machine {
        Machine::Sv39(engine) => slots::next_swapped(engine.memory()?, n, pid, page),
        Machine::Sv48(engine) => slots::next_swapped(engine.memory()?, n, pid, page),
    }
}

/// The pages of one run of a process that come first from page number `page` on, to the run's end; `None` exactly where the process has no page
/// from there on or doesn't live, or the machine has halted.
pub fn next_run<D: SectorDisk, E: SectorDisk>(
    machine: &Machine<D, E>,
    pid: Pid,
    page: u64,
) -> Option<Run>
    requires sound { IsSoundMachine D.SectorDisk E.SectorDisk machine.now }
    ensures { Tells machine.now (IsNextRun (bits_of (mode_of machine.now)) ((memory_of machine.now).at pid) page) ((k : ℕ) → page ≤ k → (memory_of machine.now).at pid k ≡ None) result }
{
    match machine {
        Machine::Sv39(engine) => pages::next_run(engine.memory()?, pid, page),
        Machine::Sv48(engine) => pages::next_run(engine.memory()?, pid, page),
    }
}

/// The first page of a process from page number `page` on that has an entry, with that entry; `None` exactly where none has, or the machine has
/// halted.
pub fn next_entry<D: SectorDisk, E: SectorDisk>(
    machine: &Machine<D, E>,
    pid: Pid,
    page: u64,
) -> Option<PageEntry>
    requires sound { IsSoundMachine D.SectorDisk E.SectorDisk machine.now }
    ensures { Tells machine.now (IsNextEntry (memory_of machine.now) pid page) (HasNoEntryFrom (memory_of machine.now) pid page) result }
{
    match machine {
        Machine::Sv39(engine) => pages::next_entry(engine.memory()?, pid, page),
        Machine::Sv48(engine) => pages::next_entry(engine.memory()?, pid, page),
    }
}

/// Where a page of a file or of shared anonymous memory lies, and whether it is touched; `None` exactly where the machine has halted.
pub fn page_view<D: SectorDisk, E: SectorDisk>(
    machine: &Machine<D, E>,
    page: PageKey,
) -> Option<PageView>
    requires sound { IsSoundMachine D.SectorDisk E.SectorDisk machine.now }
    ensures view { IfSome result (IsPageView (memory_of machine.now) page) }
    ensures none { IsNone result ↔ (halted_of machine.now ≡ true) }
{
    match machine {
        Machine::Sv39(engine) => Some(places::page_view(engine.memory()?, page)),
        Machine::Sv48(engine) => Some(places::page_view(engine.memory()?, page)),
    }
}

/// A file as it is now; `None` exactly where there is none of that number, or the machine has halted.
pub fn file_view<D: SectorDisk, E: SectorDisk>(
    machine: &Machine<D, E>,
    file: u16,
) -> Option<FileView>
    requires sound { IsSoundMachine D.SectorDisk E.SectorDisk machine.now }
    ensures { Tells machine.now (IsFileView (files_kept machine.now) file) (files_in (files_kept machine.now) file ≡ None) result }
{
    match machine {
        Machine::Sv39(engine) => files::file_view(engine.memory()?, file),
        Machine::Sv48(engine) => files::file_view(engine.memory()?, file),
    }
}

/// Where the table in frame `n` stands; `None` exactly where that frame has no table, or the machine has halted.
pub fn place_of_table<D: SectorDisk, E: SectorDisk>(
    machine: &Machine<D, E>,
    n: FrameNo,
) -> Option<TablePlace>
    requires sound { IsSoundMachine D.SectorDisk E.SectorDisk machine.now }
    ensures { Tells machine.now (IsPlaceOf (memory_of machine.now) n.0) (IsTable (memory_of machine.now).frames n.0 → ⊥) result }
{
    match machine {
        Machine::Sv39(engine) => tables::place_of_table(engine.memory()?, n),
        Machine::Sv48(engine) => tables::place_of_table(engine.memory()?, n),
    }
}

/// The line at place `index` of the buffer of translations: the leaf in which the walk to its page ends. `None` where that place, one of 64, has no
/// line, which no clause says, or the machine has halted.
pub fn line<D: SectorDisk, E: SectorDisk>(machine: &Machine<D, E>, index: usize) -> Option<Line>
    requires sound { IsSoundMachine D.SectorDisk E.SectorDisk machine.now }
    ensures running { IfSome result (λ _. halted_of machine.now ≡ false) }
    ensures leaf { IfSome result (λ line. IsLeafOf (bits_of (mode_of machine.now)) (memory_of machine.now).frames line.root.0 line.page line.leaf.0) }
    ensures place { IfSome result (λ line. line_place line.page ≡ index) }
{
    match machine {
        Machine::Sv39(engine) => buffer::line(engine.memory()?, index),
        Machine::Sv48(engine) => buffer::line(engine.memory()?, index),
    }
}

/// The frame that is looked at first when one is to be given up; `None` exactly where the machine has halted.
pub fn hand<D: SectorDisk, E: SectorDisk>(machine: &Machine<D, E>) -> Option<FrameNo>
    requires sound { IsSoundMachine D.SectorDisk E.SectorDisk machine.now }
    ensures hand { IfSome result (λ n. n.0 ≡ hand_of machine.now) }
    ensures inside { IfSome result (λ n. IsFrame (memory_of machine.now).frames n.0) }
    ensures none { IsNone result ↔ (halted_of machine.now ≡ true) }
{
    match machine {
        Machine::Sv39(engine) => Some(buffer::hand(engine.memory()?)),
        Machine::Sv48(engine) => Some(buffer::hand(engine.memory()?)),
    }
}
