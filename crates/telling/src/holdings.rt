//! Answers about frames and slots.
ghost use Rattle.std.specs.Prelude.{◌≡◌, false};
ghost use Rattle.inspection.specs.Frames.{HasNoMapper, HoldsData, IsMapper};
ghost use Rattle.inspection.specs.Machines.{memory_of, Tells};
ghost use Rattle.inspection.specs.Slots.{HasNoPageIn, IsNextSwapped};
ghost use Rattle.machine.specs.Machine.{halted_of, IsSoundMachine};
ghost use Rattle.telling.specs.Searches.{holds_touched, page_behind, pid_behind};

use disk_model::SectorDisk;
use inspection::{Holding, Mapper, SlotHolding};
use machine::Machine;
use std::io::{self, Write};
use vm_types::{FrameNo, SlotNo};
use watching::{HoldingText, PageText, StateText, TableText};
use ways::top_level;

/// `?frames`: a line for each frame from `first` to `last` that is not free, and how many of them are. The clock's hand stands at `>`.
pub(crate) fn tell_frames<W: Write, D: SectorDisk, E: SectorDisk>(
    machine: &Machine<D, E>,
    first: u32,
    last: u32,
    out: &mut W,
) -> io::Result<()>
    requires { IsSoundMachine D.SectorDisk E.SectorDisk machine.now }
{
    let hand = inspection::hand(machine);
    let mut free: u32 = 0;
    for n in first..last.saturating_add(1) {
        let Some(view) = inspection::frame_view(machine, FrameNo(n)) else {
            break;
        };
        let is_at_hand = hand == Some(FrameNo(n));
        if view.holding == Holding::Nothing {
            free = free.saturating_add(1);
        }
        if view.holding != Holding::Nothing || is_at_hand {
            let mark = if is_at_hand { '>' } else { ' ' };
            write!(out, "  {mark} frame {n}  ")?;
            tell_frame(machine, FrameNo(n), view.holding, out)?;
        }
    }
    writeln!(out, "  free {free}")
}

/// What a frame holds, and the pages over it.
fn tell_frame<W: Write, D: SectorDisk, E: SectorDisk>(
    machine: &Machine<D, E>,
    frame: FrameNo,
    holding: Holding,
    out: &mut W,
) -> io::Result<()>
    requires { IsSoundMachine D.SectorDisk E.SectorDisk machine.now }
{
    match holding {
        Holding::Table => tell_table(machine, frame, out)?,
        _ => write!(out, "{}", HoldingText(holding))?,
    }
    if holds_touched(machine, holding) {
        write!(out, ", touched")?;
    }
    tell_mappers(machine, frame, out)?;
    writeln!(out, "")
}

fn tell_table<W: Write, D: SectorDisk, E: SectorDisk>(
    machine: &Machine<D, E>,
    frame: FrameNo,
    out: &mut W,
) -> io::Result<()>
    requires { IsSoundMachine D.SectorDisk E.SectorDisk machine.now }
{
    let top = top_level(machine);
    match inspection::place_of_table(machine, frame) {
        Some(place) => write!(out, "{}", TableText { place: &place, top }),
        None => write!(out, "a table"),
    }
}

/// Whether what a frame holds is touched: only a page of a file or of shared anonymous memory can be.
fn holds_touched<D: SectorDisk, E: SectorDisk>(machine: &Machine<D, E>, holding: Holding) -> bool
    requires { IsSoundMachine D.SectorDisk E.SectorDisk machine.now }
    ensures { halted_of machine.now ≡ false → result ≡ holds_touched (memory_of machine.now) holding }
{
    match holding {
        Holding::Page(page) => match inspection::page_view(machine, page) {
            Some(view) => view.is_touched,
            None => false,
        },
        _ => false,
    }
}

/// The pages over a frame, each with its process and its bits.
fn tell_mappers<W: Write, D: SectorDisk, E: SectorDisk>(
    machine: &Machine<D, E>,
    frame: FrameNo,
    out: &mut W,
) -> io::Result<()>
    requires { IsSoundMachine D.SectorDisk E.SectorDisk machine.now }
{
    let mut last = None;
    for i in 0..u64::MAX {
        let Some(mapper) = mapper_behind(machine, frame, last) else {
            break;
        };
        last = Some(mapper);
        tell_page(&mapper, out)?;
        write!(out, " {}", StateText(mapper.entry))?;
    }
    Ok(())
}

/// The page over a frame that comes next behind this one, in the order of processes and pages; the first one where this is none.
fn mapper_behind<D: SectorDisk, E: SectorDisk>(
    machine: &Machine<D, E>,
    frame: FrameNo,
    last: Option<Mapper>,
) -> Option<Mapper>
    requires { IsSoundMachine D.SectorDisk E.SectorDisk machine.now }
    ensures { Tells machine.now (IsMapper (memory_of machine.now) frame.0 (pid_behind last) (page_behind last))
        (HoldsData (memory_of machine.now) frame.0 → HasNoMapper (memory_of machine.now) frame.0 (pid_behind last) (page_behind last)) result }
{
    let (pid, page) = behind(last);
    inspection::next_mapper(machine, frame, pid, page)
}

/// The process and the page at which a search goes on behind that page; those of the first page of all where it is none.
fn behind(last: Option<Mapper>) -> (u64, u64)
    ensures pid { result.0 ≡ pid_behind last }
    ensures page { result.1 ≡ page_behind last }
{
    match last {
        Some(mapper) => (u64::from(mapper.pid.get()), mapper.page.get() + 1),
        None => (1, 0),
    }
}

/// A page with its process.
fn tell_page<W: Write>(mapper: &Mapper, out: &mut W) -> io::Result<()> {
    write!(out, "  {}:0x{:x}", mapper.pid.get(), mapper.page.get())
}

/// `?slots`: a line for each slot that holds something, and how many are free.
pub(crate) fn tell_slots<W: Write, D: SectorDisk, E: SectorDisk>(
    machine: &Machine<D, E>,
    out: &mut W,
) -> io::Result<()>
    requires { IsSoundMachine D.SectorDisk E.SectorDisk machine.now }
{
    let mut free: u32 = 0;
    for n in 0..u32::MAX {
        let Some(view) = inspection::slot_view(machine, SlotNo(n)) else {
            break;
        };
        match view.holding {
            SlotHolding::Nothing => free = free.saturating_add(1),
            SlotHolding::Page(page) => writeln!(out, "    slot {n}  {}, touched", PageText(page))?,
            SlotHolding::Own => tell_own_slot(machine, SlotNo(n), out)?,
        }
    }
    writeln!(out, "  free {free}")
}

/// A slot of own copies, with the pages that have it.
fn tell_own_slot<W: Write, D: SectorDisk, E: SectorDisk>(
    machine: &Machine<D, E>,
    slot: SlotNo,
    out: &mut W,
) -> io::Result<()>
    requires { IsSoundMachine D.SectorDisk E.SectorDisk machine.now }
{
    write!(out, "    slot {}  own copy", slot.0)?;
    let mut last = None;
    for i in 0..u64::MAX {
        let Some(owner) = swapped_behind(machine, slot, last) else {
            break;
        };
        last = Some(owner);
        tell_page(&owner, out)?;
    }
    writeln!(out, "")
}

/// The page whose own copy lies in a slot that comes next behind this one, in the order of processes and pages; the first one where this is none.
fn swapped_behind<D: SectorDisk, E: SectorDisk>(
    machine: &Machine<D, E>,
    slot: SlotNo,
    last: Option<Mapper>,
) -> Option<Mapper>
    requires { IsSoundMachine D.SectorDisk E.SectorDisk machine.now }
    ensures { Tells machine.now (IsNextSwapped (memory_of machine.now) slot.0 (pid_behind last) (page_behind last))
        (HasNoPageIn (memory_of machine.now) slot.0 (pid_behind last) (page_behind last)) result }
{
    let (pid, page) = behind(last);
    inspection::next_swapped(machine, slot, pid, page)
}

/// How many frames and slots there are of each kind.
#[derive(Clone, Copy, Default)]
struct Usage {
    free: u32,
    tables: u32,
    own: u32,
    cache: u32,
}

impl Usage {
    fn add(&mut self, holding: Holding) {
        match holding {
            Holding::Nothing => self.free = self.free.saturating_add(1),
            Holding::Zeros => {}
            Holding::Table => self.tables = self.tables.saturating_add(1),
            Holding::Own(_) => self.own = self.own.saturating_add(1),
            Holding::Page(_) => self.cache = self.cache.saturating_add(1),
        }
    }
}

/// What frames hold, counted, and how many slots hold something.
pub(crate) fn tell_usage<W: Write, D: SectorDisk, E: SectorDisk>(
    machine: &Machine<D, E>,
    out: &mut W,
) -> io::Result<()>
    requires { IsSoundMachine D.SectorDisk E.SectorDisk machine.now }
{
    let usage = usage_of(machine);
    writeln!(out, "  frames-free {}", usage.free)?;
    writeln!(out, "  frames-tables {}", usage.tables)?;
    writeln!(out, "  frames-own {}", usage.own)?;
    writeln!(out, "  frames-cache {}", usage.cache)?;
    writeln!(out, "  slots-used {}", used_slots(machine))
}

fn usage_of<D: SectorDisk, E: SectorDisk>(machine: &Machine<D, E>) -> Usage
    requires { IsSoundMachine D.SectorDisk E.SectorDisk machine.now }
{
    let mut usage = Usage::default();
    for n in 0..u32::MAX {
        let Some(view) = inspection::frame_view(machine, FrameNo(n)) else {
            break;
        };
        usage.add(view.holding);
    }
    usage
}

fn used_slots<D: SectorDisk, E: SectorDisk>(machine: &Machine<D, E>) -> u32
    requires { IsSoundMachine D.SectorDisk E.SectorDisk machine.now }
{
    let mut used: u32 = 0;
    for n in 0..u32::MAX {
        let Some(view) = inspection::slot_view(machine, SlotNo(n)) else {
            break;
        };
        if view.shares > 0 {
            used = used.saturating_add(1);
        }
    }
    used
}
