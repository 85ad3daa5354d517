//! Answers about page tables, and about the buffer of translations.
ghost use Rattle.std.specs.Prelude.{◌≡◌, ◌≤◌, Some, IfSome};
ghost use Rattle.inspection.specs.Machines.{memory_of};
ghost use Rattle.machine.specs.Machine.{IsSoundMachine};

use disk_model::SectorDisk;
use inspection::{Line, Step};
use machine::Machine;
use memory::LINES;
use std::io::{self, Write};
use sv39_walk::Pte;
use vm_types::{FrameNo, PAGE_BYTES, PROCESSES, Pid};
use watching::{BitsText, EntryText, bytes_before};
use ways::{Way, pages_of_entry, top_level, user_end};

/// The bytes of an entry.
const ENTRY_BYTES: usize = 8;

/// `?walk P ADDR`: a line for each table on the way of an address, and where the way ends.
pub(crate) fn tell_walk<W: Write, D: SectorDisk, E: SectorDisk>(
    machine: &Machine<D, E>,
    pid: Pid,
    addr: u64,
    out: &mut W,
) -> io::Result<()>
    requires { IsSoundMachine D.SectorDisk E.SectorDisk machine.now }
{
    let page = addr / PAGE_BYTES as u64;
    let offset = addr % PAGE_BYTES as u64;
    if page >= user_end(machine) {
        return writeln!(out, "  0x{addr:x} is no user address");
    }
    writeln!(
        out,
        "  address 0x{addr:x} = page 0x{page:x}, offset 0x{offset:x}"
    )?;
    let way = Way::new(machine, pid, page);
    for step in way.steps.iter().flatten() {
        tell_step(step, out)?;
    }
    match way.entry() {
        Some(entry) => tell_physical(entry, offset, out),
        None => Ok(()),
    }
}

/// What one table says on the way.
fn tell_step<W: Write>(step: &Step, out: &mut W) -> io::Result<()> {
    let Step {
        level,
        table,
        index,
        entry,
    } = *step;
    let place = index.saturating_mul(ENTRY_BYTES);
    let number = entry.to_u64();
    write!(
        out,
        "  level {level}  frame {}  entry {index} at byte {place}  0x{number:x}  ",
        table.0
    )?;
    if level > 0 && number == 0 {
        writeln!(out, "no table")
    } else {
        writeln!(out, "{}", EntryText(entry))
    }
}

/// Where the byte of an address lies, if its page's entry is valid.
fn tell_physical<W: Write>(entry: Pte, offset: u64, out: &mut W) -> io::Result<()> {
    if !entry.is_valid() {
        return Ok(());
    }
    let frame = entry.frame();
    let physical = bytes_before(frame).saturating_add(offset);
    writeln!(
        out,
        "  physical address 0x{physical:x} = frame {frame} * 4096 + 0x{offset:x}"
    )
}

/// `?tables P`: a line for each entry of each table, with dots for the depth.
pub(crate) fn tell_tables<W: Write, D: SectorDisk, E: SectorDisk>(
    machine: &Machine<D, E>,
    pid: Pid,
    out: &mut W,
) -> io::Result<()>
    requires { IsSoundMachine D.SectorDisk E.SectorDisk machine.now }
{
    if let Some(root) = inspection::root_step(machine, pid, 0) {
        writeln!(out, "  root in frame {}", root.table.0)?;
    }
    let end = user_end(machine);
    let mut page: u64 = 0;
    for i in 0..u64::MAX {
        if page >= end {
            break;
        }
        let pages = tell_entries(machine, pid, page, out)?;
        page = page.saturating_add(pages);
    }
    Ok(())
}

/// The entries on the way to a page that no page before it has, and how many pages the last one stands for.
fn tell_entries<W: Write, D: SectorDisk, E: SectorDisk>(
    machine: &Machine<D, E>,
    pid: Pid,
    page: u64,
    out: &mut W,
) -> io::Result<u64>
    requires { IsSoundMachine D.SectorDisk E.SectorDisk machine.now }
{
    let top = top_level(machine);
    let way = Way::new(machine, pid, page);
    for step in way.steps.iter().flatten() {
        let is_first = page % pages_of_entry(step.level) == 0;
        if is_first && step.entry.to_u64() != 0 {
            tell_entry(step, top, page, out)?;
        }
    }
    Ok(match way.last() {
        Some(step) => pages_of_entry(step.level),
        None => u64::MAX,
    })
}

fn tell_entry<W: Write>(step: &Step, top: u32, page: u64, out: &mut W) -> io::Result<()>
    requires { top ≤ 3 }
{
    write!(out, "  ")?;
    for i in step.level..top + 1 {
        write!(out, "..")?;
    }
    let number = step.entry.to_u64();
    writeln!(
        out,
        "{}: page 0x{page:x} 0x{number:x} {}",
        step.index,
        EntryText(step.entry)
    )
}

/// `?tlb`: a line for each translation that is kept.
pub(crate) fn tell_buffer<W: Write, D: SectorDisk, E: SectorDisk>(
    machine: &Machine<D, E>,
    out: &mut W,
) -> io::Result<()>
    requires { IsSoundMachine D.SectorDisk E.SectorDisk machine.now }
{
    for index in 0..LINES {
        if let Some(line) = inspection::line(machine, index) {
            tell_line(index, &line, machine, out)?;
        }
    }
    Ok(())
}

fn tell_line<W: Write, D: SectorDisk, E: SectorDisk>(
    index: usize,
    line: &Line,
    machine: &Machine<D, E>,
    out: &mut W,
) -> io::Result<()>
    requires { IsSoundMachine D.SectorDisk E.SectorDisk machine.now }
{
    let page = line.page.get();
    write!(out, "    line {index}  ")?;
    match process_of_root(machine, line.root) {
        Some(pid) => write!(out, "{}:0x{page:x}", pid.get())?,
        None => write!(out, "root {}:0x{page:x}", line.root.0)?,
    }
    writeln!(
        out,
        " -> frame {} {}",
        line.leaf.frame(),
        BitsText(line.leaf)
    )
}

/// The process whose root table lies in a frame.
fn process_of_root<D: SectorDisk, E: SectorDisk>(
    machine: &Machine<D, E>,
    root: FrameNo,
) -> Option<Pid>
    requires { IsSoundMachine D.SectorDisk E.SectorDisk machine.now }
    ensures { IfSome result (λ pid. (memory_of machine.now).root pid ≡ Some root.0) }
{
    for number in 1..PROCESSES as u64 + 1 {
        let pid = Pid::new(number)?;
        match inspection::root_step(machine, pid, 0) {
            Some(step) if step.table == root => return Some(pid),
            _ => {}
        }
    }
    None
}
