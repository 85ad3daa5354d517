//! Answers about the bytes of a page.
ghost use Rattle.std.specs.Prelude.{◌≡◌, ◌≢◌, ◌<◌, ◌^◌, ℕ, false, Some, IfSome, IfNone};
ghost use Rattle.vm_types.specs.Limits.{user_end};
ghost use Rattle.frames.specs.FrameTable.{IsFrame, bytes_of};
ghost use Rattle.residency.specs.Picture.{entry, picture_of};
ghost use Rattle.inspection.specs.Machines.{files_kept, memory_of, Tells};
ghost use Rattle.machine.specs.Machine.{bits_of, halted_of, mode_of, IsSoundMachine};
ghost use Rattle.telling.specs.Lying.{LiesAt, frame_told};

use disk_model::SectorDisk;
use inspection::Place;
use machine::Machine;
use residency::Core;
use std::fmt::{self, Display, Formatter};
use std::io::{self, Write};
use sv39_walk::Pte;
use vm_types::{FrameNo, Levels, PAGE_BYTES, PageKey, Pid};
use watching::{PageText, bytes_before};
use ways::{HomeView, attr_of, home_of, user_end};

/// The bytes of a line.
const ROW: usize = 16;

/// The lines at most.
const ROWS: usize = 4;

/// Where the bytes of a page of a process lie.
#[derive(Clone, Copy)]
enum Lying {
    /// Nowhere: the page is not mapped.
    Unmapped,
    /// In a frame, as the process's own copy.
    OwnFrame(u64),
    /// In a slot, as the process's own copy.
    OwnSlot(u64),
    /// They are those of a page of a file or of shared anonymous memory, which lies there, and at home shows this.
    Behind(PageKey, Place, HomeView),
    /// In the zero page.
    ZeroPage,
    /// Nowhere: the process has no entry for it and nothing stands behind it, so that they are zeros.
    Untouched,
}

/// `?bytes P ADDR`: where the page of an address lies, and where that is a frame, the 64 bytes from the address on, rounded down to 16, as far as the page
/// goes. No slot and no page of the image is read for it, since that would be a read of a device.
pub(crate) fn tell_bytes<W: Write, D: SectorDisk, E: SectorDisk>(
    machine: &Machine<D, E>,
    pid: Pid,
    addr: u64,
    out: &mut W,
) -> io::Result<()>
    requires { IsSoundMachine D.SectorDisk E.SectorDisk machine.now }
{
    let page = addr / PAGE_BYTES as u64;
    if page >= user_end(machine) {
        return writeln!(out, "  0x{addr:x} is no user address");
    }
    let lying = lying_of(machine, pid, page);
    writeln!(out, "  page 0x{page:x} of process {}: {lying}", pid.get())?;
    let Some(frame) = lying.frame() else {
        return Ok(());
    };
    match bytes_of(machine, frame) {
        Some(bytes) => tell_rows(bytes, page, (addr % PAGE_BYTES as u64) as usize, out),
        None => Ok(()),
    }
}

/// Where the bytes of a user page lie.
fn lying_of<D: SectorDisk, E: SectorDisk>(machine: &Machine<D, E>, pid: Pid, page: u64) -> Lying
    requires sound { IsSoundMachine D.SectorDisk E.SectorDisk machine.now }
    requires user { page < user_end (bits_of (mode_of machine.now)) }
    ensures { halted_of machine.now ≡ false → LiesAt (memory_of machine.now) (files_kept machine.now) pid page result }
{
    let Some(attr) = attr_of(machine, pid, page) else {
        return Lying::Unmapped;
    };
    let entry = entry_of(machine, pid, page);
    if entry.is_swapped() {
        return Lying::OwnSlot(entry.frame());
    }
    if entry.is_private() {
        return Lying::OwnFrame(entry.frame());
    }
    match attr.backing.stands_on() {
        Some(page) => Lying::Behind(page, place_of(machine, page), home_of(machine, page)),
        None if entry.to_u64() == 0 => Lying::Untouched,
        None => Lying::ZeroPage,
    }
}

/// Where a page of a file or of shared anonymous memory lies.
fn place_of<D: SectorDisk, E: SectorDisk>(machine: &Machine<D, E>, page: PageKey) -> Place
    requires { IsSoundMachine D.SectorDisk E.SectorDisk machine.now }
    ensures { halted_of machine.now ≡ false → result ≡ (memory_of machine.now).place page }
{
    match inspection::page_view(machine, page) {
        Some(view) => view.place,
        None => Place::Home,
    }
}

/// The entry of a user page, 0 where a table is missing.
#[tactic(auto, using(crate::proofs::Pages::has_no_entry))]
fn entry_of<D: SectorDisk, E: SectorDisk>(machine: &Machine<D, E>, pid: Pid, page: u64) -> Pte
    requires sound { IsSoundMachine D.SectorDisk E.SectorDisk machine.now }
    requires user { page < user_end (bits_of (mode_of machine.now)) }
    ensures { halted_of machine.now ≡ false → result.0 ≡ entry (memory_of machine.now) pid page }
{
    match inspection::next_entry(machine, pid, page) {
        Some(found) if found.page.get() == page => found.entry,
        _ => Pte(0),
    }
}

/// The bytes of a frame; `None` exactly where memory has none of that number, or the machine has halted.
fn bytes_of<D: SectorDisk, E: SectorDisk>(
    machine: &Machine<D, E>,
    n: FrameNo,
) -> Option<&[u8; PAGE_BYTES]>
    requires { IsSoundMachine D.SectorDisk E.SectorDisk machine.now }
    ensures { Tells machine.now (λ bytes. bytes.now ≡ bytes_of (memory_of machine.now).frames n.0) (IsFrame (memory_of machine.now).frames n.0 → ⊥) result }
{
    match machine {
        Machine::Sv39(engine) => bytes_in(engine.memory()?, n),
        Machine::Sv48(engine) => bytes_in(engine.memory()?, n),
    }
}

/// The same in one mode.
fn bytes_in<D, E, M: Levels>(core: &Core<D, E, M>, n: FrameNo) -> Option<&[u8; PAGE_BYTES]>
    ensures some { IfSome result (λ bytes. bytes.now ≡ bytes_of (picture_of core.now).frames n.0) }
    ensures none { IfNone result (IsFrame (picture_of core.now).frames n.0 → ⊥) }
{
    if n.0 < core.frames.len() {
        Some(core.frames.bytes(n))
    } else {
        None
    }
}

/// Lines of bytes of a page, each with its address.
fn tell_rows<W: Write>(
    bytes: &[u8; PAGE_BYTES],
    page: u64,
    offset: usize,
    out: &mut W,
) -> io::Result<()> {
    for (i, row) in bytes.chunks(ROW).enumerate().skip(offset / ROW).take(ROWS) {
        let address = bytes_before(page).saturating_add((i * ROW) as u64);
        write!(out, "    0x{address:x} ")?;
        for byte in row {
            write!(out, " {byte:02x}")?;
        }
        writeln!(out, "")?;
    }
    Ok(())
}

impl Lying {
    /// The frame in which the bytes lie; `None` exactly where they lie in none, or in one whose number is too large for memory.
    fn frame(self) -> Option<FrameNo>
        ensures some { IfSome result (λ n. frame_told self ≡ Some n.0) }
        ensures none { IfNone result ((n : ℕ) → n < 2 ^ 32 → frame_told self ≢ Some n) }
    {
        match self {
            Lying::OwnFrame(frame) => Some(FrameNo(u32::try_from(frame).ok()?)),
            Lying::Behind(_, Place::Frame(frame), _) => Some(frame),
            Lying::ZeroPage => Some(FrameNo(0)),
            _ => None,
        }
    }
}

impl Display for Lying {
    fn fmt<W: fmt::Write>(&self, f: &mut Formatter<W>) -> fmt::Result {
        match *self {
            Lying::Unmapped => f.write_str("not mapped"),
            Lying::OwnFrame(frame) => write!(f, "own copy, in frame {frame}"),
            Lying::OwnSlot(slot) => write!(f, "own copy, in slot {slot}"),
            Lying::Behind(page, place, home) => {
                PageText(page).fmt(f)?;
                tell_place(f, page, place, home)
            }
            Lying::ZeroPage => f.write_str("the zero page, in frame 0"),
            Lying::Untouched => f.write_str("not touched, so zeros"),
        }
    }
}

/// Where a page of a file or of shared anonymous memory lies, which at home shows that.
fn tell_place<W: fmt::Write>(
    f: &mut Formatter<W>,
    page: PageKey,
    place: Place,
    home: HomeView,
) -> fmt::Result {
    match (place, home) {
        (Place::Frame(frame), _) => write!(f, ", in frame {}", frame.0),
        (Place::Slot(slot), _) => write!(f, ", in slot {}", slot.0),
        (Place::Home, HomeView::Image) => f.write_str(", in the image"),
        (Place::Home, HomeView::PastEnd) => f.write_str(", past the end of the file"),
        (Place::Home, HomeView::Zeros) => match page {
            PageKey::File(_) => f.write_str(", not touched since the file was shorter, so zeros"),
            PageKey::Object(_) => f.write_str(", not touched, so zeros"),
        },
    }
}
