//! How things are called in what is told.
ghost use Rattle.std.specs.Prelude.{◌≡◌, ◌<◌, ◌*◌, ◌^◌};
ghost use Rattle.watching.specs.Entries.{said_in};

use inspection::{Holding, TablePlace};
use std::fmt::{self, Display, Formatter};
use sv39_walk::Pte;
use vm_types::{Backing, PAGE_BYTES, PageKey, Prot};

/// A page of a file or of shared anonymous memory, as `page 3 of file 0`.
#[derive(Drop)]
pub struct PageText(pub PageKey);

impl Display for PageText {
    fn fmt<W: fmt::Write>(&self, f: &mut Formatter<W>) -> fmt::Result {
        let (page, kind, number) = match self.0 {
            PageKey::File(page) => (u64::from(page.page), "file", u16::from(page.file)),
            PageKey::Object(page) => (page.page, "object", page.object),
        };
        write!(f, "page {page} of {kind} {number}")
    }
}

/// The lowest eight bits of a valid entry by their letters, with `-` for each that is clear (RISC-V Privileged Specification, "Sv39 page table
/// entry").
#[derive(Drop)]
pub struct BitsText(pub Pte);

impl Display for BitsText {
    fn fmt<W: fmt::Write>(&self, f: &mut Formatter<W>) -> fmt::Result {
        let mut rest = self.0.to_u64();
        for letter in ['V', 'R', 'W', 'X', 'U', 'G', 'A', 'D'] {
            f.write_char(if rest % 2 == 1 { letter } else { '-' })?;
            rest /= 2;
        }
        Ok(())
    }
}

/// What an entry says: only where V is set are its other bits those of the specification, so only then they are shown.
#[derive(Drop)]
pub struct EntryText(pub Pte);

impl Display for EntryText {
    fn fmt<W: fmt::Write>(&self, f: &mut Formatter<W>) -> fmt::Result {
        let entry = self.0;
        match said_in(entry) {
            Said::Nothing => return f.write_str("nothing"),
            Said::Table => {
                return write!(f, "{} table in frame {}", BitsText(entry), entry.frame());
            }
            Said::Slot => return write!(f, "slot {}", entry.frame()),
            Said::Leaf | Said::Parked => {}
        }
        write!(f, "{} frame {}", StateText(entry), entry.frame())?;
        if entry.is_private() {
            return f.write_str(" own");
        }
        Ok(())
    }
}

/// What an entry says, by its kind.
#[derive(Clone, Copy)]
enum Said {
    Nothing,
    Table,
    Slot,
    /// A frame, and what is allowed of it.
    Leaf,
    /// A frame that is kept, of which nothing is allowed.
    Parked,
}

/// What an entry says.
fn said_in(entry: Pte) -> Said
    ensures { result ≡ said_in entry.0 }
{
    if entry.to_u64() == 0 {
        Said::Nothing
    } else if entry.is_pointer() {
        Said::Table
    } else if entry.is_swapped() {
        Said::Slot
    } else if entry.is_valid() {
        Said::Leaf
    } else {
        Said::Parked
    }
}

/// The bits of an entry over a frame, or `parked` where it keeps the frame and allows nothing.
#[derive(Drop)]
pub struct StateText(pub Pte);

impl Display for StateText {
    fn fmt<W: fmt::Write>(&self, f: &mut Formatter<W>) -> fmt::Result {
        match said_in(self.0) {
            Said::Parked => f.write_str("parked"),
            _ => BitsText(self.0).fmt(f),
        }
    }
}

/// A permission, as `rw-`.
#[derive(Drop)]
pub struct ProtText(pub Prot);

impl Display for ProtText {
    fn fmt<W: fmt::Write>(&self, f: &mut Formatter<W>) -> fmt::Result {
        f.write_char(if self.0.is_readable() { 'r' } else { '-' })?;
        f.write_char(if self.0.is_writable() { 'w' } else { '-' })?;
        f.write_char(if self.0.is_executable() { 'x' } else { '-' })
    }
}

/// What stands behind pages, with the number and the offset of the first, in the words of an mmap line.
#[derive(Drop)]
pub struct BackingText(pub Backing);

impl Display for BackingText {
    fn fmt<W: fmt::Write>(&self, f: &mut Formatter<W>) -> fmt::Result {
        let (kind, number, page) = match self.0 {
            Backing::Anon => return f.write_str("anon"),
            Backing::Private(page) => ("private", u16::from(page.file), u64::from(page.page)),
            Backing::Shared(page) => ("shared", u16::from(page.file), u64::from(page.page)),
            Backing::Common(page) => ("common", page.object, page.page),
        };
        write!(f, "{kind} {number} 0x{:x}", bytes_before(page))
    }
}

/// How many bytes stand before a page of that number.
pub fn bytes_before(page: u64) -> u64
    ensures { page * 4096 < 2 ^ 64 → result ≡ page * 4096 }
{
    page.saturating_mul(PAGE_BYTES as u64)
}

/// A table by its place, as the root of its process or by its level and the first of its pages.
#[derive(Drop)]
pub struct TableText<'a> {
    pub place: &'a TablePlace,
    /// The level of a root.
    pub top: u32,
}

impl Display for TableText<'_> {
    fn fmt<W: fmt::Write>(&self, f: &mut Formatter<W>) -> fmt::Result {
        let (pid, level, first) = (self.place.pid, self.place.level, self.place.first);
        if level == self.top {
            write!(f, "the root of process {}", pid.get())
        } else {
            write!(
                f,
                "a table of process {}, level {level}, from page 0x{first:x} on",
                pid.get()
            )
        }
    }
}

/// What a frame holds.
#[derive(Drop)]
pub struct HoldingText(pub Holding);

impl Display for HoldingText {
    fn fmt<W: fmt::Write>(&self, f: &mut Formatter<W>) -> fmt::Result {
        match self.0 {
            Holding::Nothing => f.write_str("free"),
            Holding::Zeros => f.write_str("the zero page"),
            Holding::Table => f.write_str("a table"),
            Holding::Own(page) => write!(f, "own copy of page 0x{page:x}"),
            Holding::Page(page) => PageText(page).fmt(f),
        }
    }
}
