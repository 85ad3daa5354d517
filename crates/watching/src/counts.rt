//! What is counted, in books that balance.
ghost use Rattle.std.specs.Prelude.{◌≡◌, ◌<◌, ◌≤◌, ◌+◌, ◌-◌, ◌^◌, true, false};
ghost use Rattle.watching.specs.Books.{IsOneMore, ReadsNothing};

use std::fmt::{self, Display, Formatter};

/// A number that is counted up, and stays at its greatest value.
#[derive(Clone, Copy, PartialEq, Eq, Default)]
pub struct Count(u64);

impl Count {
    /// One more.
    pub(crate) fn add(&mut self)
        ensures more { self.old.0 < 2 ^ 64 - 1 → self.new.0 ≡ self.old.0 + 1 }
        ensures rises { self.old.0 ≤ self.new.0 }
    {
        self.0 = self.0.saturating_add(1);
    }
}

impl Display for Count {
    fn fmt<W: fmt::Write>(&self, f: &mut Formatter<W>) -> fmt::Result {
        write!(f, "{}", self.0)
    }
}

/// How often things happened since the machine started. Each access is counted by its kind and by what it came to, so that `loads + stores +
/// fetches` is `buffer-hits + walks + page-faults + faults + stalls + refused`, and each frame by what it was filled with and by how it was lost, so
/// that `frames-filled - evictions - frames-released` frames hold pages now, and `tables-made - tables-freed` hold tables.
#[derive(Clone, Copy, Default)]
pub struct Counts {
    /// Lines that stand for a command.
    pub commands: Count,
    pub accesses: AccessCounts,
    pub page_faults: FaultCounts,
    pub frames: FrameCounts,
    pub tables: TableCounts,
    pub calls: CallCounts,
}

/// Accesses, by their kinds and by what they came to.
#[derive(Clone, Copy, Default)]
pub struct AccessCounts {
    pub loads: Count,
    pub stores: Count,
    pub fetches: Count,
    /// Those that found their page's translation kept.
    pub hits: Count,
    /// Those that walked the tables and found all there.
    pub walks: Count,
    /// Those that were reported as faults to the process.
    pub faults: Count,
    pub stalls: Count,
    /// Those of no process, and those after a failed msync.
    pub refused: Count,
}

/// Accesses for which the system had to change an entry.
#[derive(Clone, Copy, Default)]
pub struct FaultCounts {
    pub all: Count,
    /// Those for which a page was read from the image or from a slot.
    pub major: Count,
    pub minor: Count,
    /// W was given back to the last process that has the frame.
    pub reuses: Count,
    /// An entry was set to a page that lay in a frame, or to the zero page.
    pub links: Count,
    /// A or D was set again.
    pub marks: Count,
}

/// Frames of pages, by what filled them and by how they were lost.
#[derive(Clone, Copy, Default)]
pub struct FrameCounts {
    pub filled: Count,
    pub from_image: Count,
    pub from_slot: Count,
    pub zero_fills: Count,
    pub copies: Count,
    pub evictions: Count,
    pub to_slot: Count,
    /// Those of untouched pages, which stand in the image, or are zeros, as they were.
    pub dropped: Count,
    /// Frames that calls gave back.
    pub released: Count,
}

/// Frames of tables.
#[derive(Clone, Copy, Default)]
pub struct TableCounts {
    pub made: Count,
    pub freed: Count,
}

/// Commands that are no accesses.
#[derive(Clone, Copy, Default)]
pub struct CallCounts {
    pub msyncs: Count,
    pub refused: Count,
    pub stalled: Count,
}

impl FaultCounts {
    /// Counts a page fault, by whether a page was read for it.
    pub(crate) fn note(&mut self, is_major: bool)
        ensures all { IsOneMore self.old.all self.new.all }
        ensures major { is_major ≡ true → IsOneMore self.old.major self.new.major × (self.new.minor ≡ self.old.minor) }
        ensures minor { is_major ≡ false → IsOneMore self.old.minor self.new.minor × (self.new.major ≡ self.old.major) }
    {
        self.all.add();
        if is_major {
            self.major.add();
        } else {
            self.minor.add();
        }
    }
}

impl FrameCounts {
    /// Whether a page was read from a device since then.
    pub(crate) fn reads_since(&self, before: &FrameCounts) -> bool
        ensures none { result ≡ false → ReadsNothing before.now self.now }
        ensures some { result ≡ true → ReadsNothing before.now self.now → ⊥ }
    {
        self.from_image != before.from_image || self.from_slot != before.from_slot
    }
}

/// A line of one number.
fn tell<W: fmt::Write>(f: &mut Formatter<W>, name: &str, count: Count) -> fmt::Result {
    writeln!(f, "{name} {count}")
}

impl Display for Counts {
    fn fmt<W: fmt::Write>(&self, f: &mut Formatter<W>) -> fmt::Result {
        tell(f, "  commands", self.commands)?;
        write!(f, "{}", self.accesses)?;
        write!(f, "{}", self.page_faults)?;
        write!(f, "{}", self.frames)?;
        tell(f, "  tables-made", self.tables.made)?;
        tell(f, "  tables-freed", self.tables.freed)?;
        tell(f, "  msyncs", self.calls.msyncs)?;
        tell(f, "  calls-refused", self.calls.refused)?;
        tell(f, "  calls-stalled", self.calls.stalled)
    }
}

impl Display for AccessCounts {
    fn fmt<W: fmt::Write>(&self, f: &mut Formatter<W>) -> fmt::Result {
        tell(f, "  loads", self.loads)?;
        tell(f, "  stores", self.stores)?;
        tell(f, "  fetches", self.fetches)?;
        tell(f, "  buffer-hits", self.hits)?;
        tell(f, "  walks", self.walks)?;
        tell(f, "  faults", self.faults)?;
        tell(f, "  stalls", self.stalls)?;
        tell(f, "  refused", self.refused)
    }
}

impl Display for FaultCounts {
    fn fmt<W: fmt::Write>(&self, f: &mut Formatter<W>) -> fmt::Result {
        tell(f, "  page-faults", self.all)?;
        tell(f, "    major", self.major)?;
        tell(f, "    minor", self.minor)?;
        tell(f, "      reuse", self.reuses)?;
        tell(f, "      link", self.links)?;
        tell(f, "      mark", self.marks)
    }
}

impl Display for FrameCounts {
    fn fmt<W: fmt::Write>(&self, f: &mut Formatter<W>) -> fmt::Result {
        tell(f, "  frames-filled", self.filled)?;
        tell(f, "    from-image", self.from_image)?;
        tell(f, "    from-slot", self.from_slot)?;
        tell(f, "    zero-fill", self.zero_fills)?;
        tell(f, "    copy", self.copies)?;
        tell(f, "  evictions", self.evictions)?;
        tell(f, "    to-slot", self.to_slot)?;
        tell(f, "    dropped", self.dropped)?;
        tell(f, "  frames-released", self.released)
    }
}
