//! Answers about the pages of a process.
ghost use Rattle.std.specs.Prelude.{◌≡◌, ◌<◌, ◌&&◌, not, ltb, if◌then◌else◌, is_some};
ghost use Rattle.sv39_walk.specs.Entry.{is_accessed, is_dirty, is_private, is_swapped, is_valid};
ghost use Rattle.machine.specs.Machine.{IsSoundMachine};
ghost use Rattle.telling.specs.Pages.{is_over_zeros, shares_in};

use disk_model::SectorDisk;
use inspection::{FrameView, Run};
use machine::Machine;
use std::fmt::{self, Display, Formatter};
use std::io::{self, Write};
use sv39_walk::Pte;
use vm_types::{FrameNo, Pid};
use watching::{BackingText, ProtText, bytes_before};
use ways::frame_in;

/// The pages of a run, counted by their entries (proc_pid_smaps(5)).
#[derive(Clone, Copy, Default)]
struct RunCounts {
    /// Over a frame but the zero page.
    resident: u64,
    /// Over the zero page.
    zeros: u64,
    /// With an own copy in a frame.
    own: u64,
    /// With an own copy that others share.
    shared: u64,
    /// With an own copy in a slot.
    swapped: u64,
    /// With A.
    accessed: u64,
    /// With D.
    dirty: u64,
}

impl Display for RunCounts {
    fn fmt<W: fmt::Write>(&self, f: &mut Formatter<W>) -> fmt::Result {
        write!(
            f,
            "resident {} zero {} own {} shared {}",
            self.resident, self.zeros, self.own, self.shared
        )?;
        write!(
            f,
            " swapped {} accessed {} dirty {}",
            self.swapped, self.accessed, self.dirty
        )
    }
}

impl RunCounts {
    /// Counts a page by its entry, and by the frame that this names.
    fn add(&mut self, entry: Pte, frame: Option<FrameView>) {
        let counted = RunCounts::of(entry, frame);
        self.resident = self.resident.saturating_add(counted.resident);
        self.zeros = self.zeros.saturating_add(counted.zeros);
        self.own = self.own.saturating_add(counted.own);
        self.shared = self.shared.saturating_add(counted.shared);
        self.swapped = self.swapped.saturating_add(counted.swapped);
        self.accessed = self.accessed.saturating_add(counted.accessed);
        self.dirty = self.dirty.saturating_add(counted.dirty);
    }

    /// One page.
    fn of(entry: Pte, frame: Option<FrameView>) -> RunCounts
        ensures resident { result.resident ≡ (if is_some frame && not (is_over_zeros entry.0) then 1 else 0) }
        ensures zeros { result.zeros ≡ (if is_over_zeros entry.0 then 1 else 0) }
        ensures own { result.own ≡ (if is_some frame && is_private entry.0 then 1 else 0) }
        ensures shared { result.shared ≡ (if is_some frame && is_private entry.0 && ltb 1 (shares_in frame) then 1 else 0) }
        ensures swapped { result.swapped ≡ (if is_swapped entry.0 then 1 else 0) }
        ensures accessed { result.accessed ≡ (if is_valid entry.0 && is_accessed entry.0 then 1 else 0) }
        ensures dirty { result.dirty ≡ (if is_valid entry.0 && is_dirty entry.0 then 1 else 0) }
    {
        let is_over_frame = frame.is_some();
        let is_over_zeros = is_over_zeros(entry);
        let is_own = is_over_frame && entry.is_private();
        RunCounts {
            resident: u64::from(is_over_frame && !is_over_zeros),
            zeros: u64::from(is_over_zeros),
            own: u64::from(is_own),
            shared: u64::from(is_own && shares_in(frame) > 1),
            swapped: u64::from(entry.is_swapped()),
            accessed: u64::from(entry.is_valid() && entry.is_accessed()),
            dirty: u64::from(entry.is_valid() && entry.is_dirty()),
        }
    }
}

/// Whether an entry names the zero page.
fn is_over_zeros(entry: Pte) -> bool
    ensures { result ≡ is_over_zeros entry.0 }
{
    frame_in(entry) == Some(FrameNo(0))
}

/// How many share a frame; nobody where there is none.
fn shares_in(frame: Option<FrameView>) -> u8
    ensures { result ≡ shares_in frame }
{
    match frame {
        Some(view) => view.shares,
        None => 0,
    }
}

/// `?maps P`: a line for each run of pages.
pub(crate) fn tell_maps<W: Write, D: SectorDisk, E: SectorDisk>(
    machine: &Machine<D, E>,
    pid: Pid,
    out: &mut W,
) -> io::Result<()>
    requires { IsSoundMachine D.SectorDisk E.SectorDisk machine.now }
{
    let mut low = 0;
    for i in 0..u64::MAX {
        let Some(run) = inspection::next_run(machine, pid, low) else {
            break;
        };
        tell_run(machine, pid, &run, out)?;
        low = run.end;
    }
    Ok(())
}

fn tell_run<W: Write, D: SectorDisk, E: SectorDisk>(
    machine: &Machine<D, E>,
    pid: Pid,
    run: &Run,
    out: &mut W,
) -> io::Result<()>
    requires { IsSoundMachine D.SectorDisk E.SectorDisk machine.now }
{
    let (first, end) = (bytes_before(run.first), bytes_before(run.end));
    let (prot, backing) = (ProtText(run.attr.prot), BackingText(run.attr.backing));
    let pages = run.end.saturating_sub(run.first);
    let counts = counts_of(machine, pid, run);
    writeln!(
        out,
        "  0x{first:x}-0x{end:x} {prot} {backing}  pages {pages} {counts}"
    )
}

/// What the entries of a run's pages say.
fn counts_of<D: SectorDisk, E: SectorDisk>(
    machine: &Machine<D, E>,
    pid: Pid,
    run: &Run,
) -> RunCounts
    requires { IsSoundMachine D.SectorDisk E.SectorDisk machine.now }
{
    let mut counts = RunCounts::default();
    let mut low = run.first;
    for i in 0..u64::MAX {
        let Some(found) = inspection::next_entry(machine, pid, low) else {
            break;
        };
        if found.page.get() >= run.end {
            break;
        }
        let frame = match frame_in(found.entry) {
            Some(frame) => inspection::frame_view(machine, frame),
            None => None,
        };
        counts.add(found.entry, frame);
        low = found.page.get() + 1;
    }
    counts
}
