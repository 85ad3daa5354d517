//! Which frames the clock's hand passed within a command, and which of them it spared.
ghost use Rattle.std.specs.Prelude.{◌≡◌, ◌<◌, ◌≤◌, ◌&&◌, ◌||◌, not, ltb, leb, if◌then◌else◌, true, false, length, IfOk, IfSome};
ghost use Rattle.inspection.specs.Machines.{memory_of};
ghost use Rattle.machine.specs.Machine.{halted_of, IsSoundMachine};
ghost use Rattle.ways.specs.Sparing.{HasLostMark, IsUser, is_passed};

use crate::targets::Target;
use crate::way::frame_in;
use disk_model::SectorDisk;
use inspection::Mapper;
use machine::Machine;
use std::alloc::{AllocError, Global};
use std::fmt::{self, Display, Formatter};
use std::io::{self, Write};
use vm_types::FrameNo;

/// Which frames were in use before a command, and where the clock's hand stood.
#[derive(Drop)]
pub struct Uses {
    /// Of each frame a page over it that has A.
    users: Vec<Option<Mapper>>,
    /// Only where the command may move it, and that is watched.
    hand: Option<FrameNo>,
}

/// The frames from one up to, not including, another are those that the hand passed last, round the end of memory where that is the lower one. Of
/// one and the same, these are all.
#[derive(Clone, Copy)]
struct Arc {
    from: FrameNo,
    to: FrameNo,
}

/// The frames that the hand passed.
#[derive(Clone, Copy)]
struct PassedText {
    arc: Arc,
    /// Whether it had passed all before.
    is_round: bool,
    /// The last frame of all.
    last: u32,
}

impl Uses {
    /// None of so many frames is in use.
    ///
    /// # Errors
    /// `AllocError` where the host has not enough memory.
    pub fn new(alloc: Global, frames: usize) -> Result<Uses, AllocError>
        ensures { IfOk result (λ uses. length uses.users.items ≡ frames) }
    {
        let mut users = Vec::new(alloc);
        for i in 0..frames {
            users.push(None)?;
        }
        Ok(Uses { users, hand: None })
    }

    /// Notes which frames are in use, and where the hand stands. The page of an access is left out: where the hand takes its A, the access sets it again.
    pub fn note<D: SectorDisk, E: SectorDisk>(
        &mut self,
        machine: &Machine<D, E>,
        target: Option<&Target>,
    )
        requires { IsSoundMachine D.SectorDisk E.SectorDisk machine.now }
    {
        self.hand = inspection::hand(machine);
        for n in 0..u32::MAX {
            let Some(user) = self.users.get_mut(n as usize) else {
                break;
            };
            *user = user_of(machine, FrameNo(n), target);
        }
    }

    /// Notes nothing.
    pub fn forget(&mut self) {
        self.hand = None;
    }

    /// Tells which frames the hand has passed since these were noted, and which of them were in use and are not any more, so that they were spared.
    /// Nothing is told where it passed none.
    pub fn tell<W: Write, D: SectorDisk, E: SectorDisk>(
        &mut self,
        machine: &Machine<D, E>,
        is_evicted: bool,
        out: &mut W,
    ) -> io::Result<()>
        requires { IsSoundMachine D.SectorDisk E.SectorDisk machine.now }
    {
        let (Some(from), Some(to)) = (self.hand, inspection::hand(machine)) else {
            return Ok(());
        };
        self.leave_spared(machine);
        let arc = Arc { from, to };
        let is_spared = self.users.iter().any(Option::is_some);
        if from == to && !is_evicted && !is_spared {
            return Ok(());
        }
        let count = u32::try_from(self.users.len()).unwrap_or(u32::MAX);
        let passed = PassedText {
            arc,
            is_round: from == to || self.is_spared_beyond(arc),
            last: count.saturating_sub(1),
        };
        write!(out, "  the hand passed {passed}")?;
        if is_spared {
            self.tell_spared(out)
        } else {
            writeln!(out, "; none was spared")
        }
    }

    /// Leaves the users of frames that were spared alone.
    fn leave_spared<D: SectorDisk, E: SectorDisk>(&mut self, machine: &Machine<D, E>)
        requires { IsSoundMachine D.SectorDisk E.SectorDisk machine.now }
    {
        for n in 0..u32::MAX {
            let Some(user) = self.users.get_mut(n as usize) else {
                break;
            };
            *user = user.filter(|it| is_spared(machine, FrameNo(n), it));
        }
    }

    /// Whether a frame was spared that is none of these.
    fn is_spared_beyond(&self, arc: Arc) -> bool {
        for n in 0..u32::MAX {
            match self.users.get(n as usize) {
                Some(Some(_)) if !arc.has(FrameNo(n)) => return true,
                Some(_) => {}
                None => return false,
            }
        }
        false
    }

    /// The frames that were spared.
    fn tell_spared<W: Write>(&self, out: &mut W) -> io::Result<()> {
        write!(out, "; used, so spared:")?;
        for n in 0..u32::MAX {
            match self.users.get(n as usize) {
                Some(Some(_)) => write!(out, " {n}")?,
                Some(None) => {}
                None => break,
            }
        }
        writeln!(out, "")
    }
}

impl Arc {
    /// Whether a frame is one of these.
    fn has(self, n: FrameNo) -> bool
        ensures { result ≡ is_passed self.from.0 self.to.0 n.0 }
    {
        let is_from = self.from.0 <= n.0;
        let is_before = n.0 < self.to.0;
        if self.from.0 < self.to.0 {
            is_from && is_before
        } else {
            is_from || is_before
        }
    }
}

impl Display for PassedText {
    fn fmt<W: fmt::Write>(&self, f: &mut Formatter<W>) -> fmt::Result {
        let Arc { from, to } = self.arc;
        if self.is_round {
            f.write_str("all frames")?;
            if from == to {
                return Ok(());
            }
            f.write_str(", and then ")?;
        }
        if from.0 < to.0 {
            return tell_frames(f, from.0, to.0 - 1);
        }
        tell_frames(f, from.0, self.last)?;
        if to.0 == 0 {
            return Ok(());
        }
        f.write_str(" and ")?;
        tell_frames(f, 0, to.0 - 1)
    }
}

/// Frames from one to another.
fn tell_frames<W: fmt::Write>(f: &mut Formatter<W>, first: u32, last: u32) -> fmt::Result {
    if first == last {
        write!(f, "frame {first}")
    } else {
        write!(f, "frames {first} to {last}")
    }
}

/// A page over a frame that has A, other than that of an access.
fn user_of<D: SectorDisk, E: SectorDisk>(
    machine: &Machine<D, E>,
    n: FrameNo,
    target: Option<&Target>,
) -> Option<Mapper>
    requires { IsSoundMachine D.SectorDisk E.SectorDisk machine.now }
    ensures { IfSome result (IsUser (memory_of machine.now) n.0) }
{
    let mut pid = 1;
    let mut page = 0;
    for i in 0..u64::MAX {
        let Some(mapper) = inspection::next_mapper(machine, n, pid, page) else {
            return None;
        };
        let is_used = mapper.entry.is_valid() && mapper.entry.is_accessed();
        if is_used && !is_of(&mapper, target) {
            return Some(mapper);
        }
        pid = u64::from(mapper.pid.get());
        page = mapper.page.get() + 1;
    }
    None
}

/// Whether a page is that of the access.
fn is_of(mapper: &Mapper, target: Option<&Target>) -> bool {
    match target {
        Some(target) => target.pid == mapper.pid && target.page == mapper.page.get(),
        None => false,
    }
}

/// Whether the page that had a frame in use still has it, and has lost its A.
fn is_spared<D: SectorDisk, E: SectorDisk>(
    machine: &Machine<D, E>,
    n: FrameNo,
    user: &Mapper,
) -> bool
    requires { IsSoundMachine D.SectorDisk E.SectorDisk machine.now }
    ensures spared { result ≡ true → HasLostMark (memory_of machine.now) n.0 user.now }
{
    match inspection::next_entry(machine, user.pid, user.page.get()) {
        Some(found) if found.page == user.page => {
            frame_in(found.entry) == Some(n) && !found.entry.is_accessed()
        }
        _ => false,
    }
}
