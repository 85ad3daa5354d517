//! A command, and what it did.
ghost use Rattle.std.specs.Prelude.{◌≡◌, true, false};
ghost use Rattle.machine.specs.Machine.{IsSoundMachine};
ghost use Rattle.watching.specs.Noted.{compares_all, reaches_all};
ghost use Rattle.watching.specs.Outcomes.{outcome_of};
ghost use Rattle.watching.specs.Settling.{CountsCommand};

use crate::counts::{AccessCounts, CallCounts, Counts};
use crate::cuts::Cut;
use crate::ledger::{Inquiry, Ledger};
use disk_model::SectorDisk;
use machine::Machine;
use std::io::{self, Write};
use vm_types::Command;
use ways::{Behind, Target};

/// What a command came to, by the first letter of its reply.
#[derive(Clone, Copy)]
pub enum Outcome {
    Done,
    Refused,
    Faulted,
    Stalled,
    Halted,
}

/// A command that is to be carried out, and what stood before it.
#[derive(Clone, Copy)]
pub struct Pending {
    command: Command,
    /// The page of an access.
    target: Option<Target>,
    /// The file that is to get another length.
    cut: Option<Cut>,
    /// How many accesses had found a translation kept.
    hits: u64,
}

/// What a command may have changed.
#[derive(Clone, Copy)]
enum Reach<'a> {
    Nothing,
    /// The frames that an access of that page can change.
    Page(&'a Target),
    /// Any frame.
    All,
}

impl Outcome {
    /// By the first letter of a reply's text, which are those of `error`, `fault`, `stall` and `halted`, or of none of them.
    pub fn of(reply: &[u8]) -> Outcome
        ensures { result ≡ outcome_of reply.now }
    {
        match reply.first() {
            Some(b'e') => Outcome::Refused,
            Some(b'f') => Outcome::Faulted,
            Some(b's') => Outcome::Stalled,
            Some(b'h') => Outcome::Halted,
            _ => Outcome::Done,
        }
    }
}

impl Pending {
    /// A command before it is carried out, with what its page's entry says and what stands behind the page, or the file that is to get another
    /// length. A ledger that is watching notes which frames are in use.
    pub fn new<D: SectorDisk, E: SectorDisk>(
        command: Command,
        ledger: &mut Ledger,
        machine: &Machine<D, E>,
    ) -> Pending
        requires { IsSoundMachine D.SectorDisk E.SectorDisk machine.now }
        ensures command { result.command ≡ command }
        ensures counts { ledger.new.counts ≡ ledger.old.counts }
        ensures frames { ledger.new.frames ≡ ledger.old.frames }
    {
        let target = match command {
            Command::Load { pid, addr, .. }
            | Command::Store { pid, addr, .. }
            | Command::Fetch { pid, addr } => Target::new(machine, pid, addr),
            _ => None,
        };
        let cut = match command {
            Command::Truncate { file, length } => Cut::new(machine, file, length),
            _ => None,
        };
        let pending = Pending {
            command,
            target,
            cut,
            hits: machine.hits(),
        };
        ledger.note_uses(machine, pending.asked_frames(), pending.target.as_ref());
        pending
    }

    /// Counts the command after it was carried out, and tells what it did where the ledger is watching.
    ///
    /// # Errors
    /// What the writer says.
    pub fn settle<W: Write, D: SectorDisk, E: SectorDisk>(
        &self,
        outcome: Outcome,
        ledger: &mut Ledger,
        machine: &Machine<D, E>,
        out: &mut W,
    ) -> io::Result<()>
        requires { IsSoundMachine D.SectorDisk E.SectorDisk machine.now }
        ensures { CountsCommand machine.now self.now.command outcome ledger.old ledger.new result }
    {
        let evictions = ledger.counts.frames.evictions;
        self.compare(outcome, ledger, machine, out)?;
        ledger.tell_spared(machine, evictions, out)
    }

    /// Counts the command, and compares the frames that it may have changed.
    fn compare<W: Write, D: SectorDisk, E: SectorDisk>(
        &self,
        outcome: Outcome,
        ledger: &mut Ledger,
        machine: &Machine<D, E>,
        out: &mut W,
    ) -> io::Result<()>
        requires { IsSoundMachine D.SectorDisk E.SectorDisk machine.now }
        ensures { CountsCommand machine.now self.now.command outcome ledger.old ledger.new result }
    {
        ledger.counts.commands.add();
        match self.count(outcome, machine.hits(), &mut ledger.counts) {
            Reach::Nothing => Ok(()),
            Reach::Page(target) => ledger.compare_access(target, machine, out),
            Reach::All => {
                let inquiry = Inquiry {
                    machine,
                    target: self.target.as_ref(),
                    behind: self.behind(),
                    cut: self.cut_by(outcome),
                    gained: None,
                    is_asking: self.is_asking(),
                    is_watched: ledger.is_watching,
                };
                ledger.compare_all(&inquiry, out)
            }
        }
    }

    /// Counts the command. So many accesses have found a translation kept by now.
    fn count(&self, outcome: Outcome, hits: u64, counts: &mut Counts) -> Reach<'_>
        ensures frames { counts.new.frames ≡ counts.old.frames }
        ensures all { compares_all self.now.command outcome ≡ true → result ≡ Reach.All }
    {
        match self.command {
            Command::Load { .. } => counts.accesses.loads.add(),
            Command::Store { .. } => counts.accesses.stores.add(),
            Command::Fetch { .. } => counts.accesses.fetches.add(),
            Command::PastFaults => return Reach::Nothing,
            _ => return self.count_call(outcome, &mut counts.calls),
        }
        self.count_access(outcome, hits, &mut counts.accesses)
    }

    /// What an access came to. One that faulted or was refused has changed nothing.
    fn count_access(&self, outcome: Outcome, hits: u64, accesses: &mut AccessCounts) -> Reach<'_>
        ensures { reaches_all true outcome ≡ true → result ≡ Reach.All }
    {
        match (outcome, &self.target) {
            (Outcome::Refused | Outcome::Halted, _) | (Outcome::Done, None) => accesses
                .refused
                .add(),
            (Outcome::Faulted, _) => accesses.faults.add(),
            (Outcome::Done, Some(_)) if hits != self.hits => accesses.hits.add(),
            (Outcome::Done, Some(target)) => return Reach::Page(target),
            (Outcome::Stalled, _) => {
                accesses.stalls.add();
                return Reach::All;
            }
        }
        Reach::Nothing
    }

    /// What a call came to. One that was refused has changed nothing.
    fn count_call(&self, outcome: Outcome, calls: &mut CallCounts) -> Reach<'_>
        ensures { reaches_all false outcome ≡ true → result ≡ Reach.All }
    {
        match outcome {
            Outcome::Refused | Outcome::Faulted | Outcome::Halted => {
                calls.refused.add();
                return Reach::Nothing;
            }
            Outcome::Stalled => calls.stalled.add(),
            Outcome::Done => {
                if let Command::Msync { .. } = self.command {
                    calls.msyncs.add();
                }
            }
        }
        Reach::All
    }

    /// The page of a file or of shared anonymous memory that it may bring into a frame, as it was before.
    fn behind(&self) -> Option<Behind> {
        match (self.target, self.cut) {
            (Some(target), _) => target.behind,
            (None, Some(cut)) => Some(cut.end),
            (None, None) => None,
        }
    }

    /// The file that it has given another length, where it came to that outcome.
    fn cut_by(&self, outcome: Outcome) -> Option<Cut> {
        match outcome {
            Outcome::Done => self.cut,
            _ => None,
        }
    }

    /// The most frames that it may ask for: of an access three tables, a page of a file and a copy of it, and of a truncate a page of the file.
    fn asked_frames(&self) -> u32 {
        match self.command {
            Command::Fork { .. } => u32::MAX,
            Command::Truncate { .. } => 1,
            _ if self.is_asking() => 5,
            _ => 0,
        }
    }

    /// Whether it wants frames, so that others may have been given up: only a spawn, a fork, an access and a truncate do.
    fn is_asking(&self) -> bool {
        match self.command {
            Command::Spawn | Command::Fork { .. } => true,
            _ => self.target.is_some() || self.cut.is_some(),
        }
    }
}
