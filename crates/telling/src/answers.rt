//! Answers to questions.
ghost use Rattle.std.specs.Prelude.{◌≡◌, ◌≤◌, true, false, IfNone, IfSome};
ghost use Rattle.residency.specs.Picture.{is_live};
ghost use Rattle.inspection.specs.Machines.{memory_of};
ghost use Rattle.machine.specs.Machine.{halted_of, IsSoundMachine};
ghost use Rattle.telling.specs.Asked.{IsAskedOf, needs_memory};

use crate::bytes::tell_bytes;
use crate::files::tell_files;
use crate::holdings::{tell_frames, tell_slots, tell_usage};
use crate::maps::tell_maps;
use crate::questions::Question;
use crate::tables::{tell_buffer, tell_tables, tell_walk};
use disk_model::SectorDisk;
use machine::Machine;
use std::io::{self, Write};
use vm_types::Pid;
use watching::Counts;

/// Answers a question, in lines that begin with a space, of a machine whose commands came to these counts. Of a process that does not live, and of a machine
/// that has halted, whose counts alone are left, it says so. `Watch` asks nothing of the machine and has no answer.
///
/// # Errors
/// What the writer says.
pub fn answer_question<W: Write, D: SectorDisk, E: SectorDisk>(
    question: Question,
    counts: &Counts,
    machine: &Machine<D, E>,
    out: &mut W,
) -> io::Result<()>
    requires { IsSoundMachine D.SectorDisk E.SectorDisk machine.now }
{
    match asked_of(question, machine) {
        Asked::Halted => writeln!(out, "  the machine has halted"),
        Asked::Gone(number) => writeln!(out, "  no process {number} lives"),
        Asked::Walk { process, addr } => tell_walk(machine, process, addr, out),
        Asked::Tables(process) => tell_tables(machine, process, out),
        Asked::Maps(process) => tell_maps(machine, process, out),
        Asked::Bytes { process, addr } => tell_bytes(machine, process, addr, out),
        Asked::Frames { first, last } => tell_frames(machine, first, last, out),
        Asked::Slots => tell_slots(machine, out),
        Asked::Files => tell_files(machine, out),
        Asked::Buffer => tell_buffer(machine, out),
        Asked::Counts => tell_counts(counts, machine, out),
        Asked::Nothing => Ok(()),
    }
}

/// What is to be told where a question was asked, of processes that live.
#[derive(Clone, Copy)]
enum Asked {
    /// That the machine has halted.
    Halted,
    /// That no process of this number lives.
    Gone(u64),
    Walk { process: Pid, addr: u64 },
    Tables(Pid),
    Maps(Pid),
    Bytes { process: Pid, addr: u64 },
    Frames { first: u32, last: u32 },
    Slots,
    Files,
    Buffer,
    Counts,
    Nothing,
}

/// What is told where this is asked of the machine.
fn asked_of<D: SectorDisk, E: SectorDisk>(question: Question, machine: &Machine<D, E>) -> Asked
    requires { IsSoundMachine D.SectorDisk E.SectorDisk machine.now }
    ensures halted { halted_of machine.now ≡ true → needs_memory question ≡ true → result ≡ Asked.Halted }
    ensures asked { halted_of machine.now ≡ false → IsAskedOf machine.now question result }
{
    match question {
        Question::Counts => Asked::Counts,
        Question::Watch(_) => Asked::Nothing,
        _ if machine.is_halted() => Asked::Halted,
        Question::Walk { pid, addr } => match live(machine, pid) {
            Some(process) => Asked::Walk { process, addr },
            None => Asked::Gone(pid),
        },
        Question::Tables { pid } => match live(machine, pid) {
            Some(process) => Asked::Tables(process),
            None => Asked::Gone(pid),
        },
        Question::Maps { pid } => match live(machine, pid) {
            Some(process) => Asked::Maps(process),
            None => Asked::Gone(pid),
        },
        Question::Bytes { pid, addr } => match live(machine, pid) {
            Some(process) => Asked::Bytes { process, addr },
            None => Asked::Gone(pid),
        },
        Question::Frames { first, last } => Asked::Frames { first, last },
        Question::Slots => Asked::Slots,
        Question::Files => Asked::Files,
        Question::Buffer => Asked::Buffer,
    }
}

/// The process of that number, if it lives in a machine that has not halted.
fn live<D: SectorDisk, E: SectorDisk>(machine: &Machine<D, E>, number: u64) -> Option<Pid>
    requires { IsSoundMachine D.SectorDisk E.SectorDisk machine.now }
    ensures some { IfSome result (λ pid. (pid ≡ number) × (is_live (memory_of machine.now) number ≡ true)) }
    ensures none { IfNone result (halted_of machine.now ≡ false → 1 ≤ number → number ≤ 64 → is_live (memory_of machine.now) number ≡ false) }
{
    let pid = Pid::new(number)?;
    match inspection::root_step(machine, pid, 0) {
        Some(_) => Some(pid),
        None => None,
    }
}

/// What was counted, and what the frames and slots hold now.
fn tell_counts<W: Write, D: SectorDisk, E: SectorDisk>(
    counts: &Counts,
    machine: &Machine<D, E>,
    out: &mut W,
) -> io::Result<()>
    requires { IsSoundMachine D.SectorDisk E.SectorDisk machine.now }
{
    write!(out, "{counts}")?;
    if machine.is_halted() {
        return writeln!(out, "  the machine has halted");
    }
    tell_usage(machine, out)
}
