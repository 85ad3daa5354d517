//! Requests served, one after another.
ghost use Rattle.std.specs.Prelude.{IfNone, IfSome};
ghost use Rattle.machine.specs.Machine.{IsSoundMachine};
ghost use Rattle.serving.specs.Requests.{HoldsNumbers, request_of};
ghost use Rattle.serving.specs.declared.numbers.RequestNumbers.{RequestNumbers};
ghost use Rattle.serving.specs.Serving.{AnswersRequest, AnswersCommand, IsByte, IsNoByte, IsRootFrame, IsRootTold, ServesNext, ServesRequest, ServesUntil, StopsFor, TouchesByte};
ghost use Rattle.runner.specs.Trace.{streams};

use crate::numbers::{REQUEST_BYTES, RequestNumbers};
use crate::reading::read_request;
use crate::requests::Request;
use crate::responses::Response;
use disk_model::{SectorDisk, WriteZeros};
use inspection::root_step;
use machine::Machine;
use runner::RunEnd;
use std::io::{Read, Write};
use vm_types::{Answer, Command, Pid, StoredValue, USER_START, Width};

/// Serves requests, one after another: to each `writer` gets its reply before the next is read.
///
/// - `Done`: the reader is at its end. Each whole request was served; less than one that came after them was read, and nothing done of it.
/// - `ReadFault`: the reader failed, or it was called, or a request served, 2^64 - 1 times. The whole requests read before were served.
/// - `WriteFault`: the writer failed. All requests that were read were carried out, and the last one's reply was not written whole.
pub fn serve<D: WriteZeros, E: SectorDisk, R: Read, W: Write>(
    machine: &mut Machine<D, E>,
    reader: &mut R,
    writer: &mut W,
) -> RunEnd
    requires sound { IsSoundMachine D.SectorDisk E.SectorDisk machine.old }
    ensures sound { IsSoundMachine D.SectorDisk E.SectorDisk machine.new }
    ensures serves { ServesUntil D.SectorDisk E.SectorDisk result machine.old machine.new
        (streams (R.remaining reader.old) (W.contents writer.old)) (streams (R.remaining reader.new) (W.contents writer.new)) }
{
    for i in 0..u64::MAX {
        match serve_one(machine, reader, writer) {
            None => {}
            Some(end) => return end,
        }
    }
    RunEnd::ReadFault
}

/// Reads a request, carries it out, and writes what the kernel is told. `None`: it did.
fn serve_one<D: WriteZeros, E: SectorDisk, R: Read, W: Write>(
    machine: &mut Machine<D, E>,
    reader: &mut R,
    writer: &mut W,
) -> Option<RunEnd>
    requires sound { IsSoundMachine D.SectorDisk E.SectorDisk machine.old }
    ensures sound { IsSoundMachine D.SectorDisk E.SectorDisk machine.new }
    ensures serves { IfNone result (ServesNext D.SectorDisk E.SectorDisk machine.old machine.new
        (streams (R.remaining reader.old) (W.contents writer.old)) (streams (R.remaining reader.new) (W.contents writer.new))) }
    ensures stops { IfSome result (λ end. StopsFor D.SectorDisk E.SectorDisk end machine.old machine.new
        (streams (R.remaining reader.old) (W.contents writer.old)) (streams (R.remaining reader.new) (W.contents writer.new))) }
{
    let bytes = match read_request(reader) {
        Ok(Some(bytes)) => bytes,
        Ok(None) => return Some(RunEnd::Done),
        Err(_) => return Some(RunEnd::ReadFault),
    };
    match respond(machine, &bytes).write(writer) {
        Ok(()) => None,
        Err(_) => Some(RunEnd::WriteFault),
    }
}

/// Carries out the request of these bytes, and returns what the kernel is told.
pub fn respond<D: WriteZeros, E: SectorDisk>(
    machine: &mut Machine<D, E>,
    bytes: &[u8; REQUEST_BYTES],
) -> Response
    requires sound { IsSoundMachine D.SectorDisk E.SectorDisk machine.old }
    ensures sound { IsSoundMachine D.SectorDisk E.SectorDisk machine.new }
    ensures serves { (numbers : RequestNumbers) × HoldsNumbers bytes.now numbers × ServesRequest D.SectorDisk E.SectorDisk machine.old (request_of numbers) machine.new result }
{
    match RequestNumbers::read(bytes).request() {
        Some(request) => {
            let answer = answer(machine, request);
            let root = root_told(machine, &answer);
            Response::Answered { answer, root }
        }
        None => Response::Malformed,
    }
}

/// Carries out a request, and returns what the machine answers.
fn answer<D: WriteZeros, E: SectorDisk>(
    machine: &mut Machine<D, E>,
    request: Request,
) -> Option<Answer>
    requires sound { IsSoundMachine D.SectorDisk E.SectorDisk machine.old }
    ensures sound { IsSoundMachine D.SectorDisk E.SectorDisk machine.new }
    ensures answers { AnswersRequest D.SectorDisk E.SectorDisk machine.old request machine.new result }
{
    match request {
        Request::Carry(command) => carry_out(machine, command),
        Request::Touch { pid, addr } => touch(machine, pid, addr),
    }
}

/// Carries out a command.
fn carry_out<D: WriteZeros, E: SectorDisk>(
    machine: &mut Machine<D, E>,
    command: Command,
) -> Option<Answer>
    requires sound { IsSoundMachine D.SectorDisk E.SectorDisk machine.old }
    ensures sound { IsSoundMachine D.SectorDisk E.SectorDisk machine.new }
    ensures carries { AnswersCommand D.SectorDisk E.SectorDisk machine.old command machine.new result }
{
    machine.carry_out(command)
}

/// Loads the byte at an address, and stores it as it is: so nothing that anybody sees changes, and the page may be stored to from then on.
/// Returns the answer to the store, or to the load where it gave no byte.
fn touch<D: WriteZeros, E: SectorDisk>(
    machine: &mut Machine<D, E>,
    pid: u64,
    addr: u64,
) -> Option<Answer>
    requires sound { IsSoundMachine D.SectorDisk E.SectorDisk machine.old }
    ensures sound { IsSoundMachine D.SectorDisk E.SectorDisk machine.new }
    ensures touches { TouchesByte D.SectorDisk E.SectorDisk machine.old pid addr machine.new result }
{
    let width = Width::One;
    let loaded = carry_out(machine, Command::Load { pid, addr, width });
    match byte_in(&loaded) {
        Some(stored) => carry_out(machine, Command::Store { pid, addr, stored }),
        None => loaded,
    }
}

/// The number that an answer tells, to be stored as it is.
fn byte_in(answer: &Option<Answer>) -> Option<StoredValue>
    ensures some { IfSome result (IsByte answer.now) }
    ensures none { IfNone result (IsNoByte answer.now) }
{
    match answer {
        Some(Answer::Value { width, value }) => StoredValue::new(*width, *value),
        _ => None,
    }
}

/// The frame of the root table of the process that an answer names, and 0 where it names none.
fn root_told<D: SectorDisk, E: SectorDisk>(machine: &Machine<D, E>, answer: &Option<Answer>) -> u64
    requires sound { IsSoundMachine D.SectorDisk E.SectorDisk machine.now }
    ensures { IsRootTold machine.now answer.now result }
{
    match answer {
        Some(Answer::Process(pid)) => root_of(machine, *pid),
        _ => 0,
    }
}

/// The frame of a process's root table; 0 exactly where there is no such process, or the machine has halted.
fn root_of<D: SectorDisk, E: SectorDisk>(machine: &Machine<D, E>, pid: Pid) -> u64
    requires sound { IsSoundMachine D.SectorDisk E.SectorDisk machine.now }
    ensures { IsRootFrame machine.now pid result }
{
    match root_step(machine, pid, USER_START) {
        Some(step) => u64::from(step.table.0),
        None => 0,
    }
}
