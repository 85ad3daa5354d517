//! Runs the lines of a trace.
ghost use Rattle.std.specs.Prelude.{◌≡◌, ℕ, List, Option, [], ◌∷◌, ◌++◌, ◌+◌, ◌<◌, ◌≤◌, length, take, IfNone, IfOk, IfSome, MatchOption, MatchResult, OnOk, slice_index};
ghost use Rattle.std.specs.Io.KnownBytes.{Consumes, IsAtEnd};
ghost use Rattle.machine.specs.Machine.{store_of, swap_of, past_of, IsSoundMachine, Shows};
ghost use Rattle.vm_types.specs.State.{State};
ghost use Rattle.runner.specs.Progress.{stage, AddsReply, EndsWithReader, MayAnswer, RunsLastLine, TakesBytes, TakesTurn, TakesTurns};
ghost use Rattle.trace_lang.specs.Lines.{HasNoNewline};
ghost use Rattle.trace_lang.specs.Texts.{text_of};
ghost use Rattle.vm_types.specs.declared.reply.Reply.TheVariants.{Past};
ghost use Rattle.runner.specs.Trace.{streams, CausedTrace, RunsTrace};

use crate::line_buffer::LineBuffer;
use crate::output_buffer::{OutputBuffer, WriteFault};
use disk_model::{SectorDisk, WriteZeros};
use machine::Machine;
use memchr::memchr;
use std::io::{ErrorKind, Read, Write};
use trace_lang::{MAX_LINE_BYTES, bad_line_text, parse_line};

// The most bytes of one read: 32 KiB.
const READ_BYTES: usize = 32768;

/// How a run ended.
#[derive(Clone, Copy, Debug, PartialEq, Eq)]
pub enum RunEnd {
    /// The reader is at its end, and each line has its reply.
    Done,
    /// The reader failed.
    ReadFault,
    /// The writer failed, or took no bytes.
    WriteFault,
}

/// The reader failed.
#[derive(Clone, Copy, Debug, PartialEq, Eq)]
pub struct ReadFault;

// Adds the text of the history. (It stays out of the way of the other replies, since a history takes some 400 bytes.)
#[cold]
#[inline(never)]
fn answer_history<D: SectorDisk, E: SectorDisk>(output: &mut OutputBuffer, machine: &Machine<D, E>)
    requires room { length output.old < 32768 }
    ensures room { length output.new ≤ length output.old + 1024 }
    ensures text { output.new ≡ output.old ++ text_of (Past (past_of machine.now)) }
{
    output.push_history(&machine.history());
}

// Runs one line and adds its reply's text to the output.
fn answer<D: WriteZeros, E: SectorDisk>(
    line: &[u8],
    output: &mut OutputBuffer,
    machine: &mut Machine<D, E>,
)
    requires { MayAnswer D.SectorDisk E.SectorDisk machine.old output.old }
    ensures { AddsReply D.SectorDisk E.SectorDisk machine.old machine.new line.now output.old output.new }
{
    match parse_line(line) {
        Ok(command) => match machine.carry_out(command) {
            Some(answer) => output.push_answer(&answer),
            None => answer_history(output, machine),
        },
        Err(_) => output.push(bad_line_text()),
    }
}

// Runs the line that a newline has ended, and writes the output out where it is full.
fn end_line<W: Write, D: WriteZeros, E: SectorDisk>(
    line: &[u8],
    output: &mut OutputBuffer,
    writer: &mut W,
    machine: &mut Machine<D, E>,
) -> Result<(), WriteFault>
    requires { MayAnswer D.SectorDisk E.SectorDisk machine.old output.old }
    ensures { TakesBytes D.SectorDisk E.SectorDisk result (stage machine.old line.now output.old (W.contents writer.old))
        (stage machine.new [] output.new (W.contents writer.new)) (10 ∷ []) }
{
    answer(line, output, machine);
    if output.is_full() {
        return output.write_out(writer);
    }
    Ok(())
}

// Where the first newline stands.
fn newline_in(bytes: &[u8]) -> Option<usize>
    ensures none { IfNone result (HasNoNewline bytes.now) }
    ensures first { IfSome result (λ at. HasNoNewline (take at bytes.now)) }
    ensures newline { IfSome result (λ at. (at < length bytes.now) × (slice_index bytes.now at ≡ 10)) }
{
    memchr(b'\n', bytes)
}

// Goes on by bytes that end the open line, and by the newline after them. A line that stands whole in them is run where it
// stands.
fn run_line<W: Write, D: WriteZeros, E: SectorDisk>(
    bytes: &[u8],
    line: &mut LineBuffer,
    output: &mut OutputBuffer,
    writer: &mut W,
    machine: &mut Machine<D, E>,
) -> Result<(), WriteFault>
    requires going { MayAnswer D.SectorDisk E.SectorDisk machine.old output.old }
    requires unbroken { HasNoNewline bytes.now }
    ensures { TakesBytes D.SectorDisk E.SectorDisk result (stage machine.old line.old output.old (W.contents writer.old))
        (stage machine.new line.new output.new (W.contents writer.new)) (bytes.now ++ 10 ∷ []) }
{
    if line.is_empty() && bytes.len() <= MAX_LINE_BYTES {
        return end_line(bytes, output, writer, machine);
    }
    line.extend(bytes);
    let ended = end_line(line.as_slice(), output, writer, machine);
    line.clear();
    ended
}

// Goes on by a piece of the trace.
fn run_piece<W: Write, D: WriteZeros, E: SectorDisk>(
    piece: &[u8],
    line: &mut LineBuffer,
    output: &mut OutputBuffer,
    writer: &mut W,
    machine: &mut Machine<D, E>,
) -> Result<(), WriteFault>
    requires { MayAnswer D.SectorDisk E.SectorDisk machine.old output.old }
    ensures { TakesBytes D.SectorDisk E.SectorDisk result (stage machine.old line.old output.old (W.contents writer.old))
        (stage machine.new line.new output.new (W.contents writer.new)) piece.now }
{
    let mut rest = piece;
    while let Some(at) = newline_in(rest) {
        match run_line(&rest[..at], line, output, writer, machine) {
            Ok(()) => {}
            Err(fault) => return Err(fault),
        }
        rest = &rest[at + 1..];
    }
    line.extend(rest);
    Ok(())
}

// Goes on by a piece and gives the replies to the writer.
fn take_piece<W: Write, D: WriteZeros, E: SectorDisk>(
    piece: &[u8],
    line: &mut LineBuffer,
    output: &mut OutputBuffer,
    writer: &mut W,
    machine: &mut Machine<D, E>,
) -> Result<(), WriteFault>
    requires { MayAnswer D.SectorDisk E.SectorDisk machine.old output.old }
    ensures empty { OnOk result (output.new ≡ []) }
    ensures reads { TakesBytes D.SectorDisk E.SectorDisk result (stage machine.old line.old output.old (W.contents writer.old))
        (stage machine.new line.new output.new (W.contents writer.new)) piece.now }
{
    match run_piece(piece, line, output, writer, machine) {
        Ok(()) => {}
        Err(fault) => return Err(fault),
    }
    output.write_out(writer)
}

// Runs the last line where no newline ended it.
fn answer_last<D: WriteZeros, E: SectorDisk>(
    line: &LineBuffer,
    output: &mut OutputBuffer,
    machine: &mut Machine<D, E>,
)
    requires { MayAnswer D.SectorDisk E.SectorDisk machine.old output.old }
    ensures { RunsLastLine D.SectorDisk E.SectorDisk machine.old machine.new line.now output.old output.new }
{
    if line.is_empty() {
        return;
    }
    answer(line.as_slice(), output, machine);
}

// The reader is at its end: runs the last line and gives the replies to the writer.
fn finish<W: Write, D: WriteZeros, E: SectorDisk>(
    line: &LineBuffer,
    output: &mut OutputBuffer,
    writer: &mut W,
    machine: &mut Machine<D, E>,
) -> RunEnd
    requires { MayAnswer D.SectorDisk E.SectorDisk machine.old output.old }
    ensures { EndsWithReader D.SectorDisk E.SectorDisk result (stage machine.old line.now output.old (W.contents writer.old))
        (stage machine.new line.now output.new (W.contents writer.new)) }
{
    answer_last(line, output, machine);
    match output.write_out(writer) {
        Ok(()) => RunEnd::Done,
        Err(_) => RunEnd::WriteFault,
    }
}

/// One call of the reader: how many bytes came, 0 only where it was interrupted, or `None` at its end.
///
/// # Errors
///
/// `ReadFault` where the reader failed.
pub fn read_once<R: Read>(reader: &mut R, input: &mut [u8]) -> Result<Option<usize>, ReadFault>
    requires { 0 < length input.old }
    ensures bound { IfOk result (λ read. IfSome read (λ n. n ≤ length input.new)) }
    ensures bytes { MatchResult result
        (λ read. MatchOption read
        (Consumes (R.remaining reader.old) (R.remaining reader.new) [] × IsAtEnd (R.remaining reader.new))
        (λ n. Consumes (R.remaining reader.old) (R.remaining reader.new) (take n input.new)))
        (λ _. Consumes (R.remaining reader.old) (R.remaining reader.new) []) }
{
    match reader.read(input) {
        Ok(0) => Ok(None),
        Ok(count) => Ok(Some(count)),
        Err(error) if error.kind() == ErrorKind::Interrupted => Ok(Some(0)),
        Err(_) => Err(ReadFault),
    }
}

// What came of the reader.
#[derive(Drop)]
struct Input {
    // The bytes of the last read, at the front.
    bytes: [u8; READ_BYTES],
    // The beginning of the open line.
    line: LineBuffer,
}

// One read, and what its bytes ask for. `None`: the run goes on.
fn turn<R: Read, W: Write, D: WriteZeros, E: SectorDisk>(
    reader: &mut R,
    input: &mut Input,
    output: &mut OutputBuffer,
    writer: &mut W,
    machine: &mut Machine<D, E>,
) -> Option<RunEnd>
    requires empty { output.old ≡ [] }
    requires sound { IsSoundMachine D.SectorDisk E.SectorDisk machine.old }
    ensures { TakesTurn D.SectorDisk E.SectorDisk result (R.remaining reader.old) (R.remaining reader.new)
        (stage machine.old input.old.line output.old (W.contents writer.old)) (stage machine.new input.new.line output.new (W.contents writer.new)) }
{
    let Input { bytes, line } = input;
    match read_once(reader, bytes) {
        Ok(Some(count)) => match take_piece(&bytes[..count], line, output, writer, machine) {
            Ok(()) => None,
            Err(_) => Some(RunEnd::WriteFault),
        },
        Ok(None) => Some(finish(line, output, writer, machine)),
        Err(_) => Some(RunEnd::ReadFault),
    }
}

// The turns of a run, with the words that each turn keeps.
fn run_turns<R: Read, W: Write, D: WriteZeros, E: SectorDisk>(
    reader: &mut R,
    writer: &mut W,
    machine: &mut Machine<D, E>,
) -> RunEnd
    requires sound { IsSoundMachine D.SectorDisk E.SectorDisk machine.old }
    ensures { TakesTurns D.SectorDisk E.SectorDisk result (R.remaining reader.old) (R.remaining reader.new)
        (stage machine.old [] [] (W.contents writer.old)) (stage machine.new [] [] (W.contents writer.new)) }
{
    let mut input = Input {
        bytes: [0; READ_BYTES],
        line: LineBuffer::new(),
    };
    let mut output = OutputBuffer::new();
    for i in 0..u64::MAX {
        match turn(reader, &mut input, &mut output, writer, machine) {
            None => {}
            Some(end) => return end,
        }
    }
    RunEnd::ReadFault
}

/// Runs a trace: reads its lines, has the machine carry out the commands that they stand for, one after another, and
/// writes the text of each reply, or `bad line` for a line that stands for none. It takes no memory.
///
/// Each complete line is run, and its reply given to the writer, before more is read. The reader and the writer are
/// called again where they were interrupted.
///
/// - `Done`: the reader is at its end. All lines were run, the last one with or without a newline.
/// - `ReadFault`: the reader failed, or was called 2^64 - 1 times. The complete lines read before were run; an
///   unfinished one was not run.
/// - `WriteFault`: the writer failed or took no bytes. What it took is a beginning of the replies to the lines that were
///   run, which are the first of the complete ones read, or all where the reader is at its end.
///
/// Whatever the devices do, a reply names a device or the want of a frame only where that device failed as its command was
/// carried out, or a frame was refused.
///
/// Where a reader or a writer does not say which bytes it has, as a file or a terminal, the contract claims nothing of these.
pub fn run<R: Read, W: Write, D: WriteZeros, E: SectorDisk>(
    reader: &mut R,
    writer: &mut W,
    machine: &mut Machine<D, E>,
) -> RunEnd
    requires { IsSoundMachine D.SectorDisk E.SectorDisk machine.old }
    ensures sound { IsSoundMachine D.SectorDisk E.SectorDisk machine.new }
    ensures kept { D.keeps_model (store_of machine.new) → D.keeps_model (store_of machine.old) }
    ensures swap_kept { E.keeps_model (swap_of machine.new) → E.keeps_model (swap_of machine.old) }
    ensures caused { CausedTrace D.SectorDisk E.SectorDisk result machine.old machine.new
        (streams (R.remaining reader.old) (W.contents writer.old)) (streams (R.remaining reader.new) (W.contents writer.new)) }
    ensures runs { (s : State) → Shows D.SectorDisk E.SectorDisk machine.old s → D.keeps_model (store_of machine.new)
        → E.keeps_model (swap_of machine.new) → RunsTrace D.SectorDisk E.SectorDisk result machine.old machine.new
        (streams (R.remaining reader.old) (W.contents writer.old)) (streams (R.remaining reader.new) (W.contents writer.new)) s }
{
    run_turns(reader, writer, machine)
}
