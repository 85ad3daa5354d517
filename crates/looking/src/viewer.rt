//! Lines in, replies and answers out.
ghost use Rattle.std.specs.Prelude.{ℕ, List, [], ◌∷◌, ◌++◌, ◌≡◌, ◌<◌, ◌≤◌, length, take, slice_index, true, false, IfNone, IfOk, IfSome, MatchResult, OnOk};
ghost use Rattle.machine.specs.Machine.{IsSoundMachine};
ghost use Rattle.runner.specs.Session.{Answers};
ghost use Rattle.trace_lang.specs.Lines.{HasNoNewline};
ghost use Rattle.looking.specs.Lines.{is_aside};
ghost use Rattle.looking.specs.Session.{TakesAll, TakesLine, TakesSome, WritesReply};

use disk_model::{SectorDisk, WriteZeros};
use machine::Machine;
use memchr::memchr;
use runner::{LineBuffer, RunEnd, answer_line, read_once};
use std::alloc::{AllocError, Global};
use std::io::{self, Read, Write};
use telling::{Question, answer_question, question_in};
use trace_lang::{MAX_LINE_BYTES, parse_line};
use watching::{Ledger, Outcome, Pending};

/// The most bytes of one read: 32 KiB.
pub(crate) const READ_BYTES: usize = 32768;

/// What is kept from one line to the next, beside the machine.
#[derive(Drop)]
pub(crate) struct Viewer {
    line: LineBuffer,
    ledger: Ledger,
    text: [u8; 1024],
}

impl Viewer {
    /// The viewer of a machine that has just started. No later call takes memory of the host.
    ///
    /// # Errors
    /// `AllocError` where the host has not enough memory.
    pub(crate) fn new<D: SectorDisk, E: SectorDisk>(
        alloc: Global,
        machine: &Machine<D, E>,
    ) -> Result<Viewer, AllocError>
        requires { IsSoundMachine D.SectorDisk E.SectorDisk machine.now }
    {
        let ledger = Ledger::new(alloc, machine)?;
        Ok(Viewer {
            line: LineBuffer::new(),
            ledger,
            text: [0; 1024],
        })
    }

    /// Takes lines from the reader until its end, and answers each. What was written is flushed before more is read.
    pub(crate) fn take_all<R: Read, W: Write, D: WriteZeros, E: SectorDisk>(
        &mut self,
        reader: &mut R,
        machine: &mut Machine<D, E>,
        out: &mut W,
    ) -> RunEnd
        requires { IsSoundMachine D.SectorDisk E.SectorDisk machine.old }
        ensures { IsSoundMachine D.SectorDisk E.SectorDisk machine.new }
    {
        let mut input = [0; READ_BYTES];
        for i in 0..u64::MAX {
            match self.turn(&mut input, reader, machine, out) {
                None => {}
                Some(end) => return end,
            }
        }
        RunEnd::ReadFault
    }

    /// One read, and what its bytes ask for. `None`: the run goes on.
    fn turn<R: Read, W: Write, D: WriteZeros, E: SectorDisk>(
        &mut self,
        input: &mut [u8],
        reader: &mut R,
        machine: &mut Machine<D, E>,
        out: &mut W,
    ) -> Option<RunEnd>
        requires input { 0 < length input.old }
        requires sound { IsSoundMachine D.SectorDisk E.SectorDisk machine.old }
        ensures { IsSoundMachine D.SectorDisk E.SectorDisk machine.new }
    {
        match read_once(reader, input) {
            Ok(Some(count)) => self.take_piece(&input[..count], machine, out),
            Ok(None) => self.finish(machine, out),
            Err(_) => Some(RunEnd::ReadFault),
        }
    }

    /// Goes on by a piece of the input, and flushes. `None`: all was written.
    fn take_piece<W: Write, D: WriteZeros, E: SectorDisk>(
        &mut self,
        piece: &[u8],
        machine: &mut Machine<D, E>,
        out: &mut W,
    ) -> Option<RunEnd>
        requires { IsSoundMachine D.SectorDisk E.SectorDisk machine.old }
        ensures { IsSoundMachine D.SectorDisk E.SectorDisk machine.new }
    {
        match self.run_piece(piece, machine, out) {
            Ok(()) => flushed(out),
            Err(_) => Some(RunEnd::WriteFault),
        }
    }

    /// Takes the last line, which no newline ended.
    fn finish<W: Write, D: WriteZeros, E: SectorDisk>(
        &mut self,
        machine: &mut Machine<D, E>,
        out: &mut W,
    ) -> Option<RunEnd>
        requires { IsSoundMachine D.SectorDisk E.SectorDisk machine.old }
        ensures { IsSoundMachine D.SectorDisk E.SectorDisk machine.new }
    {
        if !self.line.is_empty() && self.take_open_line(machine, out).is_err() {
            return Some(RunEnd::WriteFault);
        }
        match flushed(out) {
            None => Some(RunEnd::Done),
            fault => fault,
        }
    }

    /// Takes the lines that end in a piece of the input, and keeps the beginning of the next.
    fn run_piece<W: Write, D: WriteZeros, E: SectorDisk>(
        &mut self,
        piece: &[u8],
        machine: &mut Machine<D, E>,
        out: &mut W,
    ) -> io::Result<()>
        requires { IsSoundMachine D.SectorDisk E.SectorDisk machine.old }
        ensures sound { IsSoundMachine D.SectorDisk E.SectorDisk machine.new }
        ensures takes { MatchResult result (λ _. TakesAll D.SectorDisk E.SectorDisk machine.old self.old.line piece.now machine.new self.new.line)
            (λ _. TakesSome D.SectorDisk E.SectorDisk machine.old self.old.line piece.now machine.new) }
    {
        let mut rest = piece;
        while let Some(at) = line_end(rest) {
            match self.end_line(&rest[..at], machine, out) {
                Ok(()) => {}
                Err(fault) => return Err(fault),
            }
            rest = &rest[at + 1..];
        }
        self.line.extend(rest);
        Ok(())
    }

    /// Takes the line that these bytes end. One that stands whole in them is taken where it stands.
    fn end_line<W: Write, D: WriteZeros, E: SectorDisk>(
        &mut self,
        bytes: &[u8],
        machine: &mut Machine<D, E>,
        out: &mut W,
    ) -> io::Result<()>
        requires sound { IsSoundMachine D.SectorDisk E.SectorDisk machine.old }
        requires unbroken { HasNoNewline bytes.now }
        ensures sound { IsSoundMachine D.SectorDisk E.SectorDisk machine.new }
        ensures takes { TakesAll D.SectorDisk E.SectorDisk machine.old self.old.line (bytes.now ++ 10 ∷ []) machine.new self.new.line }
    {
        if self.line.is_empty() && bytes.len() <= MAX_LINE_BYTES {
            return take_line(bytes, &mut self.ledger, &mut self.text, machine, out);
        }
        self.line.extend(bytes);
        self.take_open_line(machine, out)
    }

    /// Takes the line that is kept, and begins a new one.
    fn take_open_line<W: Write, D: WriteZeros, E: SectorDisk>(
        &mut self,
        machine: &mut Machine<D, E>,
        out: &mut W,
    ) -> io::Result<()>
        requires { IsSoundMachine D.SectorDisk E.SectorDisk machine.old }
        ensures sound { IsSoundMachine D.SectorDisk E.SectorDisk machine.new }
        ensures cleared { self.new.line ≡ [] }
        ensures takes { TakesLine D.SectorDisk E.SectorDisk machine.old self.old.line machine.new }
    {
        let taken = take_line(
            self.line.as_slice(),
            &mut self.ledger,
            &mut self.text,
            machine,
            out,
        );
        self.line.clear();
        taken
    }
}

/// Where the first line of these bytes ends.
fn line_end(bytes: &[u8]) -> Option<usize>
    ensures none { IfNone result (HasNoNewline bytes.now) }
    ensures first { IfSome result (λ at. HasNoNewline (take at bytes.now)) }
    ensures newline { IfSome result (λ at. (at < length bytes.now) × (slice_index bytes.now at ≡ 10)) }
{
    memchr(b'\n', bytes)
}

/// Gives all bytes to the writer. `None`: it took them.
fn flushed<W: Write>(out: &mut W) -> Option<RunEnd> {
    match out.flush() {
        Ok(()) => None,
        Err(_) => Some(RunEnd::WriteFault),
    }
}

/// Takes one line: a comment, a question, or a line of the trace.
fn take_line<W: Write, D: WriteZeros, E: SectorDisk>(
    line: &[u8],
    ledger: &mut Ledger,
    text: &mut [u8; 1024],
    machine: &mut Machine<D, E>,
    out: &mut W,
) -> io::Result<()>
    requires { IsSoundMachine D.SectorDisk E.SectorDisk machine.old }
    ensures sound { IsSoundMachine D.SectorDisk E.SectorDisk machine.new }
    ensures aside { is_aside line.now ≡ true → machine.new ≡ machine.old }
    ensures answers { is_aside line.now ≡ false → (text : List ℕ) × Answers D.SectorDisk E.SectorDisk machine.old line.now text machine.new }
{
    match line {
        [b'#', ..] => echo(line, out),
        [b'?', question @ ..] => {
            echo(line, out)?;
            ask(question, ledger, machine, out)
        }
        _ => follow(line, ledger, text, machine, out),
    }
}

/// Writes a line as it came; of one that is too long for a command its first 256 bytes.
fn echo<W: Write>(line: &[u8], out: &mut W) -> io::Result<()> {
    let count = line.len().min(MAX_LINE_BYTES);
    out.write_all(&line[..count])?;
    out.write_all(b"\n")
}

/// Answers a question, or says what may be asked.
fn ask<W: Write, D: SectorDisk, E: SectorDisk>(
    text: &[u8],
    ledger: &mut Ledger,
    machine: &Machine<D, E>,
    out: &mut W,
) -> io::Result<()>
    requires { IsSoundMachine D.SectorDisk E.SectorDisk machine.now }
{
    match question_in(text) {
        Ok(Question::Watch(is_on)) => {
            ledger.is_watching = is_on;
            Ok(())
        }
        Ok(question) => answer_question(question, &ledger.counts, machine, out),
        Err(misasked) => writeln!(out, "  {misasked}"),
    }
}

/// Runs a line of the trace, writes its reply, and then what it did inside where that is watched.
fn follow<W: Write, D: WriteZeros, E: SectorDisk>(
    line: &[u8],
    ledger: &mut Ledger,
    text: &mut [u8; 1024],
    machine: &mut Machine<D, E>,
    out: &mut W,
) -> io::Result<()>
    requires { IsSoundMachine D.SectorDisk E.SectorDisk machine.old }
    ensures sound { IsSoundMachine D.SectorDisk E.SectorDisk machine.new }
    ensures answers { (text : List ℕ) × Answers D.SectorDisk E.SectorDisk machine.old line.now text machine.new }
{
    let pending = match parse_line(line) {
        Ok(command) => Some(Pending::new(command, ledger, machine)),
        Err(_) => None,
    };
    let count = reply_to(line, machine, text, out)?;
    match pending {
        Some(pending) => pending.settle(Outcome::of(&text[..count]), ledger, machine, out),
        None => Ok(()),
    }
}

/// Runs a line of the trace, and writes its reply, which is the first bytes of `text` then. Returns how many these are.
fn reply_to<W: Write, D: WriteZeros, E: SectorDisk>(
    line: &[u8],
    machine: &mut Machine<D, E>,
    text: &mut [u8; 1024],
    out: &mut W,
) -> io::Result<usize>
    requires { IsSoundMachine D.SectorDisk E.SectorDisk machine.old }
    ensures sound { IsSoundMachine D.SectorDisk E.SectorDisk machine.new }
    ensures room { IfOk result (λ count. count ≤ 1024) }
    ensures writes { WritesReply D.SectorDisk E.SectorDisk machine.old line.now text.new machine.new (W.contents out.old) (W.contents out.new) result }
{
    let count = answer_line(line, machine, text);
    out.write_all(&text[..count])?;
    Ok(count)
}
