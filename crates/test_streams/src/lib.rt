//! Readers and writers that fail on the way, for tests.
#![tactic(auto)]

use std::alloc::Global;
use std::cell::Cell;
use std::io::{self, ErrorKind, Read, Write};

/// Gives its bytes, and then an error.
#[derive(Drop)]
pub struct FailingReader<'a> {
    pub rest: &'a [u8],
}

impl Read for FailingReader<'_> {
    fn read(&mut self, buf: &mut [u8]) -> io::Result<usize> {
        if self.rest.is_empty() {
            return Err(io::Error::from(ErrorKind::Other));
        }
        self.rest.read(buf)
    }
}

/// What a writer does when it has no room left.
#[derive(Clone, Copy, Debug, PartialEq, Eq)]
pub enum Full {
    Fails,
    TakesNothing,
}

/// Takes at most so many bytes a call and so many in all.
#[derive(Drop)]
pub struct LimitedWriter {
    pub taken: Vec<u8>,
    each: usize,
    room: usize,
    full: Full,
}

impl LimitedWriter {
    pub fn new(alloc: Global, each: usize, room: usize, full: Full) -> LimitedWriter {
        LimitedWriter {
            taken: Vec::new(alloc),
            each,
            room,
            full,
        }
    }
}

impl Write for LimitedWriter {
    fn write(&mut self, buf: &[u8]) -> io::Result<usize> {
        let count = buf.len().min(self.each).min(self.room);
        if count == 0 && self.full == Full::Fails {
            return Err(io::Error::from(ErrorKind::Other));
        }
        if self.taken.extend_from_slice(&buf[..count]).is_err() {
            return Err(io::Error::from(ErrorKind::OutOfMemory));
        }
        self.room -= count;
        Ok(count)
    }

    fn flush(&mut self) -> io::Result<()> {
        Ok(())
    }
}

/// Fails with an interruption before each byte that it gives.
#[derive(Drop)]
pub struct InterruptedReader<'a> {
    pub rest: &'a [u8],
    is_next: bool,
}

impl<'a> InterruptedReader<'a> {
    pub fn new(rest: &'a [u8]) -> InterruptedReader<'a> {
        InterruptedReader {
            rest,
            is_next: false,
        }
    }
}

impl Read for InterruptedReader<'_> {
    fn read(&mut self, buf: &mut [u8]) -> io::Result<usize> {
        self.is_next = !self.is_next;
        if self.is_next {
            return Err(io::Error::from(ErrorKind::Interrupted));
        }
        match buf.split_first_mut() {
            Some((first, _)) => match self.rest.split_first() {
                Some((byte, rest)) => {
                    *first = *byte;
                    self.rest = rest;
                    Ok(1)
                }
                None => Ok(0),
            },
            None => Ok(0),
        }
    }
}

/// The calls that a reader and a writer have had so far, and the bytes that the writer took.
#[derive(Drop)]
pub struct Calls {
    pub reads: Cell<usize>,
    pub writes: Cell<usize>,
    pub taken: Cell<usize>,
}

impl Calls {
    pub fn new() -> Calls {
        Calls {
            reads: Cell::new(0),
            writes: Cell::new(0),
            taken: Cell::new(0),
        }
    }
}

/// Gives its bytes, at most so many a call, and notes how many bytes the writer had taken before each call.
#[derive(Drop)]
pub struct CountedReader<'a> {
    pub taken_before: Vec<usize>,
    rest: &'a [u8],
    each: usize,
    calls: &'a Calls,
}

impl<'a> CountedReader<'a> {
    pub fn new(alloc: Global, rest: &'a [u8], each: usize, calls: &'a Calls) -> CountedReader<'a> {
        CountedReader {
            taken_before: Vec::new(alloc),
            rest,
            each,
            calls,
        }
    }
}

impl Read for CountedReader<'_> {
    fn read(&mut self, buf: &mut [u8]) -> io::Result<usize> {
        self.calls.reads.set(self.calls.reads.get().wrapping_add(1));
        if self.taken_before.push(self.calls.taken.get()).is_err() {
            return Err(io::Error::from(ErrorKind::OutOfMemory));
        }
        let room = buf.len().min(self.each);
        self.rest.read(&mut buf[..room])
    }
}

/// Takes bytes until it has so many, and then fails.
#[derive(Drop)]
pub struct CountedWriter<'a> {
    room: usize,
    calls: &'a Calls,
}

impl<'a> CountedWriter<'a> {
    pub fn new(room: usize, calls: &'a Calls) -> CountedWriter<'a> {
        CountedWriter { room, calls }
    }
}

impl Write for CountedWriter<'_> {
    fn write(&mut self, buf: &[u8]) -> io::Result<usize> {
        self.calls
            .writes
            .set(self.calls.writes.get().wrapping_add(1));
        let count = buf.len().min(self.room);
        if count == 0 {
            return Err(io::Error::from(ErrorKind::Other));
        }
        self.room -= count;
        self.calls
            .taken
            .set(self.calls.taken.get().wrapping_add(count));
        Ok(count)
    }

    fn flush(&mut self) -> io::Result<()> {
        Ok(())
    }
}
