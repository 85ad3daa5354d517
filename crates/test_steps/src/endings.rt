//! Programs that are run, and how they have to end.
use crate::looks::{same, same_number};
use crate::names::{named, start_of};
use crate::steps::{Program, ProgramCall};
use looking::pagelook;
use programs::{pagecat, pagefmt, pagerun};
use std::io::{Read, Write};
use std::test::Fail;
use stop_trials::pagestops;

/// How a program has to end: its exit status, and what it writes to standard output and to standard error.
#[derive(Clone, Copy)]
pub(crate) struct Ending<'a> {
    pub status: u8,
    pub output: &'a [u8],
    pub errors: &'a [u8],
}

/// Runs a program on this input, and sees how it ends.
pub(crate) fn ends(
    rt: &HostRuntime,
    start: &str,
    call: ProgramCall<'_>,
    input: &[u8],
    ending: Ending<'_>,
) -> Result<(), Fail> {
    let mut reader = input;
    let mut output = Vec::new(rt.alloc());
    let (status, errors) = ran_with(rt, start, call, &mut reader, &mut output)?;
    same("standard error", errors.as_slice(), ending.errors)?;
    same("standard output", output.as_slice(), ending.output)?;
    same_number("exit status", status.into(), ending.status.into())
}

/// Sees that a program fails on a trace of one line, and writes that line to standard error.
pub(crate) fn fails(
    rt: &HostRuntime,
    start: &str,
    call: ProgramCall<'_>,
    line: &str,
) -> Result<(), Fail> {
    let line = named(rt, start, line)?;
    let ending = Ending {
        status: 1,
        output: b"",
        errors: line.as_bytes(),
    };
    ends(rt, start, call, b"spawn\n", ending)
}

/// Sees that a program does not take these words.
pub(crate) fn refuses(rt: &HostRuntime, start: &str, call: ProgramCall<'_>) -> Result<(), Fail> {
    let errors: &[u8] = match call.program {
        Program::Format => b"pagefmt: usage\n",
        Program::Run => b"pagerun: usage\n",
        Program::Look => b"pagelook: usage\n",
        Program::Cat => b"pagecat: usage\n",
        Program::Stops => b"pagestops: usage\n",
    };
    let ending = Ending {
        status: 2,
        output: b"",
        errors,
    };
    ends(rt, start, call, b"spawn\n", ending)
}

/// Runs a program of that test over these streams: its exit status, and what it wrote to standard error.
pub fn ran_over<I: Read, O: Write>(
    rt: &HostRuntime,
    test: &str,
    call: ProgramCall<'_>,
    reader: &mut I,
    writer: &mut O,
) -> Result<(u8, Vec<u8>), Fail> {
    let start = start_of(rt, test)?;
    ran_with(rt, start.as_str(), call, reader, writer)
}

fn ran_with<I: Read, O: Write>(
    rt: &HostRuntime,
    start: &str,
    call: ProgramCall<'_>,
    reader: &mut I,
    writer: &mut O,
) -> Result<(u8, Vec<u8>), Fail> {
    let mut owned = Vec::new(rt.alloc());
    for word in call.words {
        owned.push(named(rt, start, word)?)?;
    }
    let words = owned.as_slice();
    let mut errors = Vec::new(rt.alloc());
    let status = match call.program {
        Program::Format => pagefmt(rt, words, reader, writer, &mut errors),
        Program::Run => pagerun(rt, words, reader, writer, &mut errors),
        Program::Look => pagelook(rt, words, reader, writer, &mut errors),
        Program::Cat => pagecat(rt, words, reader, writer, &mut errors),
        Program::Stops => pagestops(rt, words, reader, writer, &mut errors),
    };
    Ok((status, errors))
}
