//! Streams that fail while a program runs, and which calls of them a trace makes, and when.
use std::test::Fail;
use test_steps::Program::{self, Cat, Format, Run, Stops};
use test_steps::Step::{self, Does, Removes, Shows};
use test_steps::{NEW, ProgramCall, carry_out, ran_over, repeated, same, same_number};
use test_streams::{Calls, CountedReader, CountedWriter, FailingReader, Full, LimitedWriter};

/// A machine on an image.
const RUN: &[&str] = &["@image", "@swap"];

/// The run of a trace on it.
const RUN_CALL: ProgramCall<'static> = ProgramCall {
    program: Run,
    words: RUN,
};

/// A run of which a stream fails.
#[derive(Clone, Copy)]
struct Broken {
    program: Program,
    words: &'static [&'static str],
    input: &'static [u8],
    /// Whether the input fails then; else it ends.
    fails: bool,
    /// How many bytes the output takes, and what it does then.
    output: (usize, Full),
    /// What was taken: these bytes, so many times over.
    taken: (&'static [u8], usize),
    /// What is told, with status 1.
    told: &'static [u8],
}

const BROKEN: [Broken; 6] = [
    Broken {
        program: Cat,
        words: &["@image", "0"],
        input: b"",
        fails: false,
        output: (4999, Full::Fails),
        taken: (b"\0", 4999),
        told: b"pagecat: write failed\n",
    },
    Broken {
        program: Cat,
        words: &["@image", "0"],
        input: b"",
        fails: false,
        output: (4999, Full::TakesNothing),
        taken: (b"\0", 4999),
        told: b"pagecat: write failed\n",
    },
    Broken {
        program: Run,
        words: RUN,
        input: b"spawn\nspa",
        fails: true,
        output: (1000, Full::Fails),
        taken: (b"pid 1\n", 1),
        told: b"pagerun: read failed\n",
    },
    Broken {
        program: Run,
        words: RUN,
        input: b"spawn\n",
        fails: false,
        output: (3, Full::Fails),
        taken: (b"pid", 1),
        told: b"pagerun: write failed\n",
    },
    Broken {
        program: Stops,
        words: &["zero:1"],
        input: b"spawn\n",
        fails: true,
        output: (1000, Full::Fails),
        taken: (b"", 1),
        told: b"pagestops: read failed\n",
    },
    Broken {
        program: Stops,
        words: &["zero:1"],
        input: b"spawn\n",
        fails: false,
        output: (20, Full::TakesNothing),
        taken: (b"stop 1 sync acknowle", 1),
        told: b"pagestops: write failed\n",
    },
];

/// The exit status, and what is written to standard error.
fn ended(
    rt: &HostRuntime,
    broken: &Broken,
    writer: &mut LimitedWriter,
) -> Result<(u8, Vec<u8>), Fail> {
    let call = ProgramCall {
        program: broken.program,
        words: broken.words,
    };
    let mut rest = broken.input;
    if broken.fails {
        let mut reader = FailingReader { rest };
        ran_over(rt, "streams", call, &mut reader, writer)
    } else {
        ran_over(rt, "streams", call, &mut rest, writer)
    }
}

fn expect_told(rt: &HostRuntime, broken: &Broken) -> Result<(), Fail> {
    let (room, full) = broken.output;
    let mut writer = LimitedWriter::new(rt.alloc(), 100, room, full);
    let (status, errors) = ended(rt, broken, &mut writer)?;
    same("standard error", errors.as_slice(), broken.told)?;
    let wanted = repeated(rt, &[broken.taken])?;
    same("what was taken", writer.taken.as_slice(), wanted.as_slice())?;
    same_number("exit status", status.into(), 1)
}

/// An image of 5,000 zeros.
const LONGER: Step<'static> = Does(Format, &["new", "@image", "zero:5000"], b"", b"");

#[test]
fn failing_streams_are_told(rt: HostRuntime) -> Result<(), Fail> {
    carry_out(&rt, "streams", &[LONGER])?;
    for broken in &BROKEN {
        expect_told(&rt, broken)?;
    }
    carry_out(&rt, "streams", &[Removes(RUN)])
}

/// A run whose calls of the streams are counted.
#[derive(Clone, Copy)]
struct Turns {
    trace: &'static [u8],
    /// How many bytes a read gives at most, and how many the writer takes in all before it fails.
    each: usize,
    room: usize,
    /// How many bytes the writer had taken before each read.
    taken_before: &'static [usize],
    taken: usize,
    status: u8,
    told: &'static [u8],
}

const TURNS: [Turns; 3] = [
    // Replies are out before more is read. Nine bytes a call: a line and a half, two more lines, one more, and the last one's end.
    // `exit 3` is carried out once the reader is at its end.
    Turns {
        trace: b"spawn\nspawn\nx\nspawn\nexit 3",
        each: 9,
        room: 1000,
        taken_before: &[0, 6, 21, 27],
        taken: 30,
        status: 0,
        told: b"",
    },
    // Nothing is read after a failed write.
    Turns {
        trace: b"spawn\nspawn\nspawn\n",
        each: 6,
        room: 8,
        taken_before: &[0, 6],
        taken: 8,
        status: 1,
        told: b"pagerun: write failed\n",
    },
    // Nor is a line run then that is unfinished: the msync is cut within the number of its bytes.
    Turns {
        trace: b"spawn\nmmap 1 0 8192 rw- shared 0 0\nstore 1 0x10000 1 0x5a\nmsync 1 0x10000 4096",
        each: 100,
        room: 3,
        taken_before: &[0],
        taken: 3,
        status: 1,
        told: b"pagerun: write failed\n",
    },
];

fn expect_turns(rt: &HostRuntime, turns: &Turns) -> Result<(), Fail> {
    let calls = Calls::new();
    let mut reader = CountedReader::new(rt.alloc(), turns.trace, turns.each, &calls);
    let mut writer = CountedWriter::new(turns.room, &calls);
    let (status, errors) = ran_over(rt, "turns", RUN_CALL, &mut reader, &mut writer)?;
    same("standard error", errors.as_slice(), turns.told)?;
    same_number("exit status", status.into(), turns.status.into())?;
    same_number("bytes taken", calls.taken.get() as u64, turns.taken as u64)?;
    if reader.taken_before.as_slice() == turns.taken_before {
        Ok(())
    } else {
        Err(Fail::new("other calls of the reader"))
    }
}

#[test]
fn replies_are_out_before_more_is_read(rt: HostRuntime) -> Result<(), Fail> {
    carry_out(&rt, "turns", &[NEW])?;
    for turns in &TURNS {
        expect_turns(&rt, turns)?;
    }
    let unchanged = Shows(&["@image", "0"], &[(b"\0", 4096)]);
    carry_out(&rt, "turns", &[unchanged, Removes(RUN)])
}

#[test]
fn a_trace_makes_few_calls(rt: HostRuntime) -> Result<(), Fail> {
    carry_out(&rt, "calls", &[NEW])?;
    // 80,000 bytes of trace, and 360,000 bytes of replies.
    few_calls(&rt, repeated(&rt, &[(b"x\n", 40_000)])?.as_slice())?;
    carry_out(&rt, "calls", &[Removes(RUN)])
}

fn few_calls(rt: &HostRuntime, trace: &[u8]) -> Result<(), Fail> {
    let calls = Calls::new();
    let mut reader = CountedReader::new(rt.alloc(), trace, 100_000, &calls);
    let mut writer = CountedWriter::new(1_000_000, &calls);
    let (status, _) = ran_over(rt, "calls", RUN_CALL, &mut reader, &mut writer)?;
    same_number("exit status", status.into(), 0)?;
    same_number("bytes taken", calls.taken.get() as u64, 360_000)?;
    // One for each 32 KiB that were begun, and the one that finds the end.
    same_number("reads", calls.reads.get() as u64, 4)?;
    if calls.writes.get() > 3 + 10 {
        return Err(Fail::new("too many writes"));
    }
    Ok(())
}
