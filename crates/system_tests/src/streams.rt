//! Runs over readers and writers that fail on the way, or count their calls.
use crate::bench::{same, streamed};
use machine::BootFault;
use runner::{RunEnd, WriteFault, write_bytes};
use std::process::Abort;
use test_streams::{
    Calls, CountedReader, CountedWriter, FailingReader, Full, InterruptedReader, LimitedWriter,
};

/// What comes once a reader has given its bytes.
#[derive(Clone, Copy)]
enum Input {
    Ends,
    Fails,
    /// Its end, and an interruption before each byte.
    IsInterrupted,
}

/// A trace and how it is given, how many bytes the writer takes a call and in all, and what it does then; how the run ends, and what was
/// taken by then.
type Stream = (
    (&'static [u8], Input),
    (usize, usize, Full),
    RunEnd,
    &'static [u8],
);

/// A writer that takes all replies.
const ROOMY: (usize, usize, Full) = (100, 1000, Full::Fails);

/// Three lines.
const THREE: (&[u8], Input) = (b"spawn\nspawn\nspawn\n", Input::Ends);

const STREAMS: [Stream; 6] = [
    // A line that is unfinished where the reader fails is not run, and one at its end is.
    (
        (b"spawn\nspawn\nspa", Input::Fails),
        ROOMY,
        RunEnd::ReadFault,
        b"pid 1\npid 2\n",
    ),
    (
        (b"spawn\nspawn", Input::IsInterrupted),
        ROOMY,
        RunEnd::Done,
        b"pid 1\npid 2\n",
    ),
    (
        THREE,
        (100, 9, Full::Fails),
        RunEnd::WriteFault,
        b"pid 1\npid",
    ),
    (
        THREE,
        (100, 9, Full::TakesNothing),
        RunEnd::WriteFault,
        b"pid 1\npid",
    ),
    (THREE, (100, 0, Full::TakesNothing), RunEnd::WriteFault, b""),
    // A writer of one byte a call changes nothing.
    (
        THREE,
        (1, 1000, Full::Fails),
        RunEnd::Done,
        b"pid 1\npid 2\npid 3\n",
    ),
];

/// How a run over that reader ends.
fn streamed_from(
    rt: &(impl AllocGlobal + Abort),
    trace: &[u8],
    input: Input,
    writer: &mut LimitedWriter,
) -> Result<RunEnd, BootFault> {
    match input {
        Input::Ends => {
            let mut reader = trace;
            streamed(rt, &mut reader, writer)
        }
        Input::Fails => streamed(rt, &mut FailingReader { rest: trace }, writer),
        Input::IsInterrupted => streamed(rt, &mut InterruptedReader::new(trace), writer),
    }
}

#[test]
fn a_failing_stream_ends_the_run(rt: HostRuntime) {
    for ((trace, input), (each, room, full), ending, taken) in STREAMS {
        let mut writer = LimitedWriter::new(rt.alloc(), each, room, full);
        let end = streamed_from(&rt, trace, input, &mut writer);
        same(&rt, writer.taken.as_slice(), taken);
        same(&rt, end, Ok(ending));
    }
}

/// Gives these bytes to the writer, and sees its answer and what it has taken by then.
fn expect_taken(
    rt: &impl Abort,
    writer: &mut LimitedWriter,
    bytes: &[u8],
    answer: Result<(), WriteFault>,
    taken: &[u8],
) {
    same(rt, write_bytes(bytes, writer), answer);
    same(rt, writer.taken.as_slice(), taken);
}

#[test]
fn bytes_are_given_in_as_many_calls_as_the_writer_wants(rt: HostRuntime) {
    let mut writer = LimitedWriter::new(rt.alloc(), 2, 7, Full::TakesNothing);
    expect_taken(&rt, &mut writer, b"abcde", Ok(()), b"abcde");
    expect_taken(&rt, &mut writer, b"fgh", Err(WriteFault), b"abcdefg");
}

/// Sixteen faults, and the lines that ask for the history before and after them.
const SIXTEEN_FAULTS: &[u8] =
    b"spawn\nfaults\nload 1 0x0 1\nload 1 0x1 1\nload 1 0x2 1\nload 1 0x3 1\nload 1 0x4 1\n\
load 1 0x5 1\nload 1 0x6 1\nload 1 0x7 1\nload 1 0x8 1\nload 1 0x9 1\nload 1 0xa 1\nload 1 0xb 1\nload 1 0xc 1\n\
load 1 0xd 1\nload 1 0xe 1\nload 1 0xf 1\nfaults\n";

/// A history has seventeen lines, and goes to the writer in one call, as the reply to any other line does.
#[test]
fn a_history_is_one_call_of_the_writer(rt: HostRuntime) {
    let calls = Calls::new();
    // How much was taken before each read: of two lines, then of a load a call, and then of the line that asks for the history.
    let taken = [
        0, 15, 40, 65, 90, 115, 140, 165, 190, 215, 240, 265, 290, 315, 340, 365, 390, 415, 841,
    ];
    let mut reader = CountedReader::new(rt.alloc(), SIXTEEN_FAULTS, 13, &calls);
    let mut writer = CountedWriter::new(1000, &calls);
    let end = streamed(&rt, &mut reader, &mut writer);
    same(&rt, reader.taken_before.as_slice(), taken.as_slice());
    same(&rt, (end, calls.writes.get()), (Ok(RunEnd::Done), 18));
}
