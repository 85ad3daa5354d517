//! Stops of a trace on a simulated store.
use std::test::Fail;
use stop_trials::{Event, Trial};
use stores::NewStore;
use test_steps::Program::Stops;
use test_steps::Step::{self, Does, Fails};
use test_steps::{ProgramCall, carry_out, ran_over, same, same_number};

/// One msync of one page: its events are the sync of the boot, 8 writes of the body, 8 of the map, a sync, the write of the
/// gate, and a sync.
const ONE_MSYNC: &[u8] =
    b"spawn\nmmap 1 0 4096 rw- shared 0 0\nstore 1 0x10000 1 0x5a\nmsync 1 0x10000 4096 sync\n";

/// Each event is stopped in.
const EACH: [Step<'static>; 1] = [Does(
    Stops,
    &["zero:1"],
    ONE_MSYNC,
    b"stop 1 sync acknowledged 0 left 0 0 0 0 0\nstop 2 body acknowledged 0 left 0 0 0 0 0\n\
stop 3 body acknowledged 0 left 0 0 0 0 0\nstop 4 body acknowledged 0 left 0 0 0 0 0\nstop 5 body acknowledged 0 left 0 0 0 0 0\n\
stop 6 body acknowledged 0 left 0 0 0 0 0\nstop 7 body acknowledged 0 left 0 0 0 0 0\nstop 8 body acknowledged 0 left 0 0 0 0 0\n\
stop 9 body acknowledged 0 left 0 0 0 0 0\nstop 10 map acknowledged 0 left 0 0 0 0 0\nstop 11 map acknowledged 0 left 0 0 0 0 0\n\
stop 12 map acknowledged 0 left 0 0 0 0 0\nstop 13 map acknowledged 0 left 0 0 0 0 0\nstop 14 map acknowledged 0 left 0 0 0 0 0\n\
stop 15 map acknowledged 0 left 0 0 0 0 0\nstop 16 map acknowledged 0 left 0 0 0 0 0\nstop 17 map acknowledged 0 left 0 0 0 0 0\n\
stop 18 sync acknowledged 0 left 0 0 0 0 0\nstop 19 gate acknowledged 0 left 0 0 0 0 1\nstop 20 sync acknowledged 0 left 0 0 0 0 1\nstops 20 recoveries 100 bad 0\n",
)];

/// The same, and another msync of that page: 16 writes, a sync, the gate, and a sync.
const TWO_MSYNCS: &[u8] =
    b"spawn\nmmap 1 0 4096 rw- shared 0 0\nstore 1 0x10000 1 0x5a\nmsync 1 0x10000 4096 sync\n\
store 1 0x10000 1 0x5b\nmsync 1 0x10000 4096 sync\n";

/// Some events, and traces whose msyncs write nothing.
const SOME: [Step<'static>; 5] = [
    // The gates of a pool: what opens a gate names the second map, and any other bytes the first.
    Does(
        Stops,
        &["--layout", "4", "--every", "19", "zero:1"],
        TWO_MSYNCS,
        b"stop 19 gate acknowledged 0 left 0 0 0 0 1\nstop 38 gate acknowledged 1 left 1 2 2 2 1\nstops 2 recoveries 10 bad 0\n",
    ),
    // Of two files that hold zeros one has no byte after the first msync, and the other none after the second: all their bytes are the
    // same after both, and only the lengths differ.
    Does(
        Stops,
        &["--layout", "4", "--every", "47", "zero:4096", "zero:4096"],
        b"spawn\nmmap 1 0 4096 rw- shared 0 0\nmmap 1 0 4096 rw- shared 1 0\ntruncate 0 0\nmsync 1 0x10000 1 sync\n\
truncate 0 4096\ntruncate 1 0\nmsync 1 0x10000 0x2000 sync\n",
        b"stop 47 gate acknowledged 1 left 1 2 2 2 1\nstops 1 recoveries 5 bad 0\n",
    ),
    // Each second one.
    Does(
        Stops,
        &["--every", "2", "--frames", "8", "--slots=0", "zero:4096"],
        ONE_MSYNC,
        b"stop 2 body acknowledged 0 left 0 0 0 0 0\nstop 4 body acknowledged 0 left 0 0 0 0 0\n\
stop 6 body acknowledged 0 left 0 0 0 0 0\nstop 8 body acknowledged 0 left 0 0 0 0 0\nstop 10 map acknowledged 0 left 0 0 0 0 0\n\
stop 12 map acknowledged 0 left 0 0 0 0 0\nstop 14 map acknowledged 0 left 0 0 0 0 0\nstop 16 map acknowledged 0 left 0 0 0 0 0\n\
stop 18 sync acknowledged 0 left 0 0 0 0 0\nstop 20 sync acknowledged 0 left 0 0 0 0 1\nstops 10 recoveries 50 bad 0\n",
    ),
    // An msync of a file that changes nothing, and one that only checks, are acknowledged too; a history of faults and a bad line change
    // nothing.
    Does(
        Stops,
        &["--every", "19", "zero:0", "zero:9000"],
        b"spawn\nload 1 0x4000 1\nfaults\nmsync\nmmap 1 0 4096 rw- shared 1 0\nmsync 1 0x10000 4096 sync\n\
store 1 0x10000 1 0x5a\nmsync 1 0x10000 4096 async\nmsync 1 0x10000 4096 sync",
        b"stop 19 gate acknowledged 2 left 2 2 2 2 3\nstops 1 recoveries 5 bad 0\n",
    ),
    // A trace without an msync has the boot's sync.
    Does(
        Stops,
        &["zero:1"],
        b"spawn\n",
        b"stop 1 sync acknowledged 0 left 0 0 0 0 0\nstops 1 recoveries 5 bad 0\n",
    ),
];

/// Too many files are told before a stop.
#[test]
fn each_event_or_some_are_stopped_in(rt: HostRuntime) -> Result<(), Fail> {
    carry_out(&rt, "stops", &EACH)?;
    carry_out(&rt, "stops", &SOME)?;
    let told = "pagestops: format 2 TOOLARGE\n";
    carry_out(&rt, "stops", &[Fails(Stops, &["zero:0"; 65], told)])
}

/// The device drops the sync of body and map. The stop before it is good; the one in the sync of the gate, where body and map may
/// still hold any bytes, is bad.
#[test]
fn a_stop_after_a_dropped_sync_is_bad(rt: HostRuntime) -> Result<(), Fail> {
    let words: &[&str] = &["--drop", "18", "--every", "10", "zero:1"];
    let program = Stops;
    let mut reader = ONE_MSYNC;
    let mut output = Vec::new(rt.alloc());
    let (status, errors) = ran_over(
        &rt,
        "drops",
        ProgramCall { program, words },
        &mut reader,
        &mut output,
    )?;
    let wanted = b"stop 10 map acknowledged 0 left 0 0 0 0 0\n\
stop 20 sync acknowledged 0 left 0 0 0 0 - BAD\nstops 2 recoveries 10 bad 1\n";
    same("standard error", errors.as_slice(), b"")?;
    same("standard output", output.as_slice(), wanted)?;
    same_number("exit status", status.into(), 1)
}

/// No store gives such a line: with one filling an acknowledged msync is lost.
#[test]
fn a_stop_that_loses_an_acknowledged_msync_is_bad(rt: HostRuntime) -> Result<(), Fail> {
    let trial = Trial {
        number: 12,
        event: Event::Sync,
        store: NewStore::Journal,
        acknowledged: 2,
        standing: [Some(2), Some(3), None, Some(2), Some(2)],
    };
    let line = format!(in rt.alloc(); "{trial}")?;
    let wanted = b"stop 12 sync acknowledged 2 left 2 3 - 2 2 BAD";
    same("line", line.as_bytes(), wanted)
}
