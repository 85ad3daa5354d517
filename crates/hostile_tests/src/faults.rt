//! Each call of a device failing once.
use crate::bench::{Armed, Case, expect};
use crate::cases::{
    HALTING, MOST_PAGES, OBJECT_PAGES, OTHER_LENGTHS, OWN_PAGES, PAGES_IN_SLOTS, PARTIAL_PAGE,
    SHARED_COPY, TWO_FILES, TWO_PAGES_IN_A_POOL, TWO_PROCESSES, most_pages,
};
use crate::fillings::EACH;

/// Each call of the swap device that is made fails once: a line stalls, which may be an msync that reads the pages that lie in slots,
/// and all others have the replies of a trace of them alone. Some are made, and fewer than 500.
#[test]
fn a_failing_call_of_swap_stalls_one_line(rt: HostRuntime) {
    for case in [OWN_PAGES, SHARED_COPY, OBJECT_PAGES, PAGES_IN_SLOTS] {
        let image = case.image(&rt);
        case.asked(&rt, &image);
        let mut failures = 0;
        for call in 1..500 {
            let armed = Armed::SwapFailsAtCall(call as u64);
            failures = case.failures(&rt, &image, armed, &[call % 5]);
            if failures != 1 {
                expect(&rt, call > 1, "no call");
                break;
            }
        }
        expect(
            &rt,
            failures == 0,
            "two lines that stalled, or more calls than were tried",
        );
    }
}

/// The machine does not start, or a line stalls, or an msync fails and halts it.
#[test]
fn a_failing_call_of_the_store_leaves_an_msync_or_none(rt: HostRuntime) {
    for case in [
        PARTIAL_PAGE,
        TWO_FILES,
        TWO_PROCESSES,
        TWO_PAGES_IN_A_POOL,
        OTHER_LENGTHS,
    ] {
        case.try_each(&rt, false);
    }
}

/// A read of a page, and calls of each of the three msyncs.
#[test]
fn a_failing_call_of_the_store_leaves_most_pages_whole(rt: HostRuntime) {
    let trace = most_pages(&rt);
    let case = Case {
        trace: trace.as_slice(),
        ..MOST_PAGES
    };
    let image = case.image(&rt);
    for call in [4000, 12000, 30000, 48000] {
        let failures = case.failures(&rt, &image, Armed::FailAtCall(call), &[0]);
        expect(&rt, failures == 1, "not one failure");
    }
}

/// A sync that fails within an msync of one page, the first behind sixteen writes, the second behind that of the gate, comes so many
/// calls after the start and the reads of the page. The machine is halted and calls the device no more, so that no sync is believed
/// which comes behind it, and what stands is what the gate's sector says.
#[test]
fn a_failed_sync_halts_the_machine(rt: HostRuntime) {
    let image = HALTING.image(&rt);
    let start = Case {
        trace: b"",
        ..HALTING
    };
    let at_start = start.ran(&rt, &image, Armed::Nothing);
    for (calls, writes) in [(8 + 17, 16), (8 + 19, 17)] {
        let call = at_start.store.disk.calls().saturating_add(calls);
        let armed = Armed::FailAtCall(call);
        let told = HALTING.ran(&rt, &image, armed);
        expect(
            &rt,
            told.store.disk.calls() == call,
            "a call behind a sync that failed",
        );
        expect(
            &rt,
            told.output.as_slice() == HALTING.replies,
            "other replies than wanted",
        );
        expect(
            &rt,
            told.store.disk.writes() == writes,
            "other writes than wanted",
        );
        let failures = HALTING.failures(&rt, &image, armed, &EACH);
        expect(&rt, failures == 1, "not one failure");
    }
}
