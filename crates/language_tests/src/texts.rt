//! Replies, and the texts that they are written as.
use std::process::Abort;
use trace_lang::{answer_text, bad_line_text, history_text, reply_text};
use vm_types::{Answer, Code, Errno, Fault, History, Pid, Reply, Stall, Width};

/// Ends the test where the text isn't the one that is wanted.
fn same(rt: &impl Abort, text: &[u8], want: &[u8]) {
    assert_eq!(rt; text, want);
}

const MISALIGNED: Fault = Fault {
    cause: 6,
    code: Code::BusAdraln,
    addr: 0x20001,
};

const UNMAPPED: Fault = Fault {
    cause: 13,
    code: Code::SegvMaperr,
    addr: u64::MAX,
};

const PAST_THE_END: Fault = Fault {
    cause: 13,
    code: Code::BusAdrerr,
    addr: 0x12000,
};

const TEXTS: [(Answer, &[u8]); 25] = [
    (Answer::Address(0x10000), b"addr 0x10000\n"),
    (Answer::Address(0), b"addr 0x0\n"),
    (Answer::Done, b"ok\n"),
    (
        Answer::Value {
            width: Width::One,
            value: 0,
        },
        b"value 0x00\n",
    ),
    (
        Answer::Value {
            width: Width::Four,
            value: 0x11223344,
        },
        b"value 0x11223344\n",
    ),
    (
        Answer::Value {
            width: Width::Eight,
            value: 0xab,
        },
        b"value 0x00000000000000ab\n",
    ),
    (Answer::Faulted(MISALIGNED), b"fault 6 BUS_ADRALN 0x20001\n"),
    (
        Answer::Faulted(UNMAPPED),
        b"fault 13 SEGV_MAPERR 0xffffffffffffffff\n",
    ),
    (
        Answer::Faulted(PAST_THE_END),
        b"fault 13 BUS_ADRERR 0x12000\n",
    ),
    (Answer::Refused(Errno::ESRCH), b"error 3 ESRCH\n"),
    (Answer::Refused(Errno::EIO), b"error 5 EIO\n"),
    (Answer::Refused(Errno::EBADF), b"error 9 EBADF\n"),
    (Answer::Refused(Errno::EAGAIN), b"error 11 EAGAIN\n"),
    (Answer::Refused(Errno::ENOMEM), b"error 12 ENOMEM\n"),
    (Answer::Refused(Errno::EACCES), b"error 13 EACCES\n"),
    (Answer::Refused(Errno::EEXIST), b"error 17 EEXIST\n"),
    (Answer::Refused(Errno::EINVAL), b"error 22 EINVAL\n"),
    (Answer::Refused(Errno::EFBIG), b"error 27 EFBIG\n"),
    (Answer::Refused(Errno::ENOSPC), b"error 28 ENOSPC\n"),
    (Answer::Refused(Errno::EOVERFLOW), b"error 75 EOVERFLOW\n"),
    (Answer::Stalled(Stall::NoFrames), b"stall 1 NOFRAMES\n"),
    (Answer::Stalled(Stall::NoSwap), b"stall 2 NOSWAP\n"),
    (Answer::Stalled(Stall::SwapDevice), b"stall 3 SWAPDEV\n"),
    (Answer::Stalled(Stall::StoreDevice), b"stall 4 STOREDEV\n"),
    (Answer::Halted, b"halted\n"),
];

#[test]
fn each_answer_has_its_text(rt: HostRuntime) {
    let mut out = [0; 1024];
    for (answer, want) in TEXTS {
        let len = answer_text(&answer, &mut out);
        same(&rt, &out[..len], want);
    }
    same(&rt, bad_line_text(), b"bad line\n");
}

/// Two faults of process 64, the older one first. A history is a reply, and no answer.
#[test]
fn a_history_has_a_line_for_each_fault(rt: HostRuntime) {
    let Some(pid) = Pid::new(64) else {
        return assert!(rt; false);
    };
    let mut history = History::new();
    history.push(pid, UNMAPPED);
    history.push(pid, MISALIGNED);
    let mut out = [0; 1024];
    let len = history_text(&history, &mut out);
    let lines: &[u8] =
        b"faults 2\npast 64 13 SEGV_MAPERR 0xffffffffffffffff\npast 64 6 BUS_ADRALN 0x20001\n";
    same(&rt, &out[..len], lines);
    for (reply, want) in [
        (Reply::Past(history), lines),
        (Reply::Past(History::new()), b"faults 0\n"),
        (Reply::Process(pid), b"pid 64\n"),
    ] {
        let len = reply_text(&reply, &mut out);
        same(&rt, &out[..len], want);
    }
}
