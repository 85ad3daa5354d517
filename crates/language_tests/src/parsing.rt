//! Lines, and the commands that they stand for.
use std::process::Abort;
use trace_lang::{BadLine, parse_line};
use vm_types::{Command, MapSource, MsyncMode, Placing, Prot, StoredValue, Width};

/// Sees that a line is read so.
fn expect(rt: &impl Abort, line: &[u8], want: Result<Command, BadLine>) {
    assert_eq!(rt; parse_line(line), want, "at {line:?}");
}

/// What is read of addresses, and what changes mappings or files.
const COMMANDS: [(&[u8], Command); 18] = [
    (b"spawn", Command::Spawn),
    (b"faults", Command::PastFaults),
    (b"fork 1", Command::Fork { pid: 1 }),
    (b"exit 0x07", Command::Exit { pid: 7 }),
    (
        b"fetch 1 0x20002",
        Command::Fetch {
            pid: 1,
            addr: 0x20002,
        },
    ),
    (
        b"load 1 0x10ff8 8",
        Command::Load {
            pid: 1,
            addr: 0x10ff8,
            width: Width::Eight,
        },
    ),
    (
        b"load 1 0x10000 0x08",
        Command::Load {
            pid: 1,
            addr: 0x10000,
            width: Width::Eight,
        },
    ),
    (
        b"load 1 18446744073709551615 0x1",
        Command::Load {
            pid: 1,
            addr: u64::MAX,
            width: Width::One,
        },
    ),
    (
        b"load 1 0xAbCdEf 1",
        Command::Load {
            pid: 1,
            addr: 0xabcdef,
            width: Width::One,
        },
    ),
    (
        b"msync 1 0x10000 12288 sync",
        Command::Msync {
            pid: 1,
            addr: 0x10000,
            len: 12288,
            mode: MsyncMode::Sync,
        },
    ),
    (
        b"msync 1 0x10000 12288 async",
        Command::Msync {
            pid: 1,
            addr: 0x10000,
            len: 12288,
            mode: MsyncMode::Async,
        },
    ),
    (
        b"truncate 3 5000",
        Command::Truncate {
            file: 3,
            length: 5000,
        },
    ),
    (
        b"truncate 0x40 18446744073709551615",
        Command::Truncate {
            file: 64,
            length: u64::MAX,
        },
    ),
    (
        b"munmap 1 0x21000 0x3000",
        Command::Munmap {
            pid: 1,
            addr: 0x21000,
            len: 0x3000,
        },
    ),
    (
        b"dontneed 1 0x21000 0x3000",
        Command::Dontneed {
            pid: 1,
            addr: 0x21000,
            len: 0x3000,
        },
    ),
    (
        b"mprotect 1 0x20001 0x1000 r--",
        Command::Mprotect {
            pid: 1,
            addr: 0x20001,
            len: 0x1000,
            prot: Prot::READ,
        },
    ),
    (
        b"mprotect 1 0x20000 0 r--",
        Command::Mprotect {
            pid: 1,
            addr: 0x20000,
            len: 0,
            prot: Prot::READ,
        },
    ),
    (
        b"mprotect 1 0x10000 4096 --x",
        Command::Mprotect {
            pid: 1,
            addr: 0x10000,
            len: 4096,
            prot: Prot::EXECUTE,
        },
    ),
];

/// Stores to 0x10000, also of the largest value of each width.
const STORES: [(&[u8], Width, u64); 5] = [
    (
        b"store 1 0x10000 8 0x1122334455667788",
        Width::Eight,
        0x1122334455667788,
    ),
    (b"store 1 0x10000 1 0xff", Width::One, 0xff),
    (b"store 1 0x10000 2 0xffff", Width::Two, 0xffff),
    (b"store 1 0x10000 4 0xffffffff", Width::Four, 0xffff_ffff),
    (
        b"store 1 0x10000 8 18446744073709551615",
        Width::Eight,
        u64::MAX,
    ),
];

const SHARED: MapSource = MapSource::Shared {
    file: 0,
    offset: 0x2000,
};

const PRIVATE: MapSource = MapSource::Private {
    file: 63,
    offset: 0x100000000000,
};

/// Mappings of 4,096 bytes at 0x22000, which may be written; those of shared pages of a file may be read too.
const MAPPINGS: [(&[u8], MapSource, Placing); 10] = [
    (
        b"mmap 1 0x22000 0x1000 rw- shared 0 0x2000",
        SHARED,
        Placing::Hint,
    ),
    (
        b"mmap 1 0x22000 0x1000 rw- shared 0 0x2000 fixed",
        SHARED,
        Placing::Fixed,
    ),
    (
        b"mmap 1 0x22000 4096 rw- shared 0 8192 noreplace",
        SHARED,
        Placing::NoReplace,
    ),
    (
        b"mmap 1 0x22000 4096 -w- anon",
        MapSource::Anon,
        Placing::Hint,
    ),
    (
        b"mmap 1 0x22000 0x1000 -w- anon noreplace",
        MapSource::Anon,
        Placing::NoReplace,
    ),
    (
        b"mmap 1 0x22000 0x1000 -w- common",
        MapSource::Common,
        Placing::Hint,
    ),
    (
        b"mmap 1 0x22000 0x1000 -w- common fixed",
        MapSource::Common,
        Placing::Fixed,
    ),
    (
        b"mmap 1 0x22000 4096 -w- common noreplace",
        MapSource::Common,
        Placing::NoReplace,
    ),
    (
        b"mmap 1 0x22000 0x1000 -w- private 63 0x100000000000",
        PRIVATE,
        Placing::Hint,
    ),
    (
        b"mmap 1 0x22000 0x1000 -w- private 0x3f 0x100000000000 fixed",
        PRIVATE,
        Placing::Fixed,
    ),
];

#[test]
fn each_form_is_read(rt: HostRuntime) {
    for (line, want) in COMMANDS {
        expect(&rt, line, Ok(want));
    }
    for (line, width, value) in STORES {
        let Some(stored) = StoredValue::new(width, value) else {
            return assert!(rt; false);
        };
        let (pid, addr) = (1, 0x10000);
        expect(&rt, line, Ok(Command::Store { pid, addr, stored }));
    }
    for (line, source, placing) in MAPPINGS {
        let prot = match source {
            MapSource::Shared { .. } => Prot::READ | Prot::WRITE,
            _ => Prot::WRITE,
        };
        let (pid, addr, len) = (1, 0x22000, 0x1000);
        expect(
            &rt,
            line,
            Ok(Command::Mmap {
                pid,
                addr,
                len,
                prot,
                source,
                placing,
            }),
        );
    }
}

/// Lines of no form.
const BAD_LINES: [&[u8]; 82] = [
    b"",
    b" ",
    b"spawn ",
    b" spawn",
    b"spawn\r",
    b"SPAWN",
    b"fork",
    b"fork ",
    b"fork  1",
    b"fork 1 1",
    b"fork 18446744073709551616",
    b"exit",
    b"exit all",
    b"exit 1 ",
    b"exit 1 1",
    b"fetch 1",
    b"fetch 1  0x10000",
    b"fetch 1 0x10000 4",
    b"fetch 1 0x10000000000000000",
    b"load  1 0x10000 1",
    b"load 1 0x10000 1 ",
    b"load 1 0x10000",
    b"load 1 0x10000 1 1",
    b"load 1 0X10000 1",
    b"load 1 0x 1",
    b"load 1 +1 1",
    b"load 1 1a 1",
    b"load 1 18446744073709551616 1",
    b"load 1 0x10000000000000000 1",
    b"load 1 0x10000 0",
    b"load 1 0x10000 3",
    b"load 1 0x10000 16",
    b"store 1 0x10000 1 0x100",
    b"store 1 0x10000 2 0x10000",
    b"store 1 0x10000 4 0x100000000",
    b"store 1 0x10000 8 18446744073709551616",
    b"msync 1 0x10000 4096 later",
    b"mmap 1 0 4096 wr- shared 0 0",
    b"mmap 1 0 4096 rw shared 0 0",
    b"mmap 1 0 4096 rw- shared 0",
    b"mmap 1 0 4096 rw- shared 0 0 fixed twice",
    b"mmap 1 0 4096 rw- shared 0 0 fixed noreplace",
    b"mmap 1 0 4096 rw- shared 0 0 Fixed",
    b"mmap 1 0 4096 rw- shared 0 0 ",
    b"mmap 1 0 4096 rw- shared 0 fixed",
    b"mmap 1 0 4096 rw- fixed shared 0 0",
    b"mmap 1 0 4096 rw- fixed",
    b"mmap 1 0 1 rw-",
    b"mmap 1 0 1 rw-  anon",
    b"mmap 1 0 1 rw- ANON",
    b"mmap 1 0 1 rw- anonymous",
    b"mmap 1 0 1 rw- anon 0",
    b"mmap 1 0 1 rw- anon 0 0",
    b"mmap 1 0 1 rw- anon fixed noreplace",
    b"mmap 1 0 1 rw- private",
    b"mmap 1 0 1 rw- private 0",
    b"mmap 1 0 1 rw- private 0 0 0",
    b"mmap 1 0 1 rw- private fixed 0 0",
    b"mmap 1 0 1 rw- private 0 18446744073709551616",
    b"mmap 1 0 1 rw- anon shared 0 0",
    b"mmap 1 0 1 rw- common 0",
    b"mmap 1 0 1 rw- common 0 0",
    b"mmap 1 0 1 rw- common twice",
    b"mmap 1 0 1 rw- commons",
    b"truncate",
    b"truncate 0",
    b"truncate 0 ",
    b"truncate 0  1",
    b"truncate 0 -1",
    b"truncate 0 18446744073709551616",
    b"truncate 0 4096 4096",
    b"munmap 1 0x10000",
    b"munmap 1 0x10000 4096 4096",
    b"munmap 1 0x10000 4096 fixed",
    b"dontneed 1 0x10000",
    b"dontneed 1 0x10000 4096 1",
    b"mprotect 1 0x10000 4096",
    b"mprotect 1 0x10000 4096 rw",
    b"mprotect 1 0x10000 4096 rw- rw-",
    b"mprotect 1 0x10000 0x r--",
    b"faults ",
    b"faults 1",
];

/// A line has at most 256 bytes.
#[test]
fn other_lines_are_bad(rt: HostRuntime) {
    for line in BAD_LINES {
        expect(&rt, line, Err(BadLine));
    }
    let mut line = [b'0'; 257];
    line[..9].copy_from_slice(b"load 1 0x");
    line[249..256].copy_from_slice(b"10000 1");
    let (pid, addr, width) = (1, 0x10000, Width::One);
    expect(&rt, &line[..256], Ok(Command::Load { pid, addr, width }));
    line[249..].copy_from_slice(b"010000 1");
    expect(&rt, &line, Err(BadLine));
}
