//! Devices that fail while a trace runs, and how the programs tell why they gave up.
use file_store::UpgradeFault;
use machine::BootFault;
use programs::{ProgramFault, report};
use std::fs::OpenOptions;
use std::io::{self, Read};
use std::test::Fail;
use test_steps::FileStep::{IsLong, IsMissing};
use test_steps::Program::{Cat, Format, Run};
use test_steps::Step::{self, Does, Fails, File, Removes};
use test_steps::{NEW, ProgramCall, carry_out, path, ran_over, same, same_number};

/// Gives some lines, cuts a file before it is read again, so that the device in it fails from there on, and gives the other lines.
#[derive(Drop)]
struct CuttingReader<'a> {
    rt: &'a HostRuntime,
    path: &'a str,
    cut: Option<u64>,
    before: &'a [u8],
    after: &'a [u8],
}

impl Read for CuttingReader<'_> {
    fn read(&mut self, buf: &mut [u8]) -> io::Result<usize> {
        if !self.before.is_empty() {
            return self.before.read(buf);
        }
        if let Some(length) = self.cut {
            let file = OpenOptions::new().write(true).open(self.rt, self.path)?;
            file.set_len(length)?;
            self.cut = None;
        }
        self.after.read(buf)
    }
}

/// A trace in the middle of which a file is cut.
#[derive(Clone, Copy)]
struct Cut {
    words: &'static [&'static str],
    before: &'static [u8],
    file: &'static str,
    length: u64,
    after: &'static [u8],
    replies: &'static [u8],
    status: u8,
}

/// An image of two pages.
const TWO_PAGES: Step<'static> = Does(Format, &["new", "@image", "zero:8192"], b"", b"");

const CUTS: [Cut; 3] = [
    // The second page is gone: its access stalls, and the machine goes on.
    Cut {
        words: &["@image", "@swap"],
        before: b"spawn\nmmap 1 0 8192 rw- shared 0 0\nload 1 0x10000 1\n",
        file: "@image",
        length: 4_199_936,
        after: b"load 1 0x11000 1\nload 1 0x10000 1\n",
        replies: b"pid 1\naddr 0x10000\nvalue 0x00\nstall 4 STOREDEV\nvalue 0x00\n",
        status: 0,
    },
    // Five pages in four frames: the one in a slot is gone. A frame is free for it, so that none is written to swap first.
    Cut {
        words: &["@image", "@swap", "8", "16"],
        before: b"spawn\nmmap 1 0 0x5000 rw- anon\nstore 1 0x10000 1 1\nstore 1 0x11000 1 2\nstore 1 0x12000 1 3\n\
store 1 0x13000 1 4\nstore 1 0x14000 1 5\nmunmap 1 0x14000 4096\n",
        file: "@swap",
        length: 0,
        after: b"load 1 0x10000 1\nload 1 0x11000 1\n",
        replies: b"pid 1\naddr 0x10000\nok\nok\nok\nok\nok\nok\nstall 3 SWAPDEV\nvalue 0x02\n",
        status: 0,
    },
    // The body of the live journal is gone, which the next msync has to write home: the machine halts.
    Cut {
        words: &["@image", "@swap"],
        before: b"spawn\nmmap 1 0 4096 rw- shared 0 0\nstore 1 0x10000 1 1\nmsync 1 0x10000 4096 sync\n",
        file: "@image",
        length: 11 * 512,
        after: b"store 1 0x10000 1 2\nmsync 1 0x10000 4096 sync\nload 1 0x10000 1\nfork\n",
        replies: b"pid 1\naddr 0x10000\nok\nok\nok\nerror 5 EIO\nhalted\nbad line\n",
        status: 3,
    },
];

fn expect_cut(rt: &HostRuntime, cut: &Cut) -> Result<(), Fail> {
    let path = path(rt, "cuts", cut.file)?;
    let mut reader = CuttingReader {
        rt,
        path: path.as_str(),
        cut: Some(cut.length),
        before: cut.before,
        after: cut.after,
    };
    let mut output = Vec::new(rt.alloc());
    let call = ProgramCall {
        program: Run,
        words: cut.words,
    };
    let (status, errors) = ran_over(rt, "cuts", call, &mut reader, &mut output)?;
    same("standard error", errors.as_slice(), b"")?;
    same("replies", output.as_slice(), cut.replies)?;
    same_number("exit status", status.into(), cut.status.into())
}

#[test]
fn failing_devices_have_their_replies(rt: HostRuntime) -> Result<(), Fail> {
    for cut in &CUTS {
        carry_out(&rt, "cuts", &[TWO_PAGES])?;
        expect_cut(&rt, cut)?;
        carry_out(&rt, "cuts", &[Removes(&["@image", "@swap"])])?;
    }
    Ok(())
}

/// A file of the kernel that has no bytes, may be written and can't be synced: the first call of a device in it fails.
pub(crate) const UNSYNCED: &str = "/proc/self/comm";

/// Both files are opened first, in the order of the words, then the sizes are looked at, and then an image, which has to be
/// synced for that. A SWAP that can't be synced is not opened.
const FAILS_AT_FIRST: [Step<'static>; 14] = [
    Fails(
        Format,
        &["new", UNSYNCED, "zero:1"],
        "pagefmt: format 2 TOOLARGE\n",
    ),
    Fails(Cat, &[UNSYNCED, "0"], "pagecat: open 1 DEVICE\n"),
    Fails(
        Run,
        &[UNSYNCED, "/tmp/none/none", "7", "16"],
        "pagerun: cannot open /tmp/none/none\n",
    ),
    Fails(
        Run,
        &[UNSYNCED, "@swap", "7", "65537"],
        "pagerun: boot 1 FRAMES\n",
    ),
    Fails(
        Run,
        &[UNSYNCED, "@swap", "8", "65537"],
        "pagerun: boot 2 SLOTS\n",
    ),
    Fails(Run, &[UNSYNCED, "@swap"], "pagerun: boot 4 DEVICE\n"),
    File("@swap", IsLong(65_536)),
    Fails(
        Format,
        &["upgrade", UNSYNCED, "/tmp"],
        "pagefmt: cannot open /tmp\n",
    ),
    Fails(
        Format,
        &["upgrade", UNSYNCED, "@image"],
        "pagefmt: upgrade 1 OLDDEVICE\n",
    ),
    File("@image", IsMissing),
    NEW,
    Fails(
        Format,
        &["upgrade", "@image", UNSYNCED],
        "pagefmt: upgrade 2 OLDLAYOUT\n",
    ),
    Fails(
        Run,
        &["@image", UNSYNCED, "64", "0"],
        "pagerun: cannot open /proc/self/comm\n",
    ),
    Removes(&["@image", "@swap"]),
];

#[test]
fn an_image_that_cannot_be_synced_is_the_fault_of_the_device(rt: HostRuntime) -> Result<(), Fail> {
    // Another system may have no such file.
    if has_unsynced(&rt) {
        carry_out(&rt, "unsynced", &FAILS_AT_FIRST)?;
    }
    Ok(())
}

/// Whether that file is there, may be written, and can't be synced.
pub(crate) fn has_unsynced(rt: &HostRuntime) -> bool {
    let opened = OpenOptions::new().read(true).write(true).open(rt, UNSYNCED);
    match opened {
        Ok(file) => file.sync_all().is_err(),
        Err(_) => false,
    }
}

/// Why no machine starts, as it is told.
const BOOT_FAULTS: [(BootFault, &[u8]); 6] = [
    (BootFault::Frames, b"pagerun: boot 1 FRAMES\n"),
    (BootFault::Slots, b"pagerun: boot 2 SLOTS\n"),
    (BootFault::OutOfMemory, b"pagerun: boot 3 OUTOFMEMORY\n"),
    (BootFault::Device, b"pagerun: boot 4 DEVICE\n"),
    (BootFault::BadLayout, b"pagerun: boot 5 BADLAYOUT\n"),
    (BootFault::BadJournal, b"pagerun: boot 6 BADJOURNAL\n"),
];

/// Why no image is upgraded.
const UPGRADE_FAULTS: [(UpgradeFault, &[u8]); 6] = [
    (UpgradeFault::OldDevice, b"pagefmt: upgrade 1 OLDDEVICE\n"),
    (UpgradeFault::OldLayout, b"pagefmt: upgrade 2 OLDLAYOUT\n"),
    (UpgradeFault::OldJournal, b"pagefmt: upgrade 3 OLDJOURNAL\n"),
    (UpgradeFault::NewDevice, b"pagefmt: upgrade 4 NEWDEVICE\n"),
    (UpgradeFault::NewSmall, b"pagefmt: upgrade 5 NEWSMALL\n"),
    (UpgradeFault::Formatted, b"pagefmt: upgrade 6 FORMATTED\n"),
];

fn expect_told(
    rt: &HostRuntime,
    program: &str,
    fault: ProgramFault<'_>,
    told: &[u8],
) -> Result<(), Fail> {
    let mut errors = Vec::new(rt.alloc());
    let status = report(program, Err(fault), &mut errors);
    same("standard error", errors.as_slice(), told)?;
    same_number("exit status", status.into(), 1)
}

#[test]
fn a_failed_start_and_a_refused_upgrade_are_told(rt: HostRuntime) -> Result<(), Fail> {
    for (fault, told) in BOOT_FAULTS {
        expect_told(&rt, "pagerun", ProgramFault::Boot(fault), told)?;
    }
    for (fault, told) in UPGRADE_FAULTS {
        expect_told(&rt, "pagefmt", ProgramFault::Upgrade(fault), told)?;
    }
    let no_memory = ProgramFault::OutOfMemory;
    expect_told(&rt, "pagerun", no_memory, b"pagerun: out of memory\n")
}
