//! Traces that are run on images in files, and files of an image that are written out.
use disk_model::SimDisk;
use file_store::{FileSource, format};
use programs::{ShowFault, show};
use std::test::Fail;
use test_steps::FileStep::{FillAt, IsFilledAt, IsLong, SetLength, Write, WriteAt};
use test_steps::Program::{Cat, Format, Run};
use test_steps::Step::{self, Does, Fails, File, Files, Removes, Shows};
use test_steps::{NEW, TwoFiles, carry_out_all, same};

/// The words that run a trace.
const RUN: &[&str] = &["@image", "@swap"];

/// The words that write the first file out.
const FIRST: &[&str] = &["@image", "0"];

/// Runs, each on a new image.
const RUNS: [(&str, &[Step<'static>]); 7] = [
    (
        "empty",
        &[
            NEW,
            Files(TwoFiles::Copy, "@image", "@before"),
            Does(Run, RUN, b"", b""),
            Files(TwoFiles::Alike, "@image", "@before"),
            File("@swap", IsLong(65_536)),
            Removes(&["@image", "@swap", "@before"]),
        ],
    ),
    // A byte outlives a run.
    (
        "outlives",
        &[
            NEW,
            Does(
                Run,
                RUN,
                b"spawn\nmmap 1 0 4096 rw- shared 0 0\nstore 1 0x10000 1 0x5a\nmsync 1 0x10000 4096 sync\n\
load 1 0x10000 1\n",
                b"pid 1\naddr 0x10000\nok\nok\nvalue 0x5a\n",
            ),
            Does(
                Run,
                &["@image", "@swap", "8", "0x0"],
                b"spawn\nmmap 1 0 4096 r-- shared 0 0\nload 1 0x10000 1\n",
                b"pid 1\naddr 0x10000\nvalue 0x5a\n",
            ),
            Shows(FIRST, &[(b"\x5a", 1), (b"\0", 4095)]),
            Removes(&["@image", "@swap"]),
        ],
    ),
    // In four levels there are more user pages than in three, which is what a machine has that is told nothing.
    (
        "modes",
        &[
            NEW,
            Does(
                Run,
                &["@image", "@swap", "8", "16", "sv48"],
                b"spawn\nmmap 1 0x7ffffffff000 4096 rw- shared 0 0 fixed\nstore 1 0x7ffffffff000 1 9\n\
msync 1 0x7ffffffff000 4096 sync\nload 1 0x800000000000 1\n",
                b"pid 1\naddr 0x7ffffffff000\nok\nok\nfault 13 SEGV_MAPERR 0x800000000000\n",
            ),
            Does(
                Run,
                &["@image", "@swap", "8", "16", "sv39"],
                b"spawn\nmmap 1 0x7ffffffff000 4096 rw- anon fixed\nmmap 1 0 4096 r-- shared 0 0\nload 1 0x10000 1\n",
                b"pid 1\nerror 12 ENOMEM\naddr 0x10000\nvalue 0x09\n",
            ),
            Does(
                Run,
                &["@image", "@swap", "8", "16"],
                b"spawn\nmmap 1 0x7ffffffff000 4096 rw- anon fixed\n",
                b"pid 1\nerror 12 ENOMEM\n",
            ),
            Removes(&["@image", "@swap"]),
        ],
    ),
    // A file that may only be read is not mapped for stores.
    (
        "read-only",
        &[
            File("@host", Write(b"")),
            File("@host", FillAt(0, b"A", 4096)),
            Does(Format, &["new", "@image", "ro:@host"], b"", b""),
            Does(
                Run,
                RUN,
                b"spawn\nmmap 1 0 4096 rw- shared 0 0\nmmap 1 0 4096 rw- shared 9 0\nmmap 1 0 4096 r-- shared 0 1\n\
mmap 1 0 4096 r-- shared 0 0x100000000000\nmmap 1 0 4096 r-- shared 0 0\nload 1 0x10000 1\nstore 1 0x10000 1 1\n",
                b"pid 1\nerror 13 EACCES\nerror 9 EBADF\nerror 22 EINVAL\nerror 75 EOVERFLOW\naddr 0x10000\n\
value 0x41\nfault 15 SEGV_ACCERR 0x10000\n",
            ),
            // Each check has its error.
            Does(
                Run,
                RUN,
                b"spawn\nmmap 1 0 0 rw- anon\nmmap 1 0 4096 rw- shared 0 0\nmmap 1 0 4096 rw- shared 9 0\n\
mmap 1 0 4096 r-- shared 0 1\nmmap 1 0x1000 4096 rw- anon fixed\nmmap 1 0x20001 4096 rw- anon fixed\n\
mmap 1 0 4096 r-- shared 0 0x100000000000\nmmap 1 0 4096 r-- shared 0 0\nload 1 0x10000 1\n\
mprotect 1 0x10000 4096 rw-\nmunmap 1 0x50000 4096\nfork 9\n",
                b"pid 1\nerror 22 EINVAL\nerror 13 EACCES\nerror 9 EBADF\nerror 22 EINVAL\nerror 12 ENOMEM\nerror 22 EINVAL\n\
error 75 EOVERFLOW\naddr 0x10000\nvalue 0x41\nerror 13 EACCES\nok\nerror 3 ESRCH\n",
            ),
            Removes(&["@image", "@swap", "@host"]),
        ],
    ),
    // Several files of any length.
    (
        "several",
        &[
            Does(
                Format,
                &["new", "@image", "zero:5000", "zero:4096"],
                b"",
                b"",
            ),
            Does(
                Run,
                RUN,
                b"spawn\nmmap 1 0 12288 rw- shared 0 0\nmmap 1 0 4096 rw- shared 1 0\nstore 1 0x11387 1 0xaa\n\
store 1 0x11388 1 0xbb\nstore 1 0x13000 1 0xcc\nmsync 1 0x10000 0x4000 sync\nload 1 0x11387 1\n",
                b"pid 1\naddr 0x10000\naddr 0x13000\nok\nok\nok\nok\nvalue 0xaa\n",
            ),
            Shows(FIRST, &[(b"\0", 4999), (b"\xaa", 1)]),
            Shows(&["@image", "1"], &[(b"\xcc", 1), (b"\0", 4095)]),
            Removes(&["@image", "@swap"]),
        ],
    ),
    // What lies past the end of a file is not kept.
    (
        "tail",
        &[
            Does(Format, &["new", "@image", "zero:5000"], b"", b""),
            Does(
                Run,
                RUN,
                b"spawn\nmmap 1 0 12288 rw- shared 0 0\nstore 1 0x11387 1 0xaa\nload 1 0x11388 1\nstore 1 0x11388 1 0xbb\n\
load 1 0x11388 1\nload 1 0x12000 1\nmsync 1 0x10000 12288 sync\nload 1 0x11388 1\nload 1 0x11387 1\n",
                b"pid 1\naddr 0x10000\nok\nvalue 0x00\nok\nvalue 0xbb\nfault 13 BUS_ADRERR 0x12000\nok\nvalue 0x00\nvalue 0xaa\n",
            ),
            Shows(FIRST, &[(b"\0", 4999), (b"\xaa", 1)]),
            Removes(&["@image", "@swap"]),
        ],
    ),
    // Images that boot refuses, and nothing shows.
    (
        "cut",
        &[
            NEW,
            // Its home page is one sector short.
            File("@image", SetLength(4_199_936 - 512)),
            Fails(Run, RUN, "pagerun: boot 5 BADLAYOUT\n"),
            Fails(Cat, FIRST, "pagecat: open 2 BADLAYOUT\n"),
            // Even without a file an image has 8,195 sectors, and 8,194 are too few.
            File("@image", FillAt(512, b"\0", 512)),
            File("@image", SetLength(512 * 8195)),
            Does(Run, RUN, b"spawn\n", b"pid 1\n"),
            File("@image", SetLength(512 * 8194)),
            Fails(Run, RUN, "pagerun: boot 5 BADLAYOUT\n"),
            Fails(Cat, FIRST, "pagecat: open 2 BADLAYOUT\n"),
            // Numbers of frames and of slots are looked at before the layout, and so is whether SWAP can be opened.
            File("@image", Write(b"short")),
            Fails(Run, RUN, "pagerun: boot 5 BADLAYOUT\n"),
            Fails(Cat, FIRST, "pagecat: open 2 BADLAYOUT\n"),
            Fails(
                Run,
                &["@image", "@swap", "7", "16"],
                "pagerun: boot 1 FRAMES\n",
            ),
            Fails(
                Run,
                &["@image", "@swap", "8", "65537"],
                "pagerun: boot 2 SLOTS\n",
            ),
            Fails(
                Run,
                &["@image", "/tmp/none/none"],
                "pagerun: cannot open /tmp/none/none\n",
            ),
            Removes(&["@image", "@swap"]),
        ],
    ),
];

/// Files that are written out.
const SHOWN: [(&str, &[Step<'static>]); 4] = [
    // A file is cut at its length.
    (
        "shown",
        &[
            Does(Format, &["new", "@image", "zero:5000"], b"", b""),
            // Byte 4,999 of the file, and a byte behind its end.
            File("@image", WriteAt(4_195_840 + 4999, b"\xaa\xbb")),
            Shows(FIRST, &[(b"\0", 4999), (b"\xaa", 1)]),
            Removes(&["@image"]),
        ],
    ),
    // Files are told apart: two pages that differ, and a byte.
    (
        "apart",
        &[
            File("@host", Write(b"")),
            File("@host", FillAt(0, b"abcdefgh", 1024)),
            File("@host", WriteAt(4096, b"2")),
            File("@host", WriteAt(8192, b"z")),
            Does(
                Format,
                &["new", "@image", "zero:3", "rw:@host", "zero:0", "ro:@host"],
                b"",
                b"",
            ),
            Shows(FIRST, &[(b"\0", 3)]),
            Shows(
                &["@image", "1"],
                &[
                    (b"abcdefgh", 512),
                    (b"2bcdefgh", 1),
                    (b"abcdefgh", 511),
                    (b"z", 1),
                ],
            ),
            Shows(&["@image", "0x2"], &[]),
            Shows(
                &["@image", "03"],
                &[
                    (b"abcdefgh", 512),
                    (b"2bcdefgh", 1),
                    (b"abcdefgh", 511),
                    (b"z", 1),
                ],
            ),
            Fails(Cat, &["@image", "7"], "pagecat: no file 7\n"),
            Fails(Cat, &["@image", "0x40"], "pagecat: no file 64\n"),
            Fails(Cat, &["@image", "256"], "pagecat: no file 256\n"),
            Fails(
                Cat,
                &["@image", "4294967295"],
                "pagecat: no file 4294967295\n",
            ),
            Removes(&["@image", "@host"]),
        ],
    ),
    // An open gate over a map of 1,024 pages.
    (
        "journal",
        &[
            NEW,
            File("@image", FillAt(1024, b"GATEOPEN", 64)),
            File("@image", WriteAt(1536, b"\0\x04\0\0")),
            Files(TwoFiles::Copy, "@image", "@before"),
            Fails(Run, RUN, "pagerun: boot 6 BADJOURNAL\n"),
            Fails(Cat, FIRST, "pagecat: open 3 BADJOURNAL\n"),
            Files(TwoFiles::Alike, "@image", "@before"),
            Removes(&["@image", "@swap", "@before"]),
        ],
    ),
    // The journal is of one page, whose home is page 0; then its bytes are those of file 0, the gate is closed, and the page is home.
    (
        "open",
        &[
            NEW,
            File("@image", FillAt(1024, b"GATEOPEN", 64)),
            File("@image", WriteAt(1536, b"\x01\0\0\0\0\0\0\0")),
            File("@image", FillAt(11 * 512, b"\x5a", 4096)),
            Shows(FIRST, &[(b"\x5a", 4096)]),
            File("@image", IsFilledAt(1024, b"\0", 512)),
            File("@image", IsFilledAt(4_195_840, b"\x5a", 4096)),
            File("@image", IsLong(4_199_936)),
            Removes(&["@image"]),
        ],
    ),
];

#[test]
fn traces_are_run_on_images_and_files_written_out(rt: HostRuntime) -> Result<(), Fail> {
    carry_out_all(&rt, &RUNS)?;
    carry_out_all(&rt, &SHOWN)
}

#[test]
fn a_device_is_handed_back(rt: HostRuntime) -> Result<(), Fail> {
    let mut disk = SimDisk::new(rt.alloc(), 8195 + 8)?;
    let mut sources: [FileSource<&[u8]>; 1] = [FileSource {
        read_only: false,
        length: 3,
        bytes: Some(b"abc"),
    }];
    format(&mut disk, &mut sources)?;
    let mut output = Vec::new(rt.alloc());
    let Err((fault, disk)) = show(rt.alloc(), disk, 1, &mut output) else {
        return Err(Fail::new("there is no file 1"));
    };
    if fault != ShowFault::NoFile || !output.is_empty() {
        return Err(Fail::new("another fault, or bytes"));
    }
    let Ok(_) = show(rt.alloc(), disk, 0, &mut output) else {
        return Err(Fail::new("file 0 was not shown"));
    };
    same("file 0", output.as_slice(), b"abc")
}
