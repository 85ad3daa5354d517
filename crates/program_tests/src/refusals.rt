//! Words that are refused, and files that do not serve.
use std::fs::{self, OpenOptions};
use std::test::Fail;
use test_steps::FileStep::{FillAt, Has, IsLong, IsMissing, SetLength, SetMode, Write, WriteAt};
use test_steps::Program::{Cat, Format, Run, Stops};
use test_steps::Step::{self, Does, Fails, File, Files, Refuses, Removes, Shows};
use test_steps::{NEW, TwoFiles, UNMADE, carry_out, carry_out_all, carry_out_for_each, path};

/// Words that the programs do not take.
const OTHER_WORDS: [Step<'static>; 35] = [
    Refuses(Format, &[]),
    Refuses(Format, &["new"]),
    Refuses(Format, &["new", "/tmp/none"]),
    Refuses(Format, &["old", "/tmp/none", "zero:0"]),
    Refuses(Format, &["--help"]),
    Refuses(Format, &["help"]),
    Refuses(Format, &["new", "--version", "/tmp/none", "zero:0"]),
    Refuses(Run, &[]),
    Refuses(Run, &["/tmp/none"]),
    Refuses(Run, &["/tmp/none", "/tmp/none", "64"]),
    Refuses(Run, &["/tmp/none", "/tmp/none", "64", "4294967296"]),
    Refuses(Run, &["/tmp/none", "/tmp/none", "+64", "16"]),
    Refuses(Run, &["/tmp/none", "/tmp/none", "64", "16", "1"]),
    Refuses(Run, &["/tmp/none", "/tmp/none", "64", "16", "sv57"]),
    Refuses(Run, &["/tmp/none", "/tmp/none", "64", "16", "Sv48"]),
    Refuses(Run, &["/tmp/none", "/tmp/none", "64", "sv48"]),
    Refuses(Run, &["/tmp/none", "/tmp/none", "sv48"]),
    Refuses(Run, &["/tmp/none", "/tmp/none", "64", "16", "sv48", "sv48"]),
    Refuses(Run, &["-h"]),
    Refuses(Cat, &[]),
    Refuses(Cat, &["/tmp/none"]),
    Refuses(Cat, &["/tmp/none", "0", "0"]),
    Refuses(Cat, &["/tmp/none", ""]),
    Refuses(Cat, &["/tmp/none", "0x"]),
    Refuses(Cat, &["/tmp/none", "+1"]),
    Refuses(Cat, &["/tmp/none", "1a"]),
    Refuses(Cat, &["/tmp/none", "4294967296"]),
    Refuses(Cat, &["--help"]),
    Refuses(Stops, &[]),
    Refuses(Stops, &["--every", "0", "zero:1"]),
    Refuses(Stops, &["--every", "zero:1"]),
    Refuses(Stops, &["--frames", "+64", "zero:1"]),
    Refuses(Stops, &["--slots", "4294967296", "zero:1"]),
    Refuses(Stops, &["--layout", "5", "zero:1"]),
    Refuses(Stops, &["--help"]),
];

/// What no program opens as an image, and the image is opened before SWAP is made. Here `@` is its path.
const IS_NO_IMAGE: [Step<'static>; 4] = [
    Fails(Run, &["@", UNMADE], "pagerun: cannot open @\n"),
    Fails(Cat, &["@", "0"], "pagecat: cannot open @\n"),
    Fails(Format, &["new", "@", "zero:0"], "pagefmt: cannot open @\n"),
    File(UNMADE, IsMissing),
];

/// No image is made of what is no regular file.
const IS_NO_SOURCE: [Step<'static>; 3] = [
    Fails(Format, &["new", UNMADE, "rw:@"], "pagefmt: cannot open @\n"),
    Fails(Format, &["new", UNMADE, "ro:@"], "pagefmt: cannot open @\n"),
    File(UNMADE, IsMissing),
];

/// Files in two places, names that stay on one line, and specs and sizes that do not serve.
const PLACES: [(&str, &[Step<'static>]); 4] = [
    (
        "stops",
        &[
            Fails(Stops, &["zero:1", "none:1"], "pagestops: bad spec none:1\n"),
            Fails(
                Stops,
                &["ro:/tmp/none/none"],
                "pagestops: cannot open /tmp/none/none\n",
            ),
            Fails(
                Stops,
                &["--frames", "7", "zero:1"],
                "pagestops: boot 1 FRAMES\n",
            ),
            Fails(
                Stops,
                &["--slots", "65537", "zero:1"],
                "pagestops: boot 2 SLOTS\n",
            ),
        ],
    ),
    // One file does not serve as two.
    (
        "both",
        &[
            NEW,
            Files(TwoFiles::Copy, "@image", "@before"),
            Fails(
                Run,
                &["@image", "@image", "64", "4096"],
                "pagerun: cannot open @image\n",
            ),
            Files(TwoFiles::Alike, "@image", "@before"),
            File("@image", SetLength(5)),
            Fails(
                Format,
                &["new", "@image", "rw:@image"],
                "pagefmt: cannot open @image\n",
            ),
            File("@image", Has(b"FAMSY")),
            Removes(&["@image", "@before"]),
        ],
    ),
    // A host file may be two files of an image.
    (
        "twice-read",
        &[
            File("@host", Write(b"abc")),
            Does(Format, &["new", "@image", "rw:@host", "ro:@host"], b"", b""),
            Shows(&["@image", "0"], &[(b"abc", 1)]),
            Shows(&["@image", "1"], &[(b"abc", 1)]),
            Removes(&["@image", "@host"]),
        ],
    ),
    (
        "line",
        &[
            Fails(
                Run,
                &["/tmp/none\n/no\\ne", "@swap"],
                "pagerun: cannot open /tmp/none\\n/no\\ne\n",
            ),
            Fails(
                Cat,
                &["/tmp/\u{e4}\t\r\u{1b}\u{85}", "0"],
                "pagecat: cannot open /tmp/\u{e4}\\t\\r\\u{1b}\\u{85}\n",
            ),
            Fails(
                Format,
                &["new", "/tmp/none/none", "zero:1\n"],
                "pagefmt: bad spec zero:1\\n\n",
            ),
        ],
    ),
];

#[test]
fn other_words_and_paths_that_do_not_serve_are_refused(rt: HostRuntime) -> Result<(), Fail> {
    carry_out(&rt, "words", &OTHER_WORDS)?;
    let devices = ["/dev/null", "/dev/zero", "/dev/tty"];
    carry_out_for_each(&rt, &devices, &IS_NO_IMAGE)?;
    carry_out_for_each(&rt, &devices, &IS_NO_SOURCE)?;
    carry_out_for_each(&rt, &["/tmp/none/none", "/tmp"], &IS_NO_IMAGE)?;
    carry_out_all(&rt, &PLACES)
}

/// Carries out steps of that test while its file is locked, as by a program that runs.
fn while_in_use(rt: &HostRuntime, test: &str, file: &str, steps: &[Step<'_>]) -> Result<(), Fail> {
    let user = locked(rt, path(rt, test, file)?.as_str())?;
    let seen = carry_out(rt, test, steps);
    drop(user);
    seen
}

fn locked(rt: &HostRuntime, path: &str) -> Result<fs::File, Fail> {
    let file = OpenOptions::new().read(true).write(true).open(rt, path)?;
    match file.try_lock() {
        Ok(()) => Ok(file),
        Err(_) => Err(Fail::new(format_args!("no lock"))),
    }
}

/// No program opens an image in use, nor SWAP.
const IMAGE_IN_USE: [Step<'static>; 3] = [
    Fails(Run, &["@image", "@swap"], "pagerun: cannot open @image\n"),
    Fails(Cat, &["@image", "0"], "pagecat: cannot open @image\n"),
    Fails(
        Format,
        &["new", "@image", "zero:8192"],
        "pagefmt: cannot open @image\n",
    ),
];

const SWAP_IN_USE: [Step<'static>; 1] = [Fails(
    Run,
    &["@image", "@swap"],
    "pagerun: cannot open @swap\n",
)];

const BEFORE_USE: [Step<'static>; 3] = [
    NEW,
    Files(TwoFiles::Copy, "@image", "@before"),
    File("@swap", SetLength(512)),
];

/// The locks are gone with the programs, and the short file of slots is lengthened to sixteen of them.
const AFTER_USE: [Step<'static>; 5] = [
    File("@swap", IsLong(512)),
    Files(TwoFiles::Alike, "@image", "@before"),
    Does(Run, &["@image", "@swap"], b"spawn\n", b"pid 1\n"),
    File("@swap", IsLong(65_536)),
    Removes(&["@image", "@swap", "@before"]),
];

#[test]
fn files_in_use_are_told(rt: HostRuntime) -> Result<(), Fail> {
    carry_out(&rt, "held", &BEFORE_USE)?;
    while_in_use(&rt, "held", "@image", &IMAGE_IN_USE)?;
    while_in_use(&rt, "held", "@swap", &SWAP_IN_USE)?;
    carry_out(&rt, "held", &AFTER_USE)
}

/// What comes of an image that may only be read.
const ONLY_READ: [Step<'static>; 11] = [
    Fails(Run, &["@image", "@swap"], "pagerun: cannot open @image\n"),
    Fails(
        Format,
        &["new", "@image", "zero:4096"],
        "pagefmt: cannot open @image\n",
    ),
    // It is shown as long as its journal is closed, and else stays as it is.
    Shows(&["@image", "0"], &[(b"\0", 4096)]),
    File("@image", SetMode(0o644)),
    File("@image", FillAt(1024, b"GATEOPEN", 64)),
    File("@image", WriteAt(1536, b"\x01\0\0\0\0\0\0\0")),
    File("@image", SetMode(0o444)),
    Files(TwoFiles::Copy, "@image", "@before"),
    Fails(Cat, &["@image", "0"], "pagecat: open 1 DEVICE\n"),
    Files(TwoFiles::Alike, "@image", "@before"),
    Removes(&["@before"]),
];

/// An image whose permissions say that it may only be read.
const KEPT: [Step<'static>; 2] = [NEW, File("@image", SetMode(0o444))];

#[test]
fn an_image_that_may_not_be_written_is_told(rt: HostRuntime) -> Result<(), Fail> {
    carry_out(&rt, "kept", &KEPT)?;
    // Root may write all files, and there is nothing to see.
    if !may_write(&rt, "kept")? {
        carry_out(&rt, "kept", &ONLY_READ)?;
    }
    carry_out(&rt, "kept", &[Removes(&["@image"])])
}

/// Whether the image of that test may be written.
fn may_write(rt: &HostRuntime, test: &str) -> Result<bool, Fail> {
    let image = path(rt, test, "@image")?;
    let opened = OpenOptions::new().write(true).open(rt, image.as_str());
    Ok(opened.is_ok())
}
