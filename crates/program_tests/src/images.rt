//! Images that are made, and what is in the way of one.
use disk_model::SimDisk;
use file_store::{FileSource, FormatFault, format};
use std::fs;
use std::test::Fail;
use test_steps::FileStep::{
    FillAt, Has, HasAt, IsFilledAt, IsLong, IsMissing, SetLength, Write, WriteAt,
};
use test_steps::Program::Format;
use test_steps::Step::{self, Does, Fails, File, Files, Removes, Shows};
use test_steps::{TwoFiles, UNMADE, carry_out, carry_out_all, carry_out_for_each};

/// One image, of one byte.
const ONE_BYTE: &[&str] = &["new", "@image", "zero:1"];

/// A file of a byte, another of two pages, an empty one, and a file of a byte: each begins on a page of its own.
const FOUR_FILES: &[&str] = &["new", "@image", "zero:1", "zero:0x1001", "zero:0", "zero:1"];

/// Which images are made.
const MADE: [(&str, &[Step<'static>]); 3] = [
    (
        "lengths",
        &[
            Does(Format, &["new", "@image", "zero:0"], b"", b""),
            File("@image", IsLong(4_195_840)),
            Removes(&["@image"]),
            Does(Format, ONE_BYTE, b"", b""),
            File("@image", IsLong(4_199_936)),
            Removes(&["@image"]),
            Does(Format, &["new", "@image", "zero:4096"], b"", b""),
            File("@image", IsLong(4_199_936)),
            Removes(&["@image"]),
            Does(Format, &["new", "@image", "zero:5000"], b"", b""),
            File("@image", IsLong(4_204_032)),
            Removes(&["@image"]),
            Does(Format, FOUR_FILES, b"", b""),
            File("@image", IsLong(4_212_224)),
            Removes(&["@image"]),
        ],
    ),
    // The directory names the files in their order.
    (
        "directory",
        &[
            File("@host", Write(b"")),
            File("@host", FillAt(0, b"A", 4096)),
            Does(
                Format,
                &["new", "@image", "zero:5000", "ro:@host"],
                b"",
                b"",
            ),
            File("@image", IsLong(4_204_032 + 4096)),
            File("@image", IsFilledAt(0, b"FAMSYNC2", 64)),
            File(
                "@image",
                HasAt(
                    512,
                    b"\x00\x00\x00\x80\x88\x13\x00\x00\x02\x00\x00\xc0\x00\x10\x00\x00",
                ),
            ),
            // The rest of the directory, and the gate.
            File("@image", IsFilledAt(528, b"\0", 512 + 496)),
            File("@image", IsFilledAt(4_195_840, b"\0", 8192)),
            File("@image", IsFilledAt(4_204_032, b"A", 4096)),
            Removes(&["@image", "@host"]),
        ],
    ),
    (
        "twice",
        &[
            Does(Format, ONE_BYTE, b"", b""),
            Files(TwoFiles::Copy, "@image", "@before"),
            Fails(Format, ONE_BYTE, "pagefmt: format 3 FORMATTED\n"),
            Fails(
                Format,
                &["new", "@image", "zero:8192"],
                "pagefmt: format 3 FORMATTED\n",
            ),
            Files(TwoFiles::Alike, "@image", "@before"),
            Removes(&["@image", "@before"]),
        ],
    ),
];

/// What is in the way of an image stays.
const IN_THE_WAY: [(&str, &[Step<'static>]); 3] = [
    (
        "link",
        &[
            Fails(
                Format,
                &["new", "/tmp", "zero:1"],
                "pagefmt: cannot open /tmp\n",
            ),
            Fails(
                Format,
                &["new", "/tmp/none/none", "zero:1"],
                "pagefmt: cannot open /tmp/none/none\n",
            ),
            // A link to a file that is missing serves.
            Files(TwoFiles::Link, "@image", "@to"),
            Does(Format, ONE_BYTE, b"", b""),
            File("@to", IsFilledAt(0, b"FAMSYNC2", 64)),
            Shows(&["@image", "0"], &[(b"\0", 1)]),
            Removes(&["@image", "@to"]),
        ],
    ),
    // Host files are opened at their specs.
    (
        "unmade",
        &[
            // A host file of 2^32 bytes is longer than a file of an image may be.
            File("@large", SetLength(4_294_967_296)),
            Fails(
                Format,
                &["new", "@image", "rw:@large"],
                "pagefmt: bad spec rw:@large\n",
            ),
            Fails(
                Format,
                &["new", "@image", "rw:/tmp/none/none"],
                "pagefmt: cannot open /tmp/none/none\n",
            ),
            Fails(
                Format,
                &["new", "@image", "zero:1", "ro:/tmp/none/none", "bad"],
                "pagefmt: cannot open /tmp/none/none\n",
            ),
            Fails(
                Format,
                &["new", "@image", "bad", "ro:/tmp/none/none"],
                "pagefmt: bad spec bad\n",
            ),
            Fails(
                Format,
                &["new", "@image", "ro:/tmp"],
                "pagefmt: cannot open /tmp\n",
            ),
            Fails(Format, &["new", "@image", "rw:"], "pagefmt: cannot open \n"),
            File("@image", IsMissing),
            Removes(&["@large"]),
        ],
    ),
    // The mark alone tells an image, however short the file is.
    (
        "marked",
        &[
            Does(Format, ONE_BYTE, b"", b""),
            File("@image", SetLength(512)),
            Fails(Format, ONE_BYTE, "pagefmt: format 3 FORMATTED\n"),
            File("@image", IsLong(512)),
            // One byte less of it does not, and the other mark's byte there is no mark either.
            File("@image", WriteAt(511, b"1")),
            Does(Format, ONE_BYTE, b"", b""),
            Removes(&["@image"]),
        ],
    ),
];

/// 64 files, and one more.
#[test]
fn a_store_has_at_most_64_files(rt: HostRuntime) -> Result<(), Fail> {
    let mut words = ["zero:0"; 2 + 65];
    words[0] = "new";
    words[1] = "@image";
    let mut in_a_folder = ["zero:0"; 2 + 65];
    in_a_folder[0] = "new";
    in_a_folder[1] = "/tmp";
    carry_out(
        &rt,
        "many",
        &[
            Fails(Format, &in_a_folder, "pagefmt: cannot open /tmp\n"),
            Fails(Format, &words, "pagefmt: format 2 TOOLARGE\n"),
            File("@image", IsMissing),
            // What was made through a link is unmade, and the link stays.
            Files(TwoFiles::Link, "@image", "@to"),
            Fails(Format, &words, "pagefmt: format 2 TOOLARGE\n"),
            File("@to", IsMissing),
            Removes(&["@image"]),
            File("@image", Write(b"other")),
            Fails(Format, &words, "pagefmt: format 2 TOOLARGE\n"),
            File("@image", Has(b"other")),
            Removes(&["@image"]),
            Does(Format, &words[..2 + 64], b"", b""),
            Removes(&["@image"]),
        ],
    )
}

/// Specs that have none of the forms, or whose number is none or is 2^32 or more.
const BAD_SPECS: [&str; 20] = [
    "zero",
    "zero:",
    "zero:0x",
    "zero:0X10",
    "zero:+1",
    "zero:-1",
    "zero: 1",
    "zero:1 ",
    "zero:1x",
    "zero:4294967296",
    "zero:0x100000000",
    "zero:18446744073709551616",
    "Zero:1",
    "one:1",
    "rw",
    "ro",
    "wr:/dev/null",
    "RO:/dev/null",
    "/dev/null",
    "",
];

/// No image is made, though the spec before is good. Here `@` is the spec.
const IS_A_BAD_SPEC: [Step<'static>; 2] = [
    Fails(
        Format,
        &["new", UNMADE, "zero:1", "@", "worse"],
        "pagefmt: bad spec @\n",
    ),
    File(UNMADE, IsMissing),
];

#[test]
fn images_are_made_where_specs_and_paths_serve(rt: HostRuntime) -> Result<(), Fail> {
    carry_out_all(&rt, &MADE)?;
    carry_out_all(&rt, &IN_THE_WAY)?;
    carry_out_for_each(&rt, &BAD_SPECS, &IS_A_BAD_SPEC)
}

/// A file of the kernel that has fewer bytes than it says, as a file that was cut while it was read.
const CUT: &str = "/sys/kernel/mm/transparent_hugepage/enabled";

/// No image is made of it.
const ENDS_EARLY: [Step<'static>; 2] = [
    Fails(
        Format,
        &[
            "new",
            "@image",
            "ro:/sys/kernel/mm/transparent_hugepage/enabled",
        ],
        "pagefmt: format 4 SOURCE\n",
    ),
    // Nothing was written to it yet.
    File("@image", IsMissing),
];

#[test]
fn a_source_that_ends_early_is_a_fault(rt: HostRuntime) -> Result<(), Fail> {
    let mut disk = SimDisk::new(rt.alloc(), 8195 + 16)?;
    let mut sources: [FileSource<&[u8]>; 1] = [FileSource {
        read_only: false,
        length: 5001,
        bytes: Some(&[b'A'; 5000]),
    }];
    if format(&mut disk, &mut sources) != Err(FormatFault::Source) {
        return Err(Fail::new("no fault of the source"));
    }
    match fs::metadata(&rt, CUT) {
        Ok(metadata) if metadata.len() == 4096 => carry_out(&rt, "source", &ENDS_EARLY),
        // This system has no such file.
        _ => Ok(()),
    }
}
