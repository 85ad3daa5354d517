//! Images of layout 3, whose gate names one of two journals: none is made or opened, and of them an upgrade makes images of layout 4.
use std::test::Fail;
use test_steps::FileStep::{FillAt, HasAt, IsLong, IsMissing, SetLength, Write, WriteAt};
use test_steps::Program::{Cat, Format, Look, Run};
use test_steps::Step::{self, Does, Fails, File, Files, Removes, Shows};
use test_steps::{TwoFiles, carry_out};

/// The directory of a writable file of two pages.
const TWO_PAGES: &[u8] = b"\x00\x00\x00\x80\x00\x20\x00\x00";

/// An image with one file, of two pages, whose gate names the second journal. That has the second page, 5b, so the first stands in its home, 5a. The
/// first journal has both, 71, and is not looked at.
const IMAGE: [Step<'static>; 12] = [
    File("@old", Write(b"")),
    File("@old", SetLength(512 * (16_408 + 16))),
    File("@old", FillAt(0, b"FAMSYNC3", 128)),
    File("@old", WriteAt(512 * 9, TWO_PAGES)),
    File("@old", FillAt(512 * 16, b"GATEOPEN", 64)),
    File("@old", WriteAt(512 * 24, b"\x02\0\0\0\x00\0\0\0\x01\0\0\0")),
    File("@old", FillAt(512 * 32, b"\x71", 8192)),
    File("@old", WriteAt(512 * 8216, b"\x01\0\0\0\x01\0\0\0")),
    File("@old", FillAt(512 * 8224, b"\x5b", 4096)),
    File("@old", FillAt(512 * 16_408, b"\x5a", 4096)),
    File("@old", FillAt(512 * 16_416, b"\x61", 4096)),
    Files(TwoFiles::Copy, "@old", "@before"),
];

/// The words that make an image of layout 4 of it.
const UPGRADE: &[&str] = &["upgrade4", "--pool", "1009", "@old", "@new"];

/// What is done with the image, each time with one that is made anew.
const TESTS: [(&str, &[Step<'static>]); 4] = [
    // No program opens it, and none makes another image over it.
    (
        "third_refused",
        &[
            Fails(Run, &["@old", "@swap"], "pagerun: boot 5 BADLAYOUT\n"),
            Fails(Look, &["@old", "@swap"], "pagelook: boot 5 BADLAYOUT\n"),
            Fails(Cat, &["@old", "0"], "pagecat: open 2 BADLAYOUT\n"),
            Fails(
                Format,
                &["new", "@old", "zero:1"],
                "pagefmt: format 3 FORMATTED\n",
            ),
            Fails(
                Format,
                &["new4", "@old", "zero:1"],
                "pagefmt: format 3 FORMATTED\n",
            ),
            Fails(
                Format,
                &["upgrade", "@old", "@new"],
                "pagefmt: upgrade 2 OLDLAYOUT\n",
            ),
            File("@new", IsMissing),
            Files(TwoFiles::Alike, "@old", "@before"),
            Removes(&["@old", "@before", "@swap"]),
        ],
    ),
    // As many homes as layout 2 would have on its 16,424 sectors.
    (
        "third_upgraded",
        &[
            Does(Format, UPGRADE, b"", b""),
            Files(TwoFiles::Alike, "@old", "@before"),
            File("@new", IsLong(512 * (48 + 8080 * 2 + 8 * 1028))),
            File("@new", HasAt(520, b"\x02\0\0\0\x04\0\0\0")),
            Shows(&["@new", "0"], &[(b"\x5a", 4096), (b"\x5b", 4096)]),
            Fails(Format, UPGRADE, "pagefmt: upgrade 6 FORMATTED\n"),
            Shows(&["@new", "0"], &[(b"\x5a", 4096), (b"\x5b", 4096)]),
            Removes(&["@old", "@before", "@new"]),
        ],
    ),
    // Other bytes of the gate name the first journal.
    (
        "third_first_journal",
        &[
            File("@old", FillAt(512 * 16, b"\0", 256)),
            Does(Format, UPGRADE, b"", b""),
            Shows(&["@new", "0"], &[(b"\x71", 8192)]),
            Removes(&["@old", "@before", "@new"]),
        ],
    ),
    // A map of 1,024 pages in the journal that is named, and the mark of layout 2 over this kind.
    (
        "third_bad",
        &[
            File("@old", WriteAt(512 * 8216, b"\0\x04\0\0")),
            Fails(Format, UPGRADE, "pagefmt: upgrade 3 OLDJOURNAL\n"),
            File("@old", FillAt(0, b"FAMSYNC2", 64)),
            Fails(Format, UPGRADE, "pagefmt: upgrade 2 OLDLAYOUT\n"),
            Fails(Cat, &["@old", "0"], "pagecat: open 2 BADLAYOUT\n"),
            File("@new", IsMissing),
            Removes(&["@old", "@before"]),
        ],
    ),
];

#[test]
fn images_of_layout_3_are_upgraded_and_not_opened(rt: HostRuntime) -> Result<(), Fail> {
    for (test, steps) in TESTS {
        carry_out(&rt, test, &IMAGE)?;
        carry_out(&rt, test, steps)?;
    }
    Ok(())
}
