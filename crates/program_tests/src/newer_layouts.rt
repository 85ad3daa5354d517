//! Images of layout 1, made anew in layout 2, and images of layout 2, made anew in layout 4.
use crate::devices::{UNSYNCED, has_unsynced};
use std::test::Fail;
use test_steps::FileStep::{
    FillAt, HasAt, IsFilledAt, IsLong, IsMissing, SetLength, Write, WriteAt,
};
use test_steps::Program::{Cat, Format, Run};
use test_steps::Step::{self, Does, Fails, File, Files, Refuses, Removes, Shows};
use test_steps::{NEW, TwoFiles, carry_out, carry_out_all};

/// The words that upgrade the image of these tests.
const UPGRADE: &[&str] = &["upgrade", "@old", "@new"];

/// A writable file of 4,096 bytes.
const ONE_PAGE: &[u8] = b"\x00\x00\x00\x80\x00\x10\x00\x00";

/// An image of layout 1 with one home page: a writable file of 4,096 bytes 61, and an open gate with a map of one page, which is 4,096
/// bytes 5a for home 0.
const OLD: [Step<'static>; 9] = [
    File("@old", Write(b"")),
    File("@old", SetLength(526_336)),
    File("@old", FillAt(0, b"FAMSYNC1", 64)),
    File("@old", WriteAt(512, ONE_PAGE)),
    File("@old", FillAt(1024, b"GATEOPEN", 64)),
    File("@old", WriteAt(1536, b"\x01\0\0\0\0\0\0\0")),
    File("@old", FillAt(2048, b"\x5a", 4096)),
    File("@old", FillAt(522_240, b"\x61", 4096)),
    Files(TwoFiles::Copy, "@old", "@before"),
];

/// What is done with it, each time with one that is made anew, and which is unchanged after all.
const UPGRADES: [(&str, &[Step<'static>]); 4] = [
    // The journal is open, so its page stands, and not the one at home.
    (
        "upgrade",
        &[
            Fails(Cat, &["@old", "0"], "pagecat: open 2 BADLAYOUT\n"),
            Does(Format, UPGRADE, b"", b""),
            File("@new", IsLong(4_199_936)),
            File("@new", IsFilledAt(0, b"FAMSYNC2", 64)),
            File("@new", HasAt(512, ONE_PAGE)),
            File("@new", IsFilledAt(520, b"\0", 504 + 512)),
            Shows(&["@new", "0"], &[(b"\x5a", 4096)]),
            Fails(Format, UPGRADE, "pagefmt: upgrade 6 FORMATTED\n"),
            Shows(&["@new", "0"], &[(b"\x5a", 4096)]),
            Removes(&["@new"]),
        ],
    ),
    // A file that is longer than is needed keeps its length.
    (
        "longer",
        &[
            File("@new", SetLength(5_000_000)),
            Does(Format, UPGRADE, b"", b""),
            File("@new", IsLong(5_000_000)),
            Shows(&["@new", "0"], &[(b"\x5a", 4096)]),
            Removes(&["@new"]),
        ],
    ),
    // The mark of layout 1 in NEW is a mark too.
    (
        "marked",
        &[
            Files(TwoFiles::Copy, "@old", "@new"),
            Fails(Format, UPGRADE, "pagefmt: upgrade 6 FORMATTED\n"),
            Files(TwoFiles::Alike, "@new", "@old"),
            Removes(&["@new"]),
        ],
    ),
    // Both files have to open.
    (
        "opens",
        &[
            Fails(
                Format,
                &["upgrade", "/tmp/none/none", "@new"],
                "pagefmt: cannot open /tmp/none/none\n",
            ),
            File("@new", IsMissing),
            Fails(
                Format,
                &["upgrade", "@old", "/tmp/none/none"],
                "pagefmt: cannot open /tmp/none/none\n",
            ),
            Fails(
                Format,
                &["upgrade", "@old", "@old"],
                "pagefmt: cannot open @old\n",
            ),
            Refuses(Format, &["upgrade"]),
            Refuses(Format, &["upgrade", "@old"]),
            Refuses(Format, &["upgrade", "@old", "@new", "@new"]),
            File("@new", IsMissing),
        ],
    ),
];

/// A NEW that can't be synced is looked at once OLD is found good.
const UNSYNCED_NEW: [Step<'static>; 1] = [Fails(
    Format,
    &["upgrade", "@old", UNSYNCED],
    "pagefmt: upgrade 4 NEWDEVICE\n",
)];

/// The image is as it was.
const UNCHANGED: [Step<'static>; 2] = [
    Files(TwoFiles::Alike, "@old", "@before"),
    Removes(&["@old", "@before"]),
];

#[test]
fn an_upgraded_image_holds_what_the_old_one_stands_for(rt: HostRuntime) -> Result<(), Fail> {
    for (test, steps) in UPGRADES {
        carry_out(&rt, test, &OLD)?;
        carry_out(&rt, test, steps)?;
        carry_out(&rt, test, &UNCHANGED)?;
    }
    if has_unsynced(&rt) {
        carry_out(&rt, "unsynced_new", &OLD)?;
        carry_out(&rt, "unsynced_new", &UNSYNCED_NEW)?;
        carry_out(&rt, "unsynced_new", &UNCHANGED)?;
    }
    Ok(())
}

/// Images that are not upgraded, each with a NEW that is missing, which stays so, and one with bytes, which keeps them.
const REFUSED: [(&str, &[Step<'static>]); 2] = [
    (
        "old_layout",
        &[
            // A file without a byte, one that was never written, and one that is too short.
            File("@old", Write(b"")),
            Fails(Format, UPGRADE, "pagefmt: upgrade 2 OLDLAYOUT\n"),
            File("@old", SetLength(526_336)),
            Fails(Format, UPGRADE, "pagefmt: upgrade 2 OLDLAYOUT\n"),
            File("@old", FillAt(0, b"FAMSYNC1", 64)),
            File("@old", SetLength(512 * 1019)),
            Fails(Format, UPGRADE, "pagefmt: upgrade 2 OLDLAYOUT\n"),
            // A file whose home page does not end within the image.
            File("@old", SetLength(512 * 1027)),
            File("@old", WriteAt(512, ONE_PAGE)),
            Fails(Format, UPGRADE, "pagefmt: upgrade 2 OLDLAYOUT\n"),
            File("@new", IsMissing),
            Removes(&["@old"]),
            // A file of another origin, and an image of layout 2. A bad layout is told before a NEW that has a mark.
            File("@old", Write(b"")),
            File("@old", FillAt(0, b"Another.", 70_000)),
            Fails(Format, UPGRADE, "pagefmt: upgrade 2 OLDLAYOUT\n"),
            File("@new", IsMissing),
            NEW,
            Files(TwoFiles::Copy, "@image", "@before"),
            Fails(
                Format,
                &["upgrade", "@image", "@new"],
                "pagefmt: upgrade 2 OLDLAYOUT\n",
            ),
            File("@new", IsMissing),
            Fails(
                Format,
                &["upgrade", "@old", "@image"],
                "pagefmt: upgrade 2 OLDLAYOUT\n",
            ),
            Files(TwoFiles::Alike, "@image", "@before"),
            Removes(&["@old", "@image", "@before"]),
        ],
    ),
    (
        "old_journal",
        &[
            File("@old", Write(b"")),
            File("@old", SetLength(526_336)),
            File("@old", FillAt(0, b"FAMSYNC1", 64)),
            File("@old", WriteAt(512, ONE_PAGE)),
            File("@old", FillAt(1024, b"GATEOPEN", 64)),
            // A map of two pages, both for home 0; one of a page that is none of the homes; and one of 128 pages.
            File("@old", WriteAt(1536, b"\x02\0\0\0\0\0\0\0\0\0\0\0")),
            Fails(Format, UPGRADE, "pagefmt: upgrade 3 OLDJOURNAL\n"),
            File("@old", WriteAt(1536, b"\x01\0\0\0\x01\0\0\0")),
            Fails(Format, UPGRADE, "pagefmt: upgrade 3 OLDJOURNAL\n"),
            File("@old", WriteAt(1536, b"\x80\0\0\0\0\0\0\0")),
            Files(TwoFiles::Copy, "@old", "@before"),
            Fails(Format, UPGRADE, "pagefmt: upgrade 3 OLDJOURNAL\n"),
            File("@new", IsMissing),
            File("@new", Write(b"some bytes")),
            Fails(Format, UPGRADE, "pagefmt: upgrade 3 OLDJOURNAL\n"),
            File("@new", IsLong(10)),
            File("@new", HasAt(0, b"some bytes")),
            // It is told before a NEW that has a mark.
            File("@new", FillAt(0, b"FAMSYNC2", 64)),
            Fails(Format, UPGRADE, "pagefmt: upgrade 3 OLDJOURNAL\n"),
            File("@new", IsLong(512)),
            Files(TwoFiles::Alike, "@old", "@before"),
            Removes(&["@old", "@new", "@before"]),
        ],
    ),
];

/// Makes a byte of the first page of a file durable, and then one of the second.
const TWO_MSYNCS: &[u8] =
    b"spawn\nmmap 1 0 8192 rw- shared 0 0\nstore 1 0x10000 1 0x5a\nmsync 1 0x10000 8192 sync\n\
store 1 0x11000 1 0x5b\nmsync 1 0x10000 8192 sync\n";

const TWO_DONE: &[u8] = b"pid 1\naddr 0x10000\nok\nok\nok\nok\n";

/// The file then.
const TWO_BYTES: &[(&[u8], usize)] = &[(b"\x5a", 1), (b"\0", 4095), (b"\x5b", 1), (b"\0", 4095)];

/// Its entry in layout 4: flags, how many extents, the length, and first home and pages of the extent.
const POOL_ENTRY: &[u8] = b"\x01\0\0\0\x01\0\0\0\x00\x20\0\0\0\0\0\0\x04\0\0\0\x02\0\0\0";

/// A refused upgrade takes back what it made.
#[test]
fn upgrades_are_refused(rt: HostRuntime) -> Result<(), Fail> {
    carry_out_all(&rt, &REFUSED)
}

/// Images of layout 4, made of others whose second page stands in a journal alone.
const TO_POOLS: [(&str, &[Step<'static>]); 3] = [
    (
        "upgrade4",
        &[
            Does(Format, &["new", "@image", "zero:8192"], b"", b""),
            Does(Run, &["@image", "@swap"], TWO_MSYNCS, TWO_DONE),
            Files(TwoFiles::Copy, "@image", "@before"),
            Does(Format, &["upgrade4", "@image", "@new"], b"", b""),
            Files(TwoFiles::Alike, "@image", "@before"),
            File("@new", IsLong(512 * (48 + 8080 * 4 + 16))),
            // Mark and kind, and in the first home the file's entry: writable, of one extent, which begins behind the directory.
            File("@new", IsFilledAt(0, b"FAMSYNC4", 65)),
            File("@new", HasAt(520, b"\x04\0\0\0\x04\0\0\0")),
            File("@new", HasAt(512 * (16 + 8080 * 4), POOL_ENTRY)),
            Shows(&["@new", "0"], TWO_BYTES),
            Fails(
                Format,
                &["upgrade4", "@image", "@new"],
                "pagefmt: upgrade 6 FORMATTED\n",
            ),
            Shows(&["@new", "0"], TWO_BYTES),
            // No image is made of one of layout 4. A bad layout is told before a NEW that has a mark.
            Fails(
                Format,
                &["upgrade4", "@new", "@other"],
                "pagefmt: upgrade 2 OLDLAYOUT\n",
            ),
            Fails(
                Format,
                &["upgrade4", "@new", "@image"],
                "pagefmt: upgrade 2 OLDLAYOUT\n",
            ),
            File("@other", IsMissing),
            Files(TwoFiles::Alike, "@image", "@before"),
            Removes(&["@image", "@new", "@before", "@swap"]),
        ],
    ),
    // An image of layout 1, and one of layout 2 with a map of a page that is none of the homes.
    (
        "refused4",
        &[
            File("@old", Write(b"")),
            File("@old", SetLength(526_336)),
            File("@old", FillAt(0, b"FAMSYNC1", 64)),
            File("@old", WriteAt(512, ONE_PAGE)),
            Fails(
                Format,
                &["upgrade4", "@old", "@new"],
                "pagefmt: upgrade 2 OLDLAYOUT\n",
            ),
            NEW,
            File("@image", FillAt(1024, b"GATEOPEN", 64)),
            File("@image", WriteAt(1536, b"\x01\0\0\0\x01\0\0\0")),
            Fails(
                Format,
                &["upgrade4", "@image", "@new"],
                "pagefmt: upgrade 3 OLDJOURNAL\n",
            ),
            File("@new", IsMissing),
            File("@new", Write(b"some bytes")),
            Fails(
                Format,
                &["upgrade4", "@image", "@new"],
                "pagefmt: upgrade 3 OLDJOURNAL\n",
            ),
            File("@new", IsLong(10)),
            File("@new", HasAt(0, b"some bytes")),
            Removes(&["@old", "@image", "@new"]),
        ],
    ),
    (
        "words_upgrade4",
        &[
            Refuses(Format, &["upgrade4"]),
            Refuses(Format, &["upgrade4", "@image"]),
            Refuses(Format, &["upgrade4", "@image", "@new", "@new"]),
            Refuses(Format, &["upgrade4", "--pool", "0", "@image", "@new"]),
            Refuses(Format, &["upgrade", "--pool", "1", "@image", "@new"]),
            File("@new", IsMissing),
        ],
    ),
];

#[test]
fn images_of_layout_2_are_made_anew_with_a_pool(rt: HostRuntime) -> Result<(), Fail> {
    carry_out_all(&rt, &TO_POOLS)
}
