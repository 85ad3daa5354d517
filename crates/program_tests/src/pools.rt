//! Images of layout 4, whose pages stay in a pool.
use std::test::Fail;
use test_steps::FileStep::{HasAt, IsFilledAt, IsLong, IsMissing, SetLength};
use test_steps::Program::{Format, Run, Stops};
use test_steps::Step::{self, Does, Fails, File, Refuses, Removes, Shows};
use test_steps::carry_out_all;

/// The words that run a trace.
const RUN: &[&str] = &["@image", "@swap"];

/// The words that write the first file out.
const FIRST: &[&str] = &["@image", "0"];

const POOLS: [(&str, &[Step<'static>]); 4] = [
    // 48 sectors, four times the blocks of both maps and their slots, and the page.
    (
        "new4",
        &[
            Does(Format, &["new4", "@image", "zero:4096"], b"", b""),
            File("@image", IsLong(512 * (48 + 8080 * 4 + 8))),
            // Mark and kind: four blocks of a map, and four pages of a directory.
            File("@image", IsFilledAt(0, b"FAMSYNC4", 65)),
            File("@image", HasAt(520, b"\x04\0\0\0\x04\0\0\0")),
            File("@image", IsFilledAt(528, b"FAMSYNC4", 62)),
            Fails(
                Format,
                &["new4", "@image", "zero:1"],
                "pagefmt: format 3 FORMATTED\n",
            ),
            Fails(
                Format,
                &["upgrade", "@image", "@new"],
                "pagefmt: upgrade 2 OLDLAYOUT\n",
            ),
            File("@new", IsMissing),
            Does(
                Run,
                RUN,
                b"spawn\nmmap 1 0 4096 rw- shared 0 0\nstore 1 0x10000 1 0x5a\nmsync 1 0x10000 4096 sync\n",
                b"pid 1\naddr 0x10000\nok\nok\n",
            ),
            // The gate names the second map, which gives the first slot behind it to the page; its home is as it was.
            File("@image", IsFilledAt(4096, b"GATEOPEN", 64)),
            File("@image", HasAt(512 * (16 + 4048 * 4), b"\x5a")),
            File("@image", IsFilledAt(512 * (48 + 8080 * 4), b"\0", 4096)),
            Shows(FIRST, &[(b"\x5a", 1), (b"\0", 4095)]),
            // What opens the image writes the map in the place of the other one, and moves no page.
            File("@image", IsFilledAt(4096, b"\0", 512)),
            Does(
                Run,
                RUN,
                b"spawn\nmmap 1 0 4096 r-- shared 0 0\nload 1 0x10000 1\n",
                b"pid 1\naddr 0x10000\nvalue 0x5a\n",
            ),
            Removes(RUN),
        ],
    ),
    // The smallest pool, of one block.
    (
        "pool",
        &[
            Does(
                Format,
                &["new4", "--pool", "1", "@image", "zero:5000"],
                b"",
                b"",
            ),
            File("@image", IsLong(512 * (48 + 8080 + 16))),
            Shows(FIRST, &[(b"\0", 5000)]),
            Does(Run, RUN, b"spawn\n", b"pid 1\n"),
            Removes(RUN),
            // 2,017 pages are more than two blocks have.
            Does(
                Format,
                &["new4", "--pool", "2017", "@image", "zero:1"],
                b"",
                b"",
            ),
            File("@image", IsLong(512 * (48 + 8080 * 3 + 8))),
            Does(Run, RUN, b"spawn\n", b"pid 1\n"),
            Removes(RUN),
        ],
    ),
    // A file of one page on an image with room for three more: what it shows is of the length that was made durable.
    (
        "lengths",
        &[
            Does(
                Format,
                &["new4", "--pool", "1", "@image", "zero:4096"],
                b"",
                b"",
            ),
            File("@image", SetLength(512 * (48 + 8080 + 32))),
            Does(
                Run,
                RUN,
                b"spawn\nmmap 1 0 0x4000 rw- shared 0 0\nstore 1 0x10000 1 0x5a\ntruncate 0 0x3001\nstore 1 0x13000 1 0x61\n\
msync 1 0x10000 1 sync\ntruncate 0 0\n",
                b"pid 1\naddr 0x10000\nok\nok\nok\nok\nok\n",
            ),
            Shows(FIRST, &[(b"\x5a", 1), (b"\0", 0x2fff), (b"\x61", 1)]),
            Does(
                Run,
                RUN,
                b"truncate 0 100\nspawn\nmmap 1 0 4096 r-- shared 0 0\nmsync 1 0x10000 1 sync\n",
                b"ok\npid 1\naddr 0x10000\nok\n",
            ),
            Shows(FIRST, &[(b"\x5a", 1), (b"\0", 99)]),
            Removes(RUN),
        ],
    ),
    (
        "words4",
        &[
            Refuses(Format, &["new4"]),
            Refuses(Format, &["new4", "@image"]),
            Refuses(Format, &["new4", "--pool", "0", "@image", "zero:1"]),
            Refuses(Format, &["new4", "--pool", "2064385", "@image", "zero:1"]),
            Refuses(Format, &["new", "--pool", "1", "@image", "zero:1"]),
            // Words of which none makes a store.
            Refuses(Format, &["new2", "@image", "zero:1"]),
            Refuses(Format, &["new3", "@image", "zero:1"]),
            Refuses(Format, &["upgrade3", "@image", "@new"]),
            Refuses(Stops, &["--layout", "3", "zero:1"]),
            File("@image", IsMissing),
        ],
    ),
];

#[test]
fn images_of_a_pool_are_made_and_used(rt: HostRuntime) -> Result<(), Fail> {
    carry_out_all(&rt, &POOLS)
}
