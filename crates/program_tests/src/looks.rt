//! A trace that is run while one looks inside.
use std::test::Fail;
use test_steps::Program::Look;
use test_steps::Step::{self, Does, Refuses, Removes};
use test_steps::{NEW, carry_out};

/// The words of a machine on an image.
const LOOK: &[&str] = &["@image", "@swap"];

/// A store, what it did, and the walk that finds it; a question with other words, and one that is none.
const LOOKS: &[Step<'static>] = &[
    NEW,
    Refuses(Look, &["@image"]),
    Does(Look, LOOK, b"", b""),
    Does(
        Look,
        LOOK,
        b"# a page\nspawn\nmmap 1 0 4096 rw- anon\n?watch on\nstore 1 0x10000 1 0x5a\n?walk 1 0x10001\n?maps 1\n?slots\n?tlb\n\
?walk 1\n?what\nbad\nload 1 0x10000 1",
        b"# a page\npid 1\naddr 0x10000\n?watch on\nok\n\
\x20 frame 2 is now a table of process 1, level 1, from page 0x0 on\n\
\x20 frame 3 is now a table of process 1, level 0, from page 0x0 on\n\
\x20 frame 4: own copy of page 0x10 of process 1 is filled with zeros\n\
\x20 page 0x10 of process 1: entry VRW-U-AD frame 4 own, before nothing\n\
?walk 1 0x10001\n\
\x20 address 0x10001 = page 0x10, offset 0x1\n\
\x20 level 2  frame 1  entry 0 at byte 0  0x801  V------- table in frame 2\n\
\x20 level 1  frame 2  entry 0 at byte 0  0xc01  V------- table in frame 3\n\
\x20 level 0  frame 3  entry 16 at byte 128  0x11d7  VRW-U-AD frame 4 own\n\
\x20 physical address 0x4001 = frame 4 * 4096 + 0x1\n\
?maps 1\n\
\x20 0x10000-0x11000 rw- anon  pages 1 resident 1 zero 0 own 1 shared 0 swapped 0 accessed 1 dirty 1\n\
?slots\n\
\x20 free 16\n\
?tlb\n\
\x20   line 16  1:0x10 -> frame 4 VRW-U-AD\n\
?walk 1\n\
\x20 the form is ?walk P ADDR\n\
?what\n\
\x20 one may ask ?walk P ADDR, ?tables P, ?maps P, ?bytes P ADDR, ?frames [FIRST LAST], ?slots, ?files, ?tlb, ?counts, ?watch on|off\n\
bad line\n\
value 0x5a\n",
    ),
    Removes(LOOK),
];

#[test]
fn what_lies_inside_is_shown(rt: HostRuntime) -> Result<(), Fail> {
    carry_out(&rt, "looks", LOOKS)
}
