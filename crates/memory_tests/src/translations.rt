//! Lines of a buffer of translations.
use crate::bench::equal;
use memory::{LINES, TranslationBuffer};
use std::process::Abort;
use sv39_walk::Pte;
use vm_types::{Access, FrameNo, Sv39, Sv48, Vpn};

/// A call that changes the lines.
#[derive(Clone, Copy)]
enum Step {
    Keep(FrameNo, Vpn),
    DropPage(FrameNo, Vpn),
    DropPlace(usize),
    DropRoot(FrameNo),
}

// Every leaf that is kept is readable, writable, accessed and dirty, over frame 5.
fn take_step(rt: &impl Abort, buffer: &mut TranslationBuffer, step: Step) {
    match step {
        Step::Keep(root, page) => {
            let leaf = Pte::from_u64(0x14d7);
            assert!(rt; leaf.frame() == 5);
            buffer.keep(root, page, leaf);
        }
        Step::DropPage(root, page) => buffer.drop_page(root, page),
        Step::DropPlace(index) => buffer.drop_place(index % LINES),
        Step::DropRoot(root) => buffer.drop_root(root),
    }
}

// Pages 17 and 2 ^ 34 + 17 have one place.
#[test]
fn a_kept_leaf_is_found_until_it_is_dropped(rt: HostRuntime) {
    let (root, other) = (FrameNo(1), FrameNo(2));
    let page = Vpn::new::<Sv39>(17).expect(&rt, "a user page");
    let twin = Vpn::new::<Sv48>((1 << 34) + 17).expect(&rt, "a user page");
    let frame = Some(FrameNo(5));
    frames::hardware_write();
    memory::hardware_write();
    let mut buffer = TranslationBuffer::new();
    for (step, found) in [
        (Step::DropRoot(root), None),
        (Step::Keep(root, page), frame),
        (Step::DropRoot(other), frame),
        (Step::DropPage(other, page), frame),
        (Step::DropPage(root, twin), frame),
        (Step::DropPlace(16), frame),
        (Step::DropPage(root, page), None),
        (Step::Keep(root, page), frame),
        (Step::DropRoot(root), None),
        (Step::Keep(root, page), frame),
        (Step::DropPlace(17), None),
        (Step::Keep(root, page), frame),
        (Step::Keep(other, twin), None),
    ] {
        take_step(&rt, &mut buffer, step);
        let answers = [
            buffer.look(root, page, Access::Load),
            buffer.look(root, page, Access::Store),
            buffer.look(root, page, Access::Fetch),
            buffer.look(other, page, Access::Load),
        ];
        equal(&rt, answers, [found, found, None, None]);
    }
}
