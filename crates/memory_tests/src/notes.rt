//! What memory notes of the pages that name a frame.
ghost use Rattle.std.specs.Prelude.{ℕ, ◌≡◌, ◌<◌};
ghost use Rattle.vm_types.specs.Limits.{top_level, user_end};
ghost use Rattle.frames.specs.FrameTable.{IsFrame};
ghost use Rattle.page_tables.specs.Tree.{IsForest, IsRoot};
ghost use Rattle.memory.specs.Notes.{NamesFrame};

use crate::bench::equal;
use crate::trees::{add_table, new_table};
use memory::{
    Memory, forget_pages, is_kind, kinds_over, missing_tables, page_over, set, set_kept, table_of,
};
use page_tables::Entry;
use std::alloc::Global;
use std::process::Abort;
use std::test::Fail;
use sv39_walk::Pte;
use vm_types::{FrameNo, Levels, Sv39, Sv48, Vpn};

// A frame of memory, and the number of no table.
const FRAME: FrameNo = FrameNo(15);

// A leaf over that frame, as any process may have it, and as one has it whose own the frame is: V, R, U and A.
const COMMON: Pte = Pte(15443);

const OWN: Pte = Pte(15699);

// Whether a page of each of these trees may name the frame, and the one page that may.
fn check<M: Levels>(
    rt: &impl Abort,
    memory: &Memory<M>,
    roots: [FrameNo; 3],
    named: [bool; 3],
    page: Option<Vpn>,
) {
    assert!(rt; memory.len() == 16);
    let kinds = kinds_over(memory, FRAME);
    let [first, second, third] = roots;
    let found = [
        is_kind(kinds, first),
        is_kind(kinds, second),
        is_kind(kinds, third),
    ];
    equal(rt, (found, page_over(memory, FRAME)), (named, page));
}

// A root, and the tables to the page.
fn plant<M: Levels>(rt: &impl Abort, memory: &mut Memory<M>, page: Vpn) -> FrameNo
    requires { IsForest memory.old }
    ensures forest { IsForest memory.new }
    ensures root { IsRoot (top_level M.mode) memory.new result.0 }
    ensures others { (r : ℕ) → IsRoot (top_level M.mode) memory.old r → IsRoot (top_level M.mode) memory.new r }
{
    let root = new_table(rt, memory);
    for level in 0..M::top_level() {
        add_table(rt, memory, root, page);
    }
    root
}

// Gives the page that leaf.
fn show<M: Levels>(rt: &impl Abort, memory: &mut Memory<M>, root: FrameNo, page: Vpn, leaf: Pte)
    requires forest { IsForest memory.old }
    requires root { IsRoot (top_level M.mode) memory.old root.0 }
    requires user { page < user_end M.mode }
    ensures forest { IsForest memory.new }
    ensures others { (r : ℕ) → IsRoot (top_level M.mode) memory.old r → IsRoot (top_level M.mode) memory.new r }
{
    assert!(rt; leaf.is_valid());
    assert!(rt; leaf.is_leaf());
    let table = table_of(memory, root, page).expect(rt, "a lowest table");
    set_kept(memory, root, page, table, Entry::Leaf(leaf));
}

// The last two pages of a mode. The third root that is asked of has no tree.
fn pages_are_noted<M: Levels>(rt: &impl Abort, alloc: Global) -> Result<(), Fail> {
    let mut memory = Memory::<M>::new(alloc, 16)?;
    let last = Vpn::new::<M>(M::user_end() - 1).expect(rt, "a user page");
    let other = Vpn::new::<M>(M::user_end() - 2).expect(rt, "a user page");
    let first = plant(rt, &mut memory, last);
    let second = plant(rt, &mut memory, last);
    let roots = [first, second, FRAME];
    show(rt, &mut memory, first, last, OWN);
    check(rt, &memory, roots, [false, false, false], None);
    show(rt, &mut memory, first, last, COMMON);
    check(rt, &memory, roots, [true, false, false], Some(last));
    show(rt, &mut memory, second, last, COMMON);
    check(rt, &memory, roots, [true, true, false], Some(last));
    show(rt, &mut memory, second, other, COMMON);
    check(rt, &memory, roots, [true, true, false], None);
    memory.bytes_mut(first)[0] = 0;
    check(rt, &memory, roots, [true, true, true], None);
    // The note of a frame that no page names any more is forgotten.
    let mut memory = Memory::<M>::new(alloc, 16)?;
    let page = Vpn::new::<M>(17).expect(rt, "a user page");
    let root = plant(rt, &mut memory, page);
    show_for_a_moment(rt, &mut memory, root, page);
    forget_pages(&mut memory, FRAME);
    check(rt, &memory, [root, FRAME, FRAME], [false; 3], None);
    Ok(())
}

// Gives the page that leaf for a moment. No page names the frame before, so none does then; its note stays.
fn show_for_a_moment<M: Levels>(rt: &impl Abort, memory: &mut Memory<M>, root: FrameNo, page: Vpn)
    requires forest { IsForest memory.old }
    requires root { IsRoot (top_level M.mode) memory.old root.0 }
    requires user { page < user_end M.mode }
    ensures inside { IsFrame memory.new 15 }
    ensures none { (r p : ℕ) → NamesFrame M.mode memory.new r p 15 → ⊥ }
{
    assert!(rt; memory.len() == 16);
    assert!(rt; kinds_over(memory, FRAME) == 0);
    assert!(rt; COMMON.is_valid());
    assert!(rt; COMMON.is_leaf());
    assert!(rt; missing_tables(memory, root, page) == 0);
    set(memory, root, page, Entry::Leaf(COMMON));
    set(memory, root, page, Entry::None);
    check(
        rt,
        memory,
        [root, FRAME, FRAME],
        [true, false, false],
        Some(page),
    );
}

#[test]
fn pages_are_noted_and_forgotten(rt: HostRuntime) -> Result<(), Fail> {
    pages_are_noted::<Sv39>(&rt, rt.alloc())?;
    pages_are_noted::<Sv48>(&rt, rt.alloc())
}
