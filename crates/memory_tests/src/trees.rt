//! Frames and page tables behind a buffer: what stands in a table, which walks find a line, and where all of them lead.
ghost use Rattle.std.specs.Prelude.{ℕ, ◌≡◌, ◌<◌, IfOk};
ghost use Rattle.vm_types.specs.Limits.{top_level, user_end};
ghost use Rattle.page_tables.specs.Change.{AddsTable};
ghost use Rattle.page_tables.specs.Entry.{IsEntry};
ghost use Rattle.page_tables.specs.Tree.{IsForest, IsRoot};

use crate::bench::equal;
use bitflags::Flags;
use frames::Role;
use memory::{
    Memory, entry, entry_number, link_table, missing_tables, number_in, prune, set, set_in,
    set_kept, table_of, take_table, walk,
};
use page_tables::{Entry, Grant, entry_over};
use std::alloc::{AllocError, Global};
use std::process::Abort;
use std::test::Fail;
use sv39_walk::{Pte, WalkFault};
use vm_types::{Access, FrameNo, Levels, Phys, Prot, SlotNo, Sv39, Sv48, Vpn};

// A private leaf over frame 5, and one over frame 6: V, R, W, U, A and D.
const FIFTH: Entry = Entry::Leaf(Pte(5591));

const SIXTH: Entry = Entry::Leaf(Pte(6615));

// A page in frame 9 that nothing may access, for all processes and for one.
const PARKED: Entry = Entry::Parked(FrameNo(9), false);

const PARKED_PRIVATE: Entry = Entry::Parked(FrameNo(9), true);

// Where walks to any entry but a leaf end.
const NOWHERE: Result<u64, WalkFault> = Err(WalkFault::Invalid);

/// Memory of 8 frames with a tree that has its tables for page 17: the root in frame 1, then the tables in frames 2 and 3, and in
/// frame 4 where there are four levels. The page's entry stands at byte 136 of the last.
#[derive(Drop)]
struct Tree<M: Levels> {
    memory: Memory<M>,
    root: FrameNo,
    page: Vpn,
}

pub(crate) fn new_table<M: Levels>(rt: &impl Abort, memory: &mut Memory<M>) -> FrameNo
    requires { IsForest memory.old }
    ensures { AddsTable memory.old memory.new (top_level M.mode) result.0 }
{
    take_table(memory).expect(rt, "a free frame")
}

pub(crate) fn add_table<M: Levels>(
    rt: &impl Abort,
    memory: &mut Memory<M>,
    root: FrameNo,
    page: Vpn,
)
    requires forest { IsForest memory.old }
    requires root { IsRoot (top_level M.mode) memory.old root.0 }
    ensures forest { IsForest memory.new }
    ensures root { IsRoot (top_level M.mode) memory.new root.0 }
    ensures others { (r : ℕ) → IsRoot (top_level M.mode) memory.old r → IsRoot (top_level M.mode) memory.new r }
{
    let table = new_table(rt, memory);
    assert!(rt; missing_tables(memory, root, page) != 0);
    link_table(memory, root, page, table);
}

fn plant_tree<M: Levels>(rt: &impl Abort, alloc: Global) -> Result<Tree<M>, AllocError>
    ensures forest { IfOk result (λ tree. IsForest tree.memory) }
    ensures root { IfOk result (λ tree. IsRoot (top_level M.mode) tree.memory tree.root.0) }
    ensures user { IfOk result (λ tree. tree.page < user_end M.mode) }
{
    let mut memory = Memory::<M>::new(alloc, 8)?;
    let page = Vpn::new::<M>(17).expect(rt, "a user page");
    let root = new_table(rt, &mut memory);
    for level in 0..M::top_level() {
        add_table(rt, &mut memory, root, page);
    }
    Ok(Tree { memory, root, page })
}

// The entry, of which a leaf has to be one.
fn checked(rt: &impl Abort, entry: Entry) -> Entry
    ensures { IsEntry result }
{
    match entry {
        Entry::None => Entry::None,
        Entry::Leaf(leaf) => {
            assert!(rt; leaf.is_valid());
            assert!(rt; leaf.is_leaf());
            Entry::Leaf(leaf)
        }
        Entry::Swapped(slot) => Entry::Swapped(slot),
        Entry::Parked(frame, private) => Entry::Parked(frame, private),
    }
}

// Walks twice to an address in page 17: both walks have to end so, and so many have found a line then.
fn walk_twice<M: Levels>(
    rt: &impl Abort,
    memory: &mut Memory<M>,
    root: FrameNo,
    end: Result<u64, WalkFault>,
    hits: u64,
)
    requires forest { IsForest memory.old }
    requires root { IsRoot (top_level M.mode) memory.old root.0 }
    ensures { memory.new ≡ memory.old }
{
    let first = walk(memory, root, 0x11387, Access::Load);
    let second = walk(memory, root, 0x11387, Access::Load);
    let place = end.map(Phys);
    equal(rt, (first, second, memory.hits()), (place, place, hits));
}

// An entry's number, the first two of its bytes, where walks end, and how many have found a line then: the second to each leaf.
fn entries_stand<M: Levels>(rt: &impl Abort, alloc: Global) -> Result<(), Fail> {
    let mut tree = plant_tree::<M>(rt, alloc)?;
    assert!(rt; tree.memory.len() == 8);
    let pointer = &tree.memory.bytes(FrameNo(2))[..8];
    equal(rt, pointer, [0x01, 0x0c, 0, 0, 0, 0, 0, 0].as_slice());
    for (entry, number, low, high, end, hits) in [
        (FIFTH, 5591, 0xd7, 0x15, Ok(21383), 1),
        (SIXTH, 6615, 0xd7, 0x19, Ok(25479), 2),
        (Entry::Swapped(SlotNo(7)), 7170, 0x02, 0x1c, NOWHERE, 2),
        (PARKED, 9220, 0x04, 0x24, NOWHERE, 2),
        (PARKED_PRIVATE, 9476, 0x04, 0x25, NOWHERE, 2),
        (FIFTH, 5591, 0xd7, 0x15, Ok(21383), 3),
    ] {
        assert!(rt; missing_tables(&tree.memory, tree.root, tree.page) == 0);
        set(&mut tree.memory, tree.root, tree.page, checked(rt, entry));
        let found = entry_number(&tree.memory, tree.root, tree.page).to_u64();
        assert!(rt; tree.memory.len() == 8);
        let bytes = &tree.memory.bytes(FrameNo(1 + M::top_level()))[136..144];
        equal(
            rt,
            (found, bytes),
            (number, [low, high, 0, 0, 0, 0, 0, 0].as_slice()),
        );
        walk_twice(rt, &mut tree.memory, tree.root, end, hits);
    }
    Ok(())
}

// Takes away the entry of the page, at its place in the lowest table.
fn clear<M: Levels>(rt: &impl Abort, memory: &mut Memory<M>, root: FrameNo, page: Vpn)
    requires user { page < user_end M.mode }
    requires forest { IsForest memory.old }
    requires root { IsRoot (top_level M.mode) memory.old root.0 }
    ensures forest { IsForest memory.new }
    ensures root { IsRoot (top_level M.mode) memory.new root.0 }
{
    let table = table_of(memory, root, page).expect(rt, "a lowest table");
    let index = (page.get() % 512) as usize;
    equal(rt, number_in(memory, table, index), Pte(5591));
    set_in(memory, table, index, Entry::None);
    assert!(rt; matches!(entry(memory, root, page), Entry::None));
}

// A leaf that was kept is found by both walks, and not once its entry is gone, with the tables or without them.
fn tables_are_given_back<M: Levels>(rt: &impl Abort, alloc: Global) -> Result<(), Fail> {
    let mut tree = plant_tree::<M>(rt, alloc)?;
    assert!(rt; missing_tables(&tree.memory, tree.root, tree.page) == 0);
    let table = table_of(&tree.memory, tree.root, tree.page).expect(rt, "a lowest table");
    set_kept(
        &mut tree.memory,
        tree.root,
        tree.page,
        table,
        checked(rt, FIFTH),
    );
    walk_twice(rt, &mut tree.memory, tree.root, Ok(21383), 2);
    clear(rt, &mut tree.memory, tree.root, tree.page);
    walk_twice(rt, &mut tree.memory, tree.root, NOWHERE, 2);
    prune(&mut tree.memory, tree.root, tree.page);
    let missing = u32::from(missing_tables(&tree.memory, tree.root, tree.page));
    equal(rt, missing, M::top_level());
    walk_twice(rt, &mut tree.memory, tree.root, NOWHERE, 2);
    Ok(())
}

#[test]
fn entries_stand_and_tables_are_given_back(rt: HostRuntime) -> Result<(), Fail> {
    let own = Grant {
        frame: FrameNo(5),
        private: true,
        write: true,
        dirty: true,
    };
    let common = Grant {
        frame: FrameNo(9),
        private: false,
        write: false,
        dirty: false,
    };
    assert!(&rt; matches!(entry_over(Prot::WRITE.kept(), own), Entry::Leaf(Pte(5591))));
    assert!(&rt; matches!(entry_over(Prot::EXECUTE, common), Entry::Leaf(Pte(0x2459))));
    assert!(&rt;
        matches!(
            entry_over(Prot::empty(), common),
            Entry::Parked(FrameNo(9), false)
        )
    );
    entries_stand::<Sv39>(&rt, rt.alloc())?;
    entries_stand::<Sv48>(&rt, rt.alloc())?;
    tables_are_given_back::<Sv39>(&rt, rt.alloc())?;
    tables_are_given_back::<Sv48>(&rt, rt.alloc())
}

#[test]
fn a_frame_is_shared_written_copied_and_given_back(rt: HostRuntime) -> Result<(), Fail> {
    let mut memory = Memory::<Sv39>::new(rt.alloc(), 8)?;
    let root = new_table(&rt, &mut memory);
    memory.release_root(root);
    let page = memory.take(Role::Private).expect(&rt, "a free frame");
    equal(&rt, *memory.bytes(page), [0; 4096]);
    memory.share(page);
    equal(&rt, memory.count(page), 2);
    memory.bytes_mut(page)[4095] = 7;
    memory.release(page);
    equal(
        &rt,
        (memory.count(page), memory.role(page)),
        (1, Role::Private),
    );
    let twin = memory.take(Role::Cache).expect(&rt, "a free frame");
    memory.copy(page, twin);
    equal(&rt, memory.bytes(twin)[4095], 7);
    memory.release(page);
    let next = memory
        .next_free()
        .expect(&rt, "the frame that was given back");
    equal(&rt, memory.role(next), Role::Free);
    Ok(())
}
