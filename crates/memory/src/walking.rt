//! The walk, by the buffer where it has the page's line.
ghost use Rattle.std.specs.Prelude.{ℕ, ◌≡◌, ◌<◌, ◌/◌, ◌^◌, true, false, MatchOption, Ok, IsErr};
ghost use Rattle.vm_types.specs.Limits.{top_level, user_end, table_entries};
ghost use Rattle.frames.specs.FrameTable.{frame_count};
ghost use Rattle.sv39_walk.specs.Entry.{frame_of};
ghost use Rattle.sv39_walk.specs.Walk.{page_of, translated, answer_of};
ghost use Rattle.page_tables.specs.Tree.{IsForest, IsRoot};
ghost use Rattle.page_tables.specs.Places.{IsTableOf};
ghost use Rattle.memory.specs.Lines.{leaf_lets, address_in};
ghost use Rattle.memory.specs.Kept.{LinesAreLeaves};
ghost use Rattle.memory.specs.Walks.{IsWalkTo};

use crate::memory::Memory;
use crate::{TranslationBuffer, lets};
use frames::Frames;
use page_tables::{number_in, table_of};
use sv39_walk::{Pte, WalkFault};
use vm_types::{Access, FrameNo, Levels, PAGE_BYTES, Phys, Vpn};

// Bytes of a page, as a number of addresses.
const PAGE: u64 = PAGE_BYTES as u64;

// Entries of a table.
const ENTRIES: u64 = sv39_walk::TABLE_ENTRIES;

/// What the walk to a page comes to.
#[derive(Clone, Copy, Debug, PartialEq, Eq)]
pub enum WalkEnd {
    /// The access goes to this frame.
    Frame(FrameNo),
    /// A fault, and the lowest table on the page's way; `None` where a table is missing.
    Fault(Option<FrameNo>),
}

/// Where an access to the address in user mode goes in the tree of `root`: to a user page as `walk_page` says. Memory stays as it is.
///
/// # Errors
/// The reason, exactly where there is one.
pub fn walk<M: Levels>(
    memory: &mut Memory<M>,
    root: FrameNo,
    addr: u64,
    access: Access,
) -> Result<Phys, WalkFault>
    requires forest { IsForest memory.old }
    requires root { IsRoot (top_level M.mode) memory.old root.0 }
    ensures walked { result ≡ translated (top_level M.mode) memory.old root.0 addr access }
    ensures same { memory.new ≡ memory.old }
{
    let Some(page) = Vpn::new::<M>(addr / PAGE) else {
        return sv39_walk::walk::<M>(&memory.frames, root, addr, access);
    };
    match walk_page(memory, root, page, access) {
        WalkEnd::Frame(frame) => Ok(place_in(frame, addr)),
        WalkEnd::Fault(_) => sv39_walk::walk::<M>(&memory.frames, root, addr, access),
    }
}

/// What the walk to each address of a user page of the mode comes to in the tree of `root`. The buffer is looked at once, before any entry
/// is read; where it has no line for the page the way is read, once, and the page's leaf is kept where it lets the access go through.
/// Memory stays as it is.
pub fn walk_page<M: Levels>(
    memory: &mut Memory<M>,
    root: FrameNo,
    page: Vpn,
    access: Access,
) -> WalkEnd
    requires forest { IsForest memory.old }
    requires root { IsRoot (top_level M.mode) memory.old root.0 }
    requires user { page < user_end M.mode }
    ensures walked { IsWalkTo M.mode memory.old root.0 page access result }
    ensures same { memory.new ≡ memory.old }
{
    match memory.buffer.look(root, page, access) {
        Some(frame) => {
            memory.hits = memory.hits.saturating_add(1);
            WalkEnd::Frame(frame)
        }
        None => walk_way::<M>(&memory.frames, &mut memory.buffer, root, page, access),
    }
}

// The walk to a page that has no line.
fn walk_way<M: Levels>(
    frames: &Frames,
    buffer: &mut TranslationBuffer,
    root: FrameNo,
    page: Vpn,
    access: Access,
) -> WalkEnd
    requires forest { IsForest frames.now }
    requires root { IsRoot (top_level M.mode) frames.now root.0 }
    requires small { page < user_end M.mode }
    requires kept { LinesAreLeaves M.mode frames.now buffer.old }
    ensures walked { IsWalkTo M.mode frames.now root.0 page access result }
    ensures kept { LinesAreLeaves M.mode frames.now buffer.new }
    ensures unfound { buffer.new.found ≡ buffer.old.found }
{
    match table_of::<M>(frames, root, page) {
        Err(_) => WalkEnd::Fault(None),
        Ok(table) => match keep_leaf::<M>(frames, buffer, root, page, table, access) {
            Some(frame) => WalkEnd::Frame(frame),
            None => WalkEnd::Fault(Some(table)),
        },
    }
}

// Keeps the leaf of a page, which stands in that table, where it lets the access go through, into a frame of memory, and returns that
// frame: the walk to each address of the page ends there. `None` exactly where the walk is a fault.
fn keep_leaf<M: Levels>(
    frames: &Frames,
    buffer: &mut TranslationBuffer,
    root: FrameNo,
    page: Vpn,
    table: FrameNo,
    access: Access,
) -> Option<FrameNo>
    requires forest { IsForest frames.now }
    requires root { IsRoot (top_level M.mode) frames.now root.0 }
    requires small { page < user_end M.mode }
    requires table { IsTableOf frames.now (top_level M.mode) root.0 (page / table_entries) table.0 }
    requires kept { LinesAreLeaves M.mode frames.now buffer.old }
    ensures walked { (addr : ℕ) → page_of addr ≡ page
        → MatchOption result (IsErr (translated (top_level M.mode) frames.now root.0 addr access)) (λ frame. translated (top_level M.mode) frames.now root.0 addr access ≡ Ok (address_in frame.0 addr)) }
    ensures kept { LinesAreLeaves M.mode frames.now buffer.new }
    ensures unfound { buffer.new.found ≡ buffer.old.found }
{
    let leaf = number_in(frames, table, (page.get() % ENTRIES) as usize);
    if !is_usable(frames, leaf, access) {
        return None;
    }
    buffer.keep(root, page, leaf);
    Some(leaf.frame_number())
}

// Whether a leaf lets the access go through, into a frame of memory.
fn is_usable(frames: &Frames, leaf: Pte, access: Access) -> bool
    ensures usable { result ≡ true → (leaf_lets access leaf.0 ≡ true) × (frame_of leaf.0 < frame_count frames.now) × (frame_of leaf.0 < 2 ^ 32) }
    ensures other { result ≡ false → (addr : ℕ) → IsErr (answer_of (frame_count frames.now) addr access 0 leaf.0) }
{
    lets(leaf, access) && leaf.frame() < u64::from(frames.len())
}

// The address in that frame.
fn place_in(frame: FrameNo, addr: u64) -> Phys
    ensures { result ≡ address_in frame.0 addr }
{
    Phys(u64::from(frame.0) * PAGE + addr % PAGE)
}
