//! The calls of `page_tables`, over memory with a buffer.
ghost use Rattle.std.specs.Prelude.{ℕ, ◌≡◌, ◌≢◌, ◌/◌, ◌%◌, ◌≤◌, IfErr, ◌<◌, ◌↔◌, IsErr, IfOk, OnErr};
ghost use Rattle.vm_types.specs.Limits.{top_level, table_entries, user_end};
ghost use Rattle.frames.specs.FrameTable.{FrameTable, IsFrame, IsFull, IsSound};
ghost use Rattle.sv39_walk.specs.Entry.{entry_at};
ghost use Rattle.page_tables.specs.Entry.{number_of, IsEntry};
ghost use Rattle.page_tables.specs.Tree.{IsPage, IsTable, IsForest, IsRoot, IsSpare, last_table, missing_of, page_entry};
ghost use Rattle.page_tables.specs.Places.{IsTableOf};
ghost use Rattle.memory.specs.Kept.{LinesAreLeaves};
ghost use Rattle.memory.specs.Notes.{AreNoted, NamesNoMore};
ghost use Rattle.memory.specs.SetPlace.{SetsInTable};
ghost use Rattle.page_tables.specs.Change.{AddsTable, SetsEntry, LinksTable, Prunes, IsPruned};

use crate::memory::Memory;
use crate::notes::Notes;
use crate::{LINES, TranslationBuffer};
use frames::Frames;
use page_tables::Entry;
use sv39_walk::{Pte, TABLE_ENTRIES, read_entry};
use vm_types::{FrameNo, Levels, NoFree, Vpn};

/// A table of zeros that is in no tree, to be linked or to begin a tree in which nothing stands. All trees stay as they are.
///
/// # Errors
/// `NoFree` exactly where no frame is free; then nothing changes.
pub fn take_table<M: Levels>(memory: &mut Memory<M>) -> Result<FrameNo, NoFree>
    requires { IsForest memory.old }
    ensures taken { IfOk result (λ n. AddsTable memory.old memory.new (top_level M.mode) n.0) }
    ensures none_free { IsErr result ↔ IsFull memory.old }
    ensures err { OnErr result (memory.new ≡ memory.old) }
    ensures sound { IsSound memory.new }
{
    page_tables::take_table(&mut memory.frames)
}

/// What the tree of `root` says of a page; `Entry::None` also where a table is missing.
pub fn entry<M: Levels>(memory: &Memory<M>, root: FrameNo, page: Vpn) -> Entry
    requires forest { IsForest memory.now }
    requires root { IsRoot (top_level M.mode) memory.now root.0 }
    ensures entry { number_of result ≡ page_entry memory.now (top_level M.mode) root.0 page }
    ensures form { IsEntry result }
{
    page_tables::entry::<M>(&memory.frames, root, page)
}

/// The number that stands for what the tree of `root` says of a page, 0 where a table is missing.
pub fn entry_number<M: Levels>(memory: &Memory<M>, root: FrameNo, page: Vpn) -> Pte
    requires forest { IsForest memory.now }
    requires root { IsRoot (top_level M.mode) memory.now root.0 }
    ensures { result.0 ≡ page_entry memory.now (top_level M.mode) root.0 page }
{
    page_tables::entry_number::<M>(&memory.frames, root, page)
}

/// How many tables are missing on the way to a page, 0 to 2, in Sv48 to 3.
pub fn missing_tables<M: Levels>(memory: &Memory<M>, root: FrameNo, page: Vpn) -> u8
    requires forest { IsForest memory.now }
    requires root { IsRoot (top_level M.mode) memory.now root.0 }
    ensures missing { result ≡ missing_of memory.now (top_level M.mode) root.0 page }
    ensures range { result ≤ top_level M.mode }
{
    page_tables::missing_tables::<M>(&memory.frames, root, page)
}

/// Makes `entry` what the tree of `root` says of a user page of the mode, to which no table is missing. No other page's entry changes, in
/// this tree or in another. The page's line is dropped, and the page is noted.
pub fn set<M: Levels>(memory: &mut Memory<M>, root: FrameNo, page: Vpn, entry: Entry)
    requires forest { IsForest memory.old }
    requires root { IsRoot (top_level M.mode) memory.old root.0 }
    requires user { page < user_end M.mode }
    requires whole { missing_of memory.old (top_level M.mode) root.0 page ≡ 0 }
    requires form { IsEntry entry }
    ensures sets { SetsEntry memory.old memory.new (top_level M.mode) root.0 page (number_of entry) }
    ensures sound { IsSound memory.new }
{
    page_tables::set::<M>(&mut memory.frames, root, page, entry);
    after_set(&mut memory.buffer, &mut memory.notes, root, page, entry);
}

/// The same where the lowest table on the page's way is known; a leaf is kept at once, so that the next walk to the page finds its line.
#[inline(always)]
pub fn set_kept<M: Levels>(
    memory: &mut Memory<M>,
    root: FrameNo,
    page: Vpn,
    table: FrameNo,
    entry: Entry,
)
    requires forest { IsForest memory.old }
    requires root { IsRoot (top_level M.mode) memory.old root.0 }
    requires user { page < user_end M.mode }
    requires table { IsTableOf memory.old (top_level M.mode) root.0 (page / table_entries) table.0 }
    requires form { IsEntry entry }
    ensures sets { SetsEntry memory.old memory.new (top_level M.mode) root.0 page (number_of entry) }
    ensures sound { IsSound memory.new }
{
    let place = page.get() % TABLE_ENTRIES;
    page_tables::set_in(&mut memory.frames, table, place as usize, entry);
    keep_entry::<M>(&memory.frames, &mut memory.buffer, root, page, entry);
    memory.notes.add(root, page, entry);
}

// Keeps what the tree says of a page whose entry was set, in place of what the page's place had, where that is a leaf over a frame of
// memory; else the page's line is dropped.
fn keep_entry<M: Levels>(
    frames: &Frames,
    buffer: &mut TranslationBuffer,
    root: FrameNo,
    page: Vpn,
    entry: Entry,
)
    requires user { page < user_end M.mode }
    requires form { IsEntry entry }
    ensures lines { (before : FrameTable) → IsForest before → IsRoot (top_level M.mode) before root.0 → SetsEntry before frames.now (top_level M.mode) root.0 page (number_of entry)
        → LinesAreLeaves M.mode before buffer.old → LinesAreLeaves M.mode frames.now buffer.new }
    ensures unfound { buffer.new.found ≡ buffer.old.found }
{
    match entry {
        Entry::Leaf(leaf) if leaf.frame() < u64::from(frames.len()) => {
            buffer.keep(root, page, leaf);
        }
        _ => buffer.drop_page(root, page),
    }
}

// What else changes when a page's entry is set: the page's line is dropped, and the page is noted.
fn after_set(
    buffer: &mut TranslationBuffer,
    notes: &mut Notes,
    root: FrameNo,
    page: Vpn,
    entry: Entry,
)
    requires { IsEntry entry }
    ensures lines { (mode : ℕ) (before after : FrameTable) → IsForest before → IsRoot (top_level mode) before root.0 → SetsEntry before after (top_level mode) root.0 page (number_of entry)
        → LinesAreLeaves mode before buffer.old → LinesAreLeaves mode after buffer.new }
    ensures notes { (mode : ℕ) (before after : FrameTable) → IsForest before → IsRoot (top_level mode) before root.0 → SetsEntry before after (top_level mode) root.0 page (number_of entry)
        → AreNoted mode before notes.old → AreNoted mode after notes.new }
    ensures unfound { buffer.new.found ≡ buffer.old.found }
{
    buffer.drop_page(root, page);
    notes.add(root, page, entry);
}

/// Puts a table of zeros, which no tree has, in the highest missing place on the way to a page.
pub fn link_table<M: Levels>(memory: &mut Memory<M>, root: FrameNo, page: Vpn, table: FrameNo)
    requires forest { IsForest memory.old }
    requires root { IsRoot (top_level M.mode) memory.old root.0 }
    requires missing { missing_of memory.old (top_level M.mode) root.0 page ≢ 0 }
    requires spare { IsSpare memory.old table.0 }
    requires other { table.0 ≢ root.0 }
    ensures links { LinksTable memory.old memory.new (top_level M.mode) root.0 page table.0 }
    ensures sound { IsSound memory.new }
{
    page_tables::link_table::<M>(&mut memory.frames, root, page, table);
}

/// Releases each table below the root on the way to a page that has no entry, the lower first. No line hangs on such a table.
pub fn prune<M: Levels>(memory: &mut Memory<M>, root: FrameNo, page: Vpn)
    requires forest { IsForest memory.old }
    requires root { IsRoot (top_level M.mode) memory.old root.0 }
    ensures prunes { Prunes memory.old memory.new (top_level M.mode) root.0 page }
    ensures pruned { IsPruned memory.new (top_level M.mode) root.0 page }
    ensures sound { IsSound memory.new }
{
    page_tables::prune::<M>(&mut memory.frames, root, page);
}

/// The lowest table on the way to a page, in which the entries of its row of 512 pages stand.
///
/// # Errors
/// How many tables are missing on the way, 1 or 2, in Sv48 to 3.
pub fn table_of<M: Levels>(memory: &Memory<M>, root: FrameNo, page: Vpn) -> Result<FrameNo, u8>
    requires forest { IsForest memory.now }
    requires root { IsRoot (top_level M.mode) memory.now root.0 }
    ensures found { IfOk result (λ n. IsTableOf memory.now (top_level M.mode) root.0 (page / table_entries) n.0) }
    ensures missing { IfErr result (λ missing. (missing ≡ missing_of memory.now (top_level M.mode) root.0 page) × (1 ≤ missing) × (missing ≤ (top_level M.mode))) }
{
    page_tables::table_of::<M>(&memory.frames, root, page)
}

/// Where the way to a page ends: the level there, which is how many tables are missing, and the last table on the way.
pub fn last_table<M: Levels>(memory: &Memory<M>, root: FrameNo, page: Vpn) -> (u32, FrameNo)
    requires forest { IsForest memory.now }
    requires root { IsRoot (top_level M.mode) memory.now root.0 }
    ensures last { (result.0, result.1.0) ≡ last_table memory.now page (top_level M.mode) root.0 }
    ensures range { result.0 ≤ top_level M.mode }
    ensures table { IsTable memory.now result.1.0 }
{
    page_tables::last_table::<M>(&memory.frames, root, page)
}

/// The number at place `index` of a lowest table: that of the page that stands there, in each tree.
pub fn number_in<M: Levels>(memory: &Memory<M>, table: FrameNo, index: usize) -> Pte
    requires table { IsTable memory.now table.0 }
    requires below { index < table_entries }
    ensures { (root page : ℕ) → IsTableOf memory.now (top_level M.mode) root (page / table_entries) table.0 → page % table_entries ≡ index
        → result.0 ≡ page_entry memory.now (top_level M.mode) root page }
{
    page_tables::number_in(&memory.frames, table, index)
}

/// The entry at place `index`, under 512, of a table of any level.
pub fn entry_in<M: Levels>(memory: &Memory<M>, table: FrameNo, index: usize) -> Pte
    requires inside { IsFrame memory.now table.0 }
    requires below { index < table_entries }
    ensures { result.0 ≡ entry_at memory.now table.0 index }
{
    read_entry(&memory.frames, table, index)
}

/// Makes `entry` what stands at place `index` of a lowest table: that of the page there, and of no other page. It names no frame, is a process's
/// own, or names the frame that is named there already. That page's line is dropped, with whatever line has its place.
pub fn set_in<M: Levels>(memory: &mut Memory<M>, table: FrameNo, index: usize, entry: Entry)
    requires forest { IsForest memory.old }
    requires table { IsTable memory.old table.0 }
    requires below { index < table_entries }
    requires form { IsEntry entry }
    requires placed { (root page : ℕ) × IsRoot (top_level M.mode) memory.old root × IsPage (top_level M.mode) page × IsTableOf memory.old (top_level M.mode) root (page / table_entries) table.0
        × (page % table_entries ≡ index) }
    requires names { NamesNoMore M.mode memory.old table.0 index (number_of entry) }
    ensures { SetsInTable M.mode memory.old memory.new table.0 index (number_of entry) }
{
    page_tables::set_in(&mut memory.frames, table, index, entry);
    memory.buffer.drop_place(index % LINES);
}
