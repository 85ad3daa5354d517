//! The calls on trees of tables.
ghost use Rattle.std.specs.Prelude.{ℕ, ◌≡◌, ◌≢◌, ◌+◌, ◌/◌, ◌%◌, ◌≤◌, IfErr, ◌<◌, ◌↔◌, IsTrue, IsErr, IfOk, OnErr, true, false, get_or};
ghost use Rattle.vm_types.specs.Limits.{top_level, table_entries, user_end};
ghost use Rattle.frames.specs.FrameTable.{IsFull, IsSound, zero_bytes};
ghost use Rattle.page_tables.specs.Entry.{number_of, IsEntry};
ghost use Rattle.page_tables.specs.Tree.{IsPage, IsTable, Points, EndsWay, IsForest, IsRoot, IsSpare, IsEmptyTable, last_table, missing_of, page_entry};
ghost use Rattle.page_tables.specs.Places.{IsTableOf};
ghost use Rattle.page_tables.specs.Change.{KeepsFrames, AddsTable, PutsNumber, ChangesEntry, Unlinks, SetsEntry, LinksTable, Prunes, IsPruned};

use crate::forms::{Entry, decode, encode};
use byteorder::{ByteOrder, LittleEndian};
use frames::{Frames, Role};
use sv39_walk::{Pte, read_entry, table_index};
use vm_types::{FrameNo, Levels, NoFree, Vpn};

/// A table of zeros that is in no tree, to be linked or to begin a tree in which nothing stands. All trees stay as they are.
///
/// # Errors
/// `NoFree` exactly where no frame is free; then nothing changes.
pub fn take_table(frames: &mut Frames) -> Result<FrameNo, NoFree>
    requires { IsForest frames.old }
    ensures taken { IfOk result (λ n. (top : ℕ) → AddsTable frames.old frames.new top n.0) }
    ensures none_free { IsErr result ↔ IsFull frames.old }
    ensures err { OnErr result (frames.new ≡ frames.old) }
    ensures sound { IsSound frames.new }
{
    frames.take(Role::Table)
}

/// What the tree of `root` says of a page; `Entry::None` also where a table is missing.
pub fn entry<M: Levels>(frames: &Frames, root: FrameNo, page: Vpn) -> Entry
    requires forest { IsForest frames.now }
    requires root { IsRoot (top_level M.mode) frames.now root.0 }
    ensures entry { number_of result ≡ page_entry frames.now (top_level M.mode) root.0 page }
    ensures form { IsEntry result }
{
    decode(entry_number::<M>(frames, root, page))
}

/// The number that stands for what the tree of `root` says of a page, 0 where a table is missing.
pub fn entry_number<M: Levels>(frames: &Frames, root: FrameNo, page: Vpn) -> Pte
    requires forest { IsForest frames.now }
    requires root { IsRoot (top_level M.mode) frames.now root.0 }
    ensures { result.0 ≡ page_entry frames.now (top_level M.mode) root.0 page }
{
    let (level, table, _) = end_of_way::<M>(frames, root, page);
    if level > 0 {
        return Pte::from_u64(0);
    }
    read_entry(frames, table, table_index(page.get(), 0))
}

/// How many tables are missing on the way to a page, 0 to 2, in Sv48 to 3.
pub fn missing_tables<M: Levels>(frames: &Frames, root: FrameNo, page: Vpn) -> u8
    requires forest { IsForest frames.now }
    requires root { IsRoot (top_level M.mode) frames.now root.0 }
    ensures missing { result ≡ missing_of frames.now (top_level M.mode) root.0 page }
    ensures range { result ≤ top_level M.mode }
{
    let (level, _, _) = end_of_way::<M>(frames, root, page);
    level as u8
}

/// Makes `entry` what the tree of `root` says of a user page of the mode, to which no table is missing. No other page's entry changes, in
/// this tree or in another.
pub fn set<M: Levels>(frames: &mut Frames, root: FrameNo, page: Vpn, entry: Entry)
    requires forest { IsForest frames.old }
    requires root { IsRoot (top_level M.mode) frames.old root.0 }
    requires user { page < user_end M.mode }
    requires whole { missing_of frames.old (top_level M.mode) root.0 page ≡ 0 }
    requires form { IsEntry entry }
    ensures sets { SetsEntry frames.old frames.new (top_level M.mode) root.0 page (number_of entry) }
    ensures sound { IsSound frames.new }
{
    let (_, table, _) = end_of_way::<M>(frames, root, page);
    write_entry(frames, table, table_index(page.get(), 0), encode(entry));
}

/// Puts a table of zeros, which no tree has, in the highest missing place on the way to a page.
pub fn link_table<M: Levels>(frames: &mut Frames, root: FrameNo, page: Vpn, table: FrameNo)
    requires forest { IsForest frames.old }
    requires root { IsRoot (top_level M.mode) frames.old root.0 }
    requires missing { missing_of frames.old (top_level M.mode) root.0 page ≢ 0 }
    requires spare { IsSpare frames.old table.0 }
    requires other { table.0 ≢ root.0 }
    ensures links { LinksTable frames.old frames.new (top_level M.mode) root.0 page table.0 }
    ensures sound { IsSound frames.new }
{
    let (level, parent, _) = end_of_way::<M>(frames, root, page);
    write_entry(
        frames,
        parent,
        table_index(page.get(), level),
        Pte::pointer(table),
    );
}

/// Releases each table below the root on the way to a page that has no entry, the lower first.
pub fn prune<M: Levels>(frames: &mut Frames, root: FrameNo, page: Vpn)
    requires forest { IsForest frames.old }
    requires root { IsRoot (top_level M.mode) frames.old root.0 }
    ensures prunes { Prunes frames.old frames.new (top_level M.mode) root.0 page }
    ensures pruned { IsPruned frames.new (top_level M.mode) root.0 page }
    ensures sound { IsSound frames.new }
{
    while prune_last::<M>(frames, root, page) {}
    let _ = frames.len();
}

// Releases the last table on the way to a page, where it isn't the root and has no entry; whether it did.
fn prune_last<M: Levels>(frames: &mut Frames, root: FrameNo, page: Vpn) -> bool
    requires forest { IsForest frames.old }
    requires root { IsRoot (top_level M.mode) frames.old root.0 }
    ensures prunes { Prunes frames.old frames.new (top_level M.mode) root.0 page }
    ensures done { result ≡ false → IsPruned frames.new (top_level M.mode) root.0 page }
    ensures higher { result ≡ true → missing_of frames.new (top_level M.mode) root.0 page ≡ missing_of frames.old (top_level M.mode) root.0 page + 1 }
    ensures in_levels { missing_of frames.new (top_level M.mode) root.0 page ≤ top_level M.mode }
{
    let (level, table, parent) = end_of_way::<M>(frames, root, page);
    if table.0 == root.0 {
        return false;
    }
    if !is_empty(frames, table) {
        return false;
    }
    unlink(frames, parent, table_index(page.get(), level + 1), table);
    true
}

// Clears the pointer to a table, and releases the table.
fn unlink(frames: &mut Frames, parent: FrameNo, index: usize, table: FrameNo)
    requires points { Points frames.old parent.0 index table.0 }
    requires table { IsTable frames.old table.0 }
    requires apart { parent.0 ≢ table.0 }
    ensures { Unlinks frames.old frames.new parent.0 index table.0 }
{
    write_entry(frames, parent, index, Pte::from_u64(0));
    frames.release(table);
}

// Whether no entry of a table is set.
fn is_empty(frames: &Frames, table: FrameNo) -> bool
    requires { IsTable frames.now table.0 }
    ensures { IsTrue result ↔ IsEmptyTable frames.now table.0 }
{
    // (brings in that memory is sound, so that frame 0 is the zero page)
    let _ = frames.len();
    are_zeros(frames.bytes(table), frames.bytes(FrameNo(0)))
}

// Whether the bytes of a frame are those of the zero page, which are compared many at a time.
fn are_zeros(bytes: &[u8; 4096], zeros: &[u8; 4096]) -> bool
    requires { zeros.now ≡ zero_bytes }
    ensures { IsTrue result ↔ ((k : ℕ) → k < 4096 → get_or bytes.now k 0 ≡ 0) }
{
    bytes == zeros
}

/// The lowest table on the way to a page, in which the entries of its row of 512 pages stand.
///
/// # Errors
/// How many tables are missing on the way, 1 or 2, in Sv48 to 3.
pub fn table_of<M: Levels>(frames: &Frames, root: FrameNo, page: Vpn) -> Result<FrameNo, u8>
    requires forest { IsForest frames.now }
    requires root { IsRoot (top_level M.mode) frames.now root.0 }
    ensures found { IfOk result (λ n. IsTableOf frames.now (top_level M.mode) root.0 (page / table_entries) n.0) }
    ensures missing { IfErr result (λ missing. (missing ≡ missing_of frames.now (top_level M.mode) root.0 page) × (1 ≤ missing) × (missing ≤ (top_level M.mode))) }
{
    let (level, table, _) = end_of_way::<M>(frames, root, page);
    if level > 0 {
        return Err(level as u8);
    }
    Ok(table)
}

/// Where the way to a page ends: the level there, which is how many tables are missing, and the last table on the way.
pub fn last_table<M: Levels>(frames: &Frames, root: FrameNo, page: Vpn) -> (u32, FrameNo)
    requires forest { IsForest frames.now }
    requires root { IsRoot (top_level M.mode) frames.now root.0 }
    ensures last { (result.0, result.1.0) ≡ last_table frames.now page (top_level M.mode) root.0 }
    ensures range { result.0 ≤ top_level M.mode }
    ensures table { IsTable frames.now result.1.0 }
{
    let (level, table, _) = end_of_way::<M>(frames, root, page);
    (level, table)
}

/// The number at place `index` of a lowest table: that of the page that stands there, in each tree.
pub fn number_in(frames: &Frames, table: FrameNo, index: usize) -> Pte
    requires table { IsTable frames.now table.0 }
    requires below { index < table_entries }
    ensures { (top root page : ℕ) → IsTableOf frames.now top root (page / table_entries) table.0 → page % table_entries ≡ index
        → result.0 ≡ page_entry frames.now top root page }
{
    read_entry(frames, table, index)
}

/// Makes `entry` what stands at place `index` of a lowest table: that of the page there, and of no other page.
pub fn set_in(frames: &mut Frames, table: FrameNo, index: usize, entry: Entry)
    requires forest { IsForest frames.old }
    requires table { IsTable frames.old table.0 }
    requires below { index < table_entries }
    requires form { IsEntry entry }
    ensures sets { (top root page : ℕ) → IsRoot top frames.old root → IsPage top page → IsTableOf frames.old top root (page / table_entries) table.0
        → page % table_entries ≡ index → SetsEntry frames.old frames.new top root page (number_of entry) }
    ensures kept { KeepsFrames frames.old frames.new }
    ensures sound { IsSound frames.new }
{
    write_entry(frames, table, index, encode(entry));
}

// Where the way to a page ends: the level, the table, and the table before it, if it isn't the root.
fn end_of_way<M: Levels>(frames: &Frames, root: FrameNo, page: Vpn) -> (u32, FrameNo, FrameNo)
    requires forest { IsForest frames.now }
    requires root { IsRoot (top_level M.mode) frames.now root.0 }
    ensures { EndsWay frames.now (top_level M.mode) root.0 page result.0 result.1.0 result.2.0 }
{
    // (brings in that memory is sound, so that the numbers of its frames are small)
    let _ = frames.len();
    let number = page.get();
    let mut table = root;
    let mut parent = root;
    let mut level = M::top_level();
    while level > 0 {
        let entry = read_entry(frames, table, table_index(number, level));
        // What stands above the lowest level of a tree and is valid points to a table.
        if !entry.is_valid() {
            return (level, table, parent);
        }
        parent = table;
        table = entry.frame_number();
        level -= 1;
    }
    (0, table, parent)
}

// Writes one entry of a table.
fn write_entry(frames: &mut Frames, table: FrameNo, index: usize, number: Pte)
    requires table { IsTable frames.old table.0 }
    requires below { index < table_entries }
    ensures change { ChangesEntry frames.old frames.new table.0 index number.0 }
    ensures sound { IsSound frames.new }
{
    put_number(frames.bytes_mut(table), index, number.to_u64());
    let _ = frames.len();
}

// Writes one number of a frame's 512.
fn put_number(bytes: &mut [u8; 4096], index: usize, number: u64)
    requires { index < table_entries }
    ensures { PutsNumber bytes.old bytes.new index number }
{
    LittleEndian::write_u64(&mut bytes[8 * index..], number);
}
