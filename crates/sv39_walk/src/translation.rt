//! The walk from a root through tables to a physical address, or to the reason why there is none.
ghost use Rattle.std.specs.Prelude.{◌≡◌, ◌<◌, ◌≤◌, ◌%◌, ◌^◌, ◌==◌, true, false, MatchOption};
ghost use Rattle.vm_types.specs.Limits.{top_level, table_entries};
ghost use Rattle.sv39_walk.specs.Entry.{frame_of};
ghost use Rattle.frames.specs.FrameTable.{IsFrame, frame_count};
ghost use Rattle.sv39_walk.specs.Walk.{translated, is_canonical, last_of, answer_of, index_of, leads_on};

use crate::TABLE_ENTRIES;
use crate::pte::{Pte, read_entry};
use frames::Frames;
use thiserror::Error;
use vm_types::{Access, FrameNo, Levels, Phys};

/// Why an address has no physical address. Each is a page fault (RISC-V Privileged Specification, "Virtual Address
/// Translation Process"); the names and their order are our own. `Display` gives its name.
#[derive(Clone, Copy, Debug, PartialEq, Eq, Error)]
pub enum WalkFault {
    /// Bits 63 to 39 of the address differ from bit 38; in Sv48 bits 63 to 48 from bit 47.
    #[error("NONCANONICAL")]
    NonCanonical = 1,
    /// V is clear.
    #[error("INVALID")]
    Invalid = 2,
    /// W without R, or one of bits 54 to 63.
    #[error("RESERVED")]
    Reserved = 3,
    /// A pointer at the lowest level.
    #[error("TOODEEP")]
    TooDeep = 4,
    /// The root, the next table or the page lies outside memory.
    #[error("OUTSIDE")]
    Outside = 5,
    /// A leaf above the lowest level whose low bits of the physical page number aren't zero.
    #[error("MISALIGNED")]
    Misaligned = 6,
    /// U is clear, or the leaf lacks the access.
    #[error("DENIED")]
    Denied = 7,
    /// A is clear.
    #[error("NOTACCESSED")]
    NotAccessed = 8,
    /// A store where D is clear.
    #[error("NOTDIRTY")]
    NotDirty = 9,
}

/// Where an access to the address in user mode goes, by the tables that begin in frame `root`. Nothing is asked of the
/// bytes of memory, the root or the address. At most three entries are read, in Sv48 four.
///
/// # Errors
/// The reason, exactly where there is one.
#[tactic(auto, unfolding(crate::specs::Walk::translated))]
pub fn walk<M: Levels>(
    frames: &Frames,
    root: FrameNo,
    addr: u64,
    access: Access,
) -> Result<Phys, WalkFault>
    ensures { result ≡ translated (top_level M.mode) frames.now root.0 addr access }
{
    if !canonical(M::top_level(), addr) {
        return Err(WalkFault::NonCanonical);
    }
    if root.0 >= frames.len() {
        return Err(WalkFault::Outside);
    }
    let (level, last) = last_entry::<M>(frames, root, addr / 4096);
    answer(frames.len(), addr, access, level, last)
}

fn canonical(top: u32, addr: u64) -> bool
    requires { (2 ≤ top) × (top ≤ 3) }
    ensures { result ≡ is_canonical top addr }
{
    if top == 2 {
        canonical_sv39(addr)
    } else {
        canonical_sv48(addr)
    }
}

#[tactic(auto, unfolding(crate::specs::Walk::is_canonical))]
fn canonical_sv39(addr: u64) -> bool
    ensures { result ≡ is_canonical 2 addr }
{
    let high = addr >> 38;
    high == 0 || high == 0x3ff_ffff
}

#[tactic(auto, unfolding(crate::specs::Walk::is_canonical))]
fn canonical_sv48(addr: u64) -> bool
    ensures { result ≡ is_canonical 3 addr }
{
    let high = addr >> 47;
    high == 0 || high == 0x1_ffff
}

// The last entry on the way to the page, and its level.
fn last_entry<M: Levels>(frames: &Frames, root: FrameNo, page: u64) -> (u32, Pte)
    requires { IsFrame frames.now root.0 }
    ensures last { result.1.0 ≡ (last_of frames.now page (top_level M.mode) root.0).1 }
    ensures level { result.0 ≡ (last_of frames.now page (top_level M.mode) root.0).0 }
    ensures in_levels { result.0 ≤ 3 }
{
    let mut table = root;
    let mut level = M::top_level();
    while level > 0 {
        let entry = read_entry(frames, table, table_index(page, level));
        match next_table(frames, entry) {
            Some(next) => table = next,
            None => return (level, entry),
        }
        level -= 1;
    }
    (0, read_entry(frames, table, table_index(page, 0)))
}

// The table that an entry leads on to; `None` exactly where the entry is no pointer or points outside memory.
fn next_table(frames: &Frames, entry: Pte) -> Option<FrameNo>
    ensures { MatchOption result (leads_on frames.now entry.0 ≡ false)
        (λ next. (leads_on frames.now entry.0 ≡ true) × (next.0 ≡ frame_of entry.0) × IsFrame frames.now next.0) }
{
    if entry.is_pointer() && entry.frame() < u64::from(frames.len()) {
        Some(FrameNo(entry.frame() as u32))
    } else {
        None
    }
}

/// The place of a page's entry in a table of that level, under 512: the field `VPN[level]` of the page's number.
#[tactic(auto, unfolding(crate::specs::Walk::index_of))]
pub fn table_index(page: u64, level: u32) -> usize
    requires { level ≤ 3 }
    ensures index { result ≡ index_of page level }
    ensures range { result < table_entries }
{
    (page / leaf_pages(level) % TABLE_ENTRIES) as usize
}

// How many pages a leaf of that level covers.
fn leaf_pages(level: u32) -> u64
    requires { level ≤ 3 }
    ensures pages { result ≡ table_entries ^ level }
    ensures positive { 0 < result }
{
    match level {
        0 => 1,
        1 => TABLE_ENTRIES,
        2 => TABLE_ENTRIES * TABLE_ENTRIES,
        _ => TABLE_ENTRIES * TABLE_ENTRIES * TABLE_ENTRIES,
    }
}

// What the last entry says of the address.
#[tactic(auto, unfolding(crate::specs::Walk::answer_of, crate::specs::Walk::frame_in))]
fn answer(count: u32, addr: u64, access: Access, level: u32, last: Pte) -> Result<Phys, WalkFault>
    requires { level ≤ 3 }
    ensures { result ≡ answer_of count addr access level last.0 }
{
    if !last.is_valid() {
        return Err(WalkFault::Invalid);
    }
    if last.is_reserved() {
        return Err(WalkFault::Reserved);
    }
    if !last.is_leaf() {
        return Err(if level == 0 {
            WalkFault::TooDeep
        } else {
            WalkFault::Outside
        });
    }
    let pages = leaf_pages(level);
    if !is_aligned(last, pages) {
        return Err(WalkFault::Misaligned);
    }
    if !last.is_user() || !last.grants(access) {
        return Err(WalkFault::Denied);
    }
    if !last.is_accessed() {
        return Err(WalkFault::NotAccessed);
    }
    if access == Access::Store && !last.is_dirty() {
        return Err(WalkFault::NotDirty);
    }
    let frame = last.frame() / pages * pages + addr / 4096 % pages;
    if frame >= u64::from(count) {
        return Err(WalkFault::Outside);
    }
    Ok(Phys(frame * 4096 + addr % 4096))
}

// Whether the low bits of the physical page number, those of a page's own field in a leaf of that many pages, are zero.
fn is_aligned(leaf: Pte, pages: u64) -> bool
    requires { 0 < pages }
    ensures { result ≡ (frame_of leaf.0 % pages == 0) }
{
    leaf.frame() % pages == 0
}
