//! For each frame, which pages of which trees may name it.
ghost use Rattle.std.specs.Prelude.{ℕ, ◌≡◌, ◌≢◌, ◌<◌, ◌⊎◌, true, false, IfOk, IfSome, IsNone, length, slice_index_or};
ghost use Rattle.vm_types.specs.Limits.{user_end};
ghost use Rattle.frames.specs.FrameTable.{IsFrame};
ghost use Rattle.sv39_walk.specs.Entry.{frame_of, is_private, is_swapped};
ghost use Rattle.page_tables.specs.Entry.{IsEntry, number_of};
ghost use Rattle.memory.specs.Notes.{Covers, HasKind, NamesFrame, no_note};

use crate::memory::Memory;
use page_tables::Entry;
use std::alloc::{AllocError, Global};
use vm_types::{FrameNo, Levels, Vpn};

// Roots whose numbers are equal modulo this are of one kind.
const KINDS: u32 = 64;

/// The pages that may name a frame, not as their processes' own: those of the trees whose roots are of these kinds, one bit a kind, and
/// only the one page, where that isn't 0.
#[derive(Clone, Copy, Debug)]
pub(crate) struct Note {
    pub(crate) kinds: u64,
    pub(crate) page: u64,
}

/// A note for each frame.
#[derive(Drop)]
pub(crate) struct Notes {
    pub(crate) each: Vec<Note>,
    /// Whether they are whole: a table whose bytes were changed by hand may say anything.
    pub(crate) whole: bool,
}

impl Note {
    // This page too.
    fn add(self, root: FrameNo, page: Vpn) -> Note
        ensures added { Covers result root.0 page }
        ensures kept { (r p : ℕ) → Covers self r p → Covers result r p }
    {
        let page = page.get();
        let same = self.kinds == 0 || self.page == page;
        Note {
            kinds: self.kinds | 1 << (root.0 % KINDS),
            page: if same { page } else { 0 },
        }
    }
}

impl Notes {
    /// No page names any of so many frames.
    pub(crate) fn new(alloc: Global, count: u32) -> Result<Notes, AllocError>
        ensures { IfOk result (λ notes. length notes.each.items ≡ count) }
    {
        let mut each = Vec::with_capacity(alloc, count as usize)?;
        for n in 0..count {
            each.push_reserved(Note { kinds: 0, page: 0 });
        }
        Ok(Notes { each, whole: true })
    }

    /// Notes that the page names the frame that the entry names, where that is one.
    pub(crate) fn add(&mut self, root: FrameNo, page: Vpn, entry: Entry)
        requires { IsEntry entry }
        ensures count { length self.new.each.items ≡ length self.old.each.items }
        ensures whole { self.new.whole ≡ self.old.whole }
        ensures added { number_of entry ≢ 0 → is_swapped (number_of entry) ≡ false → is_private (number_of entry) ≡ false → frame_of (number_of entry) < length self.old.each.items
            → Covers (slice_index_or self.new.each.items (frame_of (number_of entry)) no_note) root.0 page }
        ensures kept { (n r p : ℕ) → Covers (slice_index_or self.old.each.items n no_note) r p → Covers (slice_index_or self.new.each.items n no_note) r p }
    {
        if let Some(n) = named(entry) {
            if n < self.each.len() as u64 {
                self.each[n as usize] = self.each[n as usize].add(root, page);
            }
        }
    }
}

// The frame that an entry names, not as its process's own.
fn named(entry: Entry) -> Option<u64>
    requires { IsEntry entry }
    ensures some { IfSome result (λ n. n ≡ frame_of (number_of entry)) }
    ensures none { IsNone result → (number_of entry ≡ 0) ⊎ ((is_swapped (number_of entry) ≡ true) ⊎ (is_private (number_of entry) ≡ true)) }
{
    match entry {
        Entry::None => None,
        Entry::Leaf(leaf) => {
            if leaf.is_private() {
                None
            } else {
                Some(leaf.frame())
            }
        }
        Entry::Swapped(_) => None,
        Entry::Parked(frame, private) => {
            if private {
                None
            } else {
                Some(u64::from(frame.0))
            }
        }
    }
}

/// The kinds of the roots in whose trees a page may name the frame, not as its process's own.
pub fn kinds_over<M: Levels>(memory: &Memory<M>, frame: FrameNo) -> u64
    requires { IsFrame memory.now frame.0 }
    ensures { (root page : ℕ) → NamesFrame M.mode memory.now root page frame.0 → HasKind result root }
{
    if memory.notes.whole {
        memory.notes.each[frame.0 as usize].kinds
    } else {
        u64::MAX
    }
}

/// Whether the root is of one of these kinds.
pub fn is_kind(kinds: u64, root: FrameNo) -> bool
    ensures kind { result ≡ true → HasKind kinds root.0 }
    ensures other { result ≡ false → HasKind kinds root.0 → ⊥ }
{
    kinds >> (root.0 % KINDS) & 1 == 1
}

/// The one page that may name the frame, not as its process's own, in whichever tree; `None` where several may.
pub fn page_over<M: Levels>(memory: &Memory<M>, frame: FrameNo) -> Option<Vpn>
    requires { IsFrame memory.now frame.0 }
    ensures user { IfSome result (λ k. k < user_end M.mode) }
    ensures one { IfSome result (λ k. (root page : ℕ) → NamesFrame M.mode memory.now root page frame.0 → page ≡ k) }
{
    if memory.notes.whole {
        Vpn::new::<M>(memory.notes.each[frame.0 as usize].page)
    } else {
        None
    }
}

/// Notes that no page names the frame any more. Memory stays as it is.
pub fn forget_pages<M: Levels>(memory: &mut Memory<M>, frame: FrameNo)
    requires inside { IsFrame memory.old frame.0 }
    requires none { (root page : ℕ) → NamesFrame M.mode memory.old root page frame.0 → ⊥ }
    ensures same { memory.new ≡ memory.old }
{
    memory.notes.each[frame.0 as usize] = Note { kinds: 0, page: 0 };
}
