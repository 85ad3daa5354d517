//! The lines, each at the place of its page.
ghost use Rattle.std.specs.Prelude.{ℕ, ◌+◌, ◌≡◌, ◌≢◌, ◌<◌, ◌%◌, ◌⊎◌, ◌^◌, Some, None, false, true, IfNone, IfSome, IsNone, MatchOption};
ghost use Rattle.sv39_walk.specs.Entry.{frame_of};
ghost use Rattle.memory.specs.Lines.{Agrees, Gives, leaf_lets, line_at, line_place};

use crate::line::Line;
use disk_model::Count;
use sv39_walk::Pte;
use vm_types::{Access, FrameNo, Vpn};

/// How many lines a buffer has at most: the pages whose numbers are equal modulo this have one place, for at most one line.
pub const LINES: usize = 64;

/// Translations that walks found, for the pages of all trees.
#[derive(Drop)]
pub struct TranslationBuffer {
    pub(crate) lines: [Option<Line>; LINES],
    /// How many looks have found a line, for contracts alone.
    pub(crate) found: Count,
}

impl TranslationBuffer {
    /// A buffer without a line.
    pub fn new() -> TranslationBuffer
        ensures none { (root page : ℕ) → line_at result root page ≡ None }
        ensures unfound { result.found.number ≡ 0 }
    {
        TranslationBuffer {
            lines: [None; LINES],
            found: Count::new(),
        }
    }

    /// The frame that an access to the page goes to in the tree of `root`; `None` exactly where no line of that page says so.
    /// It is the frame in which the walk ends, in each memory in which the lines are leaves of their pages (`agrees`).
    pub fn look(&mut self, root: FrameNo, page: Vpn, access: Access) -> Option<FrameNo>
        ensures agrees { IfSome result (λ frame. Agrees self.old root.0 page access frame.0) }
        ensures found { IfSome result (λ frame. Gives self.old root.0 page access frame.0) }
        ensures none { IsNone result → (leaf : ℕ) → line_at self.old root.0 page ≡ Some leaf → leaf_lets access leaf ≡ false }
        ensures lines { self.new.lines ≡ self.old.lines }
        ensures counts { MatchOption result (self.new.found ≡ self.old.found) (λ frame. self.new.found.number ≡ self.old.found.number + 1) }
    {
        let found = self.lines[place_of(page)];
        match found {
            Some(line) if line.root == root && line.page == page && lets(line.leaf, access) => {
                self.found.raise();
                Some(line.leaf.frame_number())
            }
            _ => None,
        }
    }

    /// The line at place `index`, under 64; `None` exactly where no page of that place has one.
    pub fn line(&self, index: usize) -> Option<Line>
        requires { index < 64 }
        ensures some { IfSome result (λ line. (line_place line.page ≡ index) × (line_at self.now line.root.0 line.page ≡ Some line.leaf.0)) }
        ensures none { IfNone result ((root page : ℕ) → line_place page ≡ index → line_at self.now root page ≡ None) }
    {
        match self.lines[index] {
            Some(line) if place_of(line.page) == index => Some(line),
            _ => None,
        }
    }

    /// Keeps the leaf of a page, in place of what its place had.
    pub fn keep(&mut self, root: FrameNo, page: Vpn, leaf: Pte)
        requires small { frame_of leaf.0 < 2 ^ 32 }
        ensures kept { line_at self.new root.0 page ≡ Some leaf.0 }
        ensures replaced { (r p : ℕ) → line_place p ≡ line_place page → (r ≢ root.0) ⊎ (p ≢ page) → line_at self.new r p ≡ None }
        ensures others { (r p : ℕ) → line_place p ≢ line_place page → line_at self.new r p ≡ line_at self.old r p }
        ensures unfound { self.new.found ≡ self.old.found }
    {
        self.lines[place_of(page)] = Some(Line { root, page, leaf });
    }

    /// Drops the line of a page of one tree.
    pub fn drop_page(&mut self, root: FrameNo, page: Vpn)
        ensures dropped { line_at self.new root.0 page ≡ None }
        ensures others { (r p : ℕ) → (r ≢ root.0) ⊎ (p ≢ page) → line_at self.new r p ≡ line_at self.old r p }
        ensures unfound { self.new.found ≡ self.old.found }
    {
        let place = place_of(page);
        if let Some(line) = self.lines[place] {
            if line.root == root && line.page == page {
                self.lines[place] = None;
            }
        }
    }

    /// Drops the line at place `index`, under 64, whichever page and tree it is of.
    pub fn drop_place(&mut self, index: usize)
        requires { index < 64 }
        ensures dropped { (r p : ℕ) → line_place p ≡ index → line_at self.new r p ≡ None }
        ensures others { (r p : ℕ) → line_place p ≢ index → line_at self.new r p ≡ line_at self.old r p }
        ensures unfound { self.new.found ≡ self.old.found }
    {
        self.lines[index] = None;
    }

    /// Drops all lines.
    pub(crate) fn drop_all(&mut self)
        ensures dropped { (root page : ℕ) → line_at self.new root page ≡ None }
        ensures unfound { self.new.found ≡ self.old.found }
    {
        let empty = TranslationBuffer::new();
        let lines = empty.lines;
        self.lines = lines;
    }

    /// Drops the lines of all pages of one tree.
    pub fn drop_root(&mut self, root: FrameNo)
        ensures dropped { (page : ℕ) → line_at self.new root.0 page ≡ None }
        ensures others { (r p : ℕ) → r ≢ root.0 → line_at self.new r p ≡ line_at self.old r p }
        ensures unfound { self.new.found ≡ self.old.found }
    {
        for place in 0..LINES {
            if let Some(line) = self.lines[place] {
                if line.root == root {
                    self.lines[place] = None;
                }
            }
        }
    }
}

/// Whether a page's leaf lets an access in user mode go through: V, U and A are set, its form isn't reserved, it grants the
/// access, and D is set where that is a store.
pub fn lets(leaf: Pte, access: Access) -> bool
    ensures { result ≡ leaf_lets access leaf.0 }
{
    leaf.is_valid()
        && !leaf.is_reserved()
        && leaf.is_leaf()
        && leaf.is_user()
        && leaf.grants(access)
        && leaf.is_accessed()
        && (access != Access::Store || leaf.is_dirty())
}

// The place of a page's line.
fn place_of(page: Vpn) -> usize
    ensures place { result ≡ line_place page }
    ensures range { result < 64 }
{
    (page.get() % LINES as u64) as usize
}
