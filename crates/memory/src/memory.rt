//! Frames, and the lines that say what their tables say.
ghost use Rattle.std.specs.Prelude.{ℕ, ◌≡◌, ◌≢◌, ◌+◌, ◌<◌, ◌≤◌, ◌↔◌, Some, IfOk, IfSome, IsNone, OnErr, IsErr, IsTrue, true};
ghost use Rattle.frames.specs.declared.role.Role.TheVariants.{Table};
ghost use Rattle.frames.specs.FrameTable.{IsFrame, role_of};
ghost use Rattle.memory.specs.Lines.{line_at};

use crate::notes::Notes;
use crate::{Line, TranslationBuffer};
use frames::{Frames, Role};
use std::alloc::{AllocError, Global};
use std::marker::{Model, PhantomData};
use vm_types::{FrameNo, Levels, NoFree};

/// Physical memory of 8 to 65,536 frames, as `Frames`, whose page tables are those of the mode, with a buffer of translations, and for each frame a
/// note of 16 bytes that says which pages may name it. In contracts it is the bytes, the role and the share count of each frame: no call but `hits`
/// and `line` tells what the buffer has, and none but `kinds_over` and `page_over` what is noted.
#[derive(Drop)]
pub struct Memory<M: Levels> {
    pub(crate) frames: Frames,
    pub(crate) buffer: TranslationBuffer,
    pub(crate) hits: u64,
    pub(crate) notes: Notes,
    pub(crate) levels: PhantomData<M>,
}

impl<M: Levels> Model for Memory<M> {
    ghost use Rattle.frames.specs.FrameTable.{FrameTable};
    ghost use Rattle.memory.specs.Kept.{LinesAreLeaves};
    ghost use Rattle.memory.specs.Lines.{AreHits};
    ghost use Rattle.memory.specs.Notes.{AreNoted};

    ghost Value = { FrameTable };

    ghost view = { λ m. m.frames };

    ghost invariant = { λ m. LinesAreLeaves M.mode m.frames m.buffer × AreNoted M.mode m.frames m.notes × AreHits m.hits m.buffer };
}

impl<M: Levels> Memory<M> {
    ghost use Rattle.std.specs.Borrow.{sem};
    ghost use Rattle.frames.specs.declared.role.Role.TheVariants.{Free, Private};
    ghost use Rattle.frames.specs.FrameTable.{frame_count, bytes_of, count_of, AreWhole, IsSound, IsFresh, IsFull, IsHeld, is_handed_out, Takes, Shares, Releases, with_bytes};
    ghost use Rattle.page_tables.specs.Tree.{IsSpare};
    ghost use Rattle.memory.specs.Kept.{IsLeafOf};
    ghost use Rattle.memory.specs.Lines.{line_place};
    ghost use Rattle.memory.specs.Lending.{LendsMemoryFrame};

    /// Memory of `count` frames, 8 to 65,536, all of them free but frame 0.
    pub fn new(alloc: Global, count: u32) -> Result<Memory<M>, AllocError>
        requires least { 8 ≤ count }
        requires most { count ≤ 65536 }
        ensures fresh { IfOk result (λ memory. IsFresh memory count) }
        ensures sound { IfOk result IsSound }
    {
        let notes = Notes::new(alloc, count)?;
        Ok(Memory {
            notes,
            frames: Frames::new(alloc, count)?,
            buffer: TranslationBuffer::new(),
            hits: 0,
            levels: PhantomData,
        })
    }

    /// How many walks found their page's line in the buffer; it stays at its greatest value. That it is so is part of the invariant. No clause
    /// says it, since none says which lines there are.
    pub fn hits(&self) -> u64 {
        self.hits
    }

    /// The line at place `index`, under 64, of the buffer: the leaf in which the walk to its page ends. That there is one no clause says.
    pub fn line(&self, index: usize) -> Option<Line>
        requires { index < 64 }
        ensures leaf { IfSome result (λ line. IsLeafOf M.mode self.now line.root.0 line.page line.leaf.0) }
        ensures place { IfSome result (λ line. line_place line.page ≡ index) }
    {
        self.buffer.line(index)
    }

    /// The number of frames, 8 to 65,536. The clauses `sound` and `whole` are what is true of memory at all times.
    pub fn len(&self) -> u32
        ensures count { result ≡ frame_count self.now }
        ensures sound { IsSound self.now }
        ensures whole { AreWhole self.now }
    {
        self.frames.len()
    }

    /// What frame `n` is used for.
    pub fn role(&self, n: FrameNo) -> Role
        requires { IsFrame self.now n.0 }
        ensures { result ≡ role_of self.now n.0 }
    {
        self.frames.role(n)
    }

    /// How many share frame `n`: 0 where it is free or the zero page, 1 for a table and a page of a file, and 1 to 64
    /// for a private page.
    pub fn count(&self, n: FrameNo) -> u8
        requires { IsFrame self.now n.0 }
        ensures { result ≡ count_of self.now n.0 }
    {
        self.frames.count(n)
    }

    /// The bytes of frame `n`.
    pub fn bytes(&self, n: FrameNo) -> &[u8; 4096]
        requires { IsFrame self.now n.0 }
        ensures { result.now ≡ bytes_of self.now n.0 }
    {
        self.frames.bytes(n)
    }

    /// The bytes of frame `n`, to be changed. All other frames stay as they are, and so do all roles and counts.
    pub fn bytes_mut(&mut self, n: FrameNo) -> &mut [u8; 4096]
        requires { IsHeld self.old n.0 }
        ensures* writes_back { sem 𝓛 (LendsMemoryFrame M.row M.Levels self.entry n.0 result) }
        ensures value { result.now ≡ bytes_of self.old n.0 }
    {
        forget_table(&self.frames, &mut self.buffer, &mut self.notes, n);
        self.frames.bytes_mut(n)
    }

    /// Gives frame `to` the bytes of frame `from`.
    pub fn copy(&mut self, from: FrameNo, to: FrameNo)
        requires source { IsFrame self.old from.0 }
        requires target { IsHeld self.old to.0 }
        ensures copied { self.new ≡ with_bytes self.old to.0 (bytes_of self.old from.0) }
        ensures sound { IsSound self.new }
    {
        forget_table(&self.frames, &mut self.buffer, &mut self.notes, to);
        self.frames.copy(from, to);
    }

    /// A free frame, filled with zeros, for that role, which is `Table`, `Private` or `Cache`. Its share count is 1.
    ///
    /// # Errors
    /// `NoFree` exactly where no frame is free; then nothing changes.
    pub fn take(&mut self, role: Role) -> Result<FrameNo, NoFree>
        requires { IsTrue (is_handed_out role) }
        ensures taken { IfOk result (λ n. Takes self.old self.new role n.0) }
        ensures none_free { IsErr result ↔ IsFull self.old }
        ensures err { OnErr result (self.new ≡ self.old) }
        ensures sound { IsSound self.new }
    {
        self.frames.take(role)
    }

    /// A free frame; `None` exactly where no frame is free.
    pub fn next_free(&self) -> Option<FrameNo>
        ensures some { IfSome result (λ n. IsFrame self.now n.0 × (role_of self.now n.0 ≡ Free)) }
        ensures none { IsNone result ↔ IsFull self.now }
    {
        self.frames.next_free()
    }

    /// One more process shares the private frame `n`, which fewer than 64 share.
    pub fn share(&mut self, n: FrameNo)
        requires inside { IsFrame self.old n.0 }
        requires private { role_of self.old n.0 ≡ Private }
        requires room { count_of self.old n.0 < 64 }
        ensures change { Shares self.old self.new n.0 }
        ensures sound { IsSound self.new }
    {
        self.frames.share(n);
    }

    /// One less shares frame `n`. Where nobody is left the frame is free, and its bytes are lost: a table and a page of a
    /// file at once. With a table every line is dropped.
    pub fn release(&mut self, n: FrameNo)
        requires { IsHeld self.old n.0 }
        ensures change { Releases self.old self.new n.0 }
        ensures alone { role_of self.old n.0 ≢ Private → role_of self.new n.0 ≡ Free }
        ensures sound { IsSound self.new }
    {
        forget_table(&self.frames, &mut self.buffer, &mut self.notes, n);
        self.frames.release(n);
    }

    /// Gives back a table without entries that is in no tree, as a root when its process ends. No line hangs on it, so all stay.
    pub fn release_root(&mut self, root: FrameNo)
        requires { IsSpare self.old root.0 }
        ensures change { Releases self.old self.new root.0 }
        ensures free { role_of self.new root.0 ≡ Free }
        ensures sound { IsSound self.new }
    {
        self.frames.release(root);
    }
}

// Drops all lines before frame `n` is changed, if it is a table, since nothing says then which hang on it; and no note is sure any more.
fn forget_table(frames: &Frames, buffer: &mut TranslationBuffer, notes: &mut Notes, n: FrameNo)
    requires { IsFrame frames.now n.0 }
    ensures lines { (root page leaf : ℕ) → line_at buffer.new root page ≡ Some leaf
        → (line_at buffer.old root page ≡ Some leaf) × (role_of frames.now n.0 ≢ Table) }
    ensures kept { role_of frames.now n.0 ≢ Table → buffer.new ≡ buffer.old }
    ensures unfound { buffer.new.found ≡ buffer.old.found }
    ensures each { notes.new.each ≡ notes.old.each }
    ensures whole { notes.new.whole ≡ true → (notes.old.whole ≡ true) × (role_of frames.now n.0 ≢ Table) }
{
    if frames.role(n) == Role::Table {
        buffer.drop_all();
        notes.whole = false;
    }
}
