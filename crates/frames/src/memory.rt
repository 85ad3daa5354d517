//! Frames in one block of memory. Free frames are chained through their own first four bytes, so no call but `new`
//! takes memory, and each touches one frame.
ghost use Rattle.std.specs.Prelude.{ℕ, ◌≡◌, ◌≢◌, ◌+◌, ◌<◌, ◌≤◌, ◌↔◌, [], length, slice_index_or, IfOk, IfSome, IsNone, OnErr, IsErr, IsTrue};
ghost use Rattle.frames.specs.FrameTable.{zero_bytes};

use crate::role::Role;
use byteorder::{ByteOrder, LittleEndian};
use std::alloc::{AllocError, Global};
use std::marker::Model;
use vm_types::{FrameNo, NoFree};

/// Physical memory of 8 to 65,536 frames of 4,096 bytes. Frame 0 is the zero page: it is never handed out and never
/// written. In contracts it is the bytes, the role and the share count of each frame.
#[derive(Drop)]
pub struct Frames {
    bytes: Vec<[u8; 4096]>,
    roles: Vec<Role>,
    counts: Vec<u8>,
    first_free: u32,
}

impl Model for Frames {
    ghost use Rattle.frames.specs.FrameTable.{FrameTable};

    ghost Value = { FrameTable };

    ghost use Rattle.frames.specs.Inside.{table_of, IsWholeMemory};

    ghost view = { table_of };

    ghost invariant = { IsWholeMemory };
}

impl Frames {
    ghost use Rattle.std.specs.Borrow.{sem};
    ghost use Rattle.frames.specs.declared.role.Role.TheVariants.{Free, Private};
    ghost use Rattle.frames.specs.FrameTable.{frame_count, bytes_of, role_of, count_of, AreWhole, IsFrame, IsSound, IsFresh, IsFull, IsHeld, is_handed_out, Takes, Shares, Releases, with_bytes};
    ghost use Rattle.frames.specs.Lending.{LendsFrame};
    ghost use Rattle.frames.specs.Chain.{IsAllTables};
    ghost use Rattle.vm_types.specs.Processes.{process_limit};

    /// Memory of `count` frames, 8 to 65,536, all of them free but frame 0.
    pub fn new(alloc: Global, count: u32) -> Result<Frames, AllocError>
        requires least { 8 ≤ count }
        requires most { count ≤ 65536 }
        ensures fresh { IfOk result (λ frames. IsFresh frames count) }
        ensures sound { IfOk result IsSound }
    {
        let mut frames = Frames::all_tables(alloc, count)?;
        for n in (1..count).rev() {
            frames.release(FrameNo(n));
        }
        Ok(frames)
    }

    /// The number of frames, 8 to 65,536. The clauses `sound` and `whole` are what is true of memory at all times.
    pub fn len(&self) -> u32
        ensures count { result ≡ frame_count self.now }
        ensures sound { IsSound self.now }
        ensures whole { AreWhole self.now }
    {
        count_pages(&self.bytes) as u32
    }

    /// What frame `n` is used for.
    pub fn role(&self, n: FrameNo) -> Role
        requires { IsFrame self.now n.0 }
        ensures { result ≡ role_of self.now n.0 }
    {
        self.roles[n.0 as usize]
    }

    /// How many share frame `n`: 0 where it is free or the zero page, 1 for a table and a page of a file, and 1 to 64
    /// for a private page.
    pub fn count(&self, n: FrameNo) -> u8
        requires { IsFrame self.now n.0 }
        ensures { result ≡ count_of self.now n.0 }
    {
        self.counts[n.0 as usize]
    }

    /// The bytes of frame `n`.
    pub fn bytes(&self, n: FrameNo) -> &[u8; 4096]
        requires { IsFrame self.now n.0 }
        ensures { result.now ≡ bytes_of self.now n.0 }
    {
        &self.bytes[n.0 as usize]
    }

    /// The bytes of frame `n`, to be changed. All other frames stay as they are, and so do all roles and counts.
    pub fn bytes_mut(&mut self, n: FrameNo) -> &mut [u8; 4096]
        requires { IsHeld self.old n.0 }
        ensures* writes_back { sem 𝓛 (LendsFrame self.entry n.0 result) }
        ensures value { result.now ≡ bytes_of self.old n.0 }
    {
        &mut self.bytes[n.0 as usize]
    }

    /// Gives frame `to` the bytes of frame `from`.
    pub fn copy(&mut self, from: FrameNo, to: FrameNo)
        requires source { IsFrame self.old from.0 }
        requires target { IsHeld self.old to.0 }
        ensures copied { self.new ≡ with_bytes self.old to.0 (bytes_of self.old from.0) }
        ensures sound { IsSound self.new }
    {
        let from = from.0 as usize;
        self.bytes.copy_within(from..from + 1, to.0 as usize);
    }

    /// A free frame, filled with zeros, for that role, which is `Table`, `Private` or `Cache`. Its share count is 1.
    ///
    /// # Errors
    /// `NoFree` exactly where no frame is free; then nothing changes.
    pub fn take(&mut self, role: Role) -> Result<FrameNo, NoFree>
        requires { IsTrue (is_handed_out role) }
        ensures taken { IfOk result (λ n. Takes self.old self.new role n.0) }
        ensures none_free { IsErr result ↔ IsFull self.old }
        ensures err { OnErr result (self.new ≡ self.old) }
        ensures sound { IsSound self.new }
    {
        let n = self.first_free;
        if n == 0 {
            return Err(NoFree);
        }
        let frame = &mut self.bytes[n as usize];
        self.first_free = LittleEndian::read_u32(frame);
        clear(frame);
        self.roles[n as usize] = role;
        self.counts[n as usize] = 1;
        Ok(FrameNo(n))
    }

    /// A free frame; `None` exactly where no frame is free.
    pub fn next_free(&self) -> Option<FrameNo>
        ensures some { IfSome result (λ n. IsFrame self.now n.0 × (role_of self.now n.0 ≡ Free)) }
        ensures none { IsNone result ↔ IsFull self.now }
    {
        if self.first_free == 0 {
            None
        } else {
            Some(FrameNo(self.first_free))
        }
    }

    /// One more process shares the private frame `n`, which fewer than 64 share.
    pub fn share(&mut self, n: FrameNo)
        requires inside { IsFrame self.old n.0 }
        requires private { role_of self.old n.0 ≡ Private }
        requires room { count_of self.old n.0 < process_limit }
        ensures change { Shares self.old self.new n.0 }
        ensures sound { IsSound self.new }
    {
        let at = n.0 as usize;
        self.counts[at] += 1;
    }

    /// One less shares frame `n`. Where nobody is left the frame is free, and its bytes are lost: a table and a page of a
    /// file at once.
    pub fn release(&mut self, n: FrameNo)
        requires { IsHeld self.old n.0 }
        ensures change { Releases self.old self.new n.0 }
        ensures alone { role_of self.old n.0 ≢ Private → role_of self.new n.0 ≡ Free }
        ensures sound { IsSound self.new }
    {
        let at = n.0 as usize;
        self.counts[at] -= 1;
        if self.counts[at] == 0 {
            LittleEndian::write_u32(&mut self.bytes[at], self.first_free);
            self.roles[at] = Role::Free;
            self.first_free = n.0;
        }
    }

    // Memory in which every frame but the zero page is a table of zeros.
    fn all_tables(alloc: Global, count: u32) -> Result<Frames, AllocError>
        requires least { 8 ≤ count }
        requires most { count ≤ 65536 }
        ensures tables { IfOk result (λ frames. IsAllTables frames count 1 count) }
        ensures sound { IfOk result IsSound }
    {
        let mut bytes = Vec::with_capacity(alloc, count as usize)?;
        let mut roles = Vec::with_capacity(alloc, count as usize)?;
        let mut counts = Vec::with_capacity(alloc, count as usize)?;
        bytes.push_reserved([0; 4096]);
        roles.push_reserved(Role::Zero);
        counts.push_reserved(0);
        for n in 1..count {
            bytes.push_reserved([0; 4096]);
            roles.push_reserved(Role::Table);
            counts.push_reserved(1);
        }
        Ok(Frames {
            bytes,
            roles,
            counts,
            first_free: 0,
        })
    }
}

// Fills a frame with zeros.
#[tactic(auto, unfolding(crate::specs::FrameTable::zero_bytes))]
fn clear(frame: &mut [u8; 4096])
    ensures { frame.new ≡ zero_bytes }
{
    *frame = [0; 4096];
}

/// How many pages these are, each of which has 4,096 bytes.
fn count_pages(pages: &[[u8; 4096]]) -> usize
    ensures count { result ≡ length pages.now }
    ensures whole { (n : ℕ) → n < length pages.now → length (slice_index_or pages.now n []) ≡ 4096 }
{
    pages.len()
}
