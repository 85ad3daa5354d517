//! The share counts of slots.
ghost use Rattle.std.specs.Prelude.{◌≡◌, ℕ, ◌+◌, ◌-◌, ◌<◌, ◌≤◌, length, replicate, slice_set, IfOk, IfSome, IfNone};
ghost use Rattle.vm_types.specs.Processes.{process_limit};
ghost use Rattle.swap.specs.Counts.{count_at, free_count, AreSoundCounts};

use std::alloc::{AllocError, Global};
use std::marker::Model;

/// The share count of each slot, 0 where it is free. Contracts see the list of them.
#[derive(Drop)]
pub struct ShareCounts {
    counts: Vec<u8>,
    /// The free slots, in no order. Its last is found, taken and given back without a search.
    free: Vec<u32>,
}

impl Model for ShareCounts {
    ghost use Rattle.std.specs.Prelude.{List, ℕ};

    ghost Value = { List ℕ };

    ghost use Rattle.swap.specs.Inside.{counts_of, StacksFreeSlots};

    ghost view = { counts_of };

    ghost invariant = { StacksFreeSlots };
}

impl ShareCounts {
    /// This many slots, at most 65,536, all of them free.
    pub(crate) fn new(alloc: Global, slots: u32) -> Result<ShareCounts, AllocError>
        requires { slots ≤ 65536 }
        ensures zeros { IfOk result (λ counts. counts ≡ replicate slots 0) }
        ensures sound { IfOk result AreSoundCounts }
    {
        let mut counts = Vec::with_capacity(alloc, slots as usize)?;
        let mut free = Vec::with_capacity(alloc, slots as usize)?;
        for n in 0..slots {
            counts.push_reserved(0);
            free.push_reserved(slots - 1 - n); // the lowest last, so that it is taken first
        }
        Ok(ShareCounts { counts, free })
    }

    /// The number of slots.
    pub(crate) fn len(&self) -> u32
        ensures count { result ≡ length self.now }
        ensures sound { AreSoundCounts self.now }
    {
        self.counts.len() as u32
    }

    /// The share count of slot `n`.
    pub(crate) fn of(&self, n: u32) -> u8
        requires { n < length self.now }
        ensures { result ≡ count_at self.now n }
    {
        self.counts[n as usize]
    }

    /// The number of free slots.
    pub(crate) fn free_count(&self) -> u32
        ensures { result ≡ free_count self.now }
    {
        self.free.len() as u32
    }

    /// Takes a free slot, with one share; `None` exactly where none is free.
    pub(crate) fn take(&mut self) -> Option<u32>
        ensures inside { IfSome result (λ n. n < length self.old) }
        ensures was_free { IfSome result (λ n. count_at self.old n ≡ 0) }
        ensures taken { IfSome result (λ n. self.new ≡ slice_set self.old n 1) }
        ensures none { IfNone result ((n : ℕ) → n < length self.old → 0 < count_at self.old n) }
        ensures same { IfNone result (self.new ≡ self.old) }
        ensures sound { AreSoundCounts self.new }
    {
        let n = self.free.pop()?;
        self.counts[n as usize] = 1;
        Some(n)
    }

    /// One share more of slot `n`.
    pub(crate) fn raise(&mut self, n: u32)
        requires in_use { 0 < count_at self.old n }
        requires few { count_at self.old n < process_limit }
        ensures raised { self.new ≡ slice_set self.old n (count_at self.old n + 1) }
        ensures sound { AreSoundCounts self.new }
    {
        self.counts[n as usize] += 1;
    }

    /// One share less of slot `n`.
    pub(crate) fn lower(&mut self, n: u32)
        requires { 0 < count_at self.old n }
        ensures lowered { self.new ≡ slice_set self.old n (count_at self.old n - 1) }
        ensures sound { AreSoundCounts self.new }
    {
        let at = n as usize;
        self.counts[at] -= 1;
        if self.counts[at] == 0 {
            self.free.push_reserved(n);
        }
    }
}
