//! The faults of accesses that a machine keeps.
ghost use Rattle.std.specs.Prelude.{◌≡◌, ◌<◌, ◌≤◌, ◌∷◌, [], ◌++◌, length, take, IfOk};
ghost use Rattle.vm_types.specs.History.{with_fault};

use circular_buffer::HeapCircularBuffer;
use std::alloc::{AllocError, Global};
use std::marker::Model;
use vm_types::{FAULTS, Fault, History, Pid};

/// The last faults of accesses, oldest first, each with its process: 16 at most. In contracts it is their list.
#[derive(Drop)]
pub(crate) struct FaultLog {
    faults: HeapCircularBuffer<(Pid, Fault)>,
}

impl Model for FaultLog {
    ghost use Rattle.std.specs.Prelude.{ℕ, List, length, ◌≤◌, ◌≡◌};
    ghost use Rattle.vm_types.specs.declared.refusal.Fault.{Fault};
    ghost use Rattle.vm_types.specs.Limits.{fault_limit};

    ghost Value = { List (ℕ × Fault) };

    ghost view = { λ l. l.faults.items };

    ghost invariant = { λ l. l.faults.capacity ≡ fault_limit };
}

impl FaultLog {
    /// A log of no fault, with all the memory that it will ever need.
    pub(crate) fn new(alloc: Global) -> Result<FaultLog, AllocError>
        ensures { IfOk result (λ log. log ≡ []) }
    {
        let faults = HeapCircularBuffer::with_capacity(alloc, FAULTS)?;
        Ok(FaultLog { faults })
    }

    /// Adds a fault; of 17 the oldest is dropped.
    pub(crate) fn note(&mut self, pid: Pid, fault: Fault)
        ensures { self.new ≡ with_fault self.old pid fault }
    {
        self.faults.push_back((pid, fault));
    }

    /// The faults, as a reply has them.
    pub(crate) fn history(&self) -> History
        ensures { result ≡ self.now }
    {
        let mut history = History::new();
        // There are at most 16 (brings in that the buffer is sound).
        let _ = self.faults.len();
        for (pid, fault) in self.faults.iter() {
            history.push(*pid, *fault);
        }
        history
    }
}
