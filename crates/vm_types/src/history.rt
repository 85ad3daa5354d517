//! The faults that are kept.
ghost use Rattle.std.specs.Prelude.{◌≡◌, ◌<◌, ◌≤◌, ◌∷◌, [], ◌++◌, length};
ghost use Rattle.vm_types.specs.Limits.{fault_limit};

use crate::FAULTS;
use crate::number::Pid;
use crate::refusal::{Code, Fault};
use std::marker::Model;

/// The last faults of accesses, oldest first, each with its process: 16 at most. In contracts it is their list. The places
/// from `count` on are blank.
#[derive(Clone, Copy, Debug, PartialEq, Eq)]
pub struct History {
    count: u8,
    list: [(Pid, Fault); FAULTS],
}

impl Model for History {
    ghost use Rattle.std.specs.Prelude.{ℕ, List, take, drop, replicate, length, ◌++◌, ◌-◌, ◌≤◌, ◌≡◌};
    ghost use Rattle.vm_types.specs.declared.refusal.Fault.{Fault};
    ghost use Rattle.std.proofs.Common.{arith, ap, sym, ◌∙◌, length-take-le, take-append-drop};
    ghost use Rattle.vm_types.specs.Blank.{blank, filled};
    ghost use Rattle.vm_types.specs.Limits.{fault_limit};

    ghost Value = { List (ℕ × Fault) };

    ghost view = { λ h. take h.count h.list };

    ghost invariant = { λ h. (h.count ≤ fault_limit) × (length h.list ≡ fault_limit) × (drop h.count h.list ≡ replicate (fault_limit - h.count) blank) };

    ghost inverse = { λ xs. record { count = length xs; list = filled xs } };

    ghost inverse_ok = { λ a h i. let held = length-take-le a.count a.list (omega (arith, h.0, h.1)) in record {
      count = held i;
      list = (ap (λ n. take a.count a.list ++ replicate (fault_limit - n) blank) held ∙ ap (λ rest. take a.count a.list ++ rest) (sym h.2) ∙ take-append-drop a.count a.list) i;
    } };
}

impl History {
    /// No fault.
    pub fn new() -> History
        ensures { result ≡ [] }
    {
        let none = Fault {
            cause: 0,
            code: Code::BusAdraln,
            addr: 0,
        };
        History {
            count: 0,
            list: [(Pid::first(), none); FAULTS],
        }
    }

    /// Adds a later fault, for which there must be room.
    pub fn push(&mut self, pid: Pid, fault: Fault)
        requires { length self.old < fault_limit }
        ensures { self.new ≡ self.old ++ (pid, fault) ∷ [] }
    {
        self.list[usize::from(self.count)] = (pid, fault);
        self.count += 1;
    }

    /// The faults, oldest first.
    pub fn as_slice(&self) -> &[(Pid, Fault)]
        ensures list { result.now ≡ self.now }
        ensures few { length result.now ≤ fault_limit }
    {
        &self.list[..usize::from(self.count)]
    }
}
