//! Entries of pages that lie in frames.
ghost use Rattle.std.specs.Prelude.{◌≡◌, true, false};
ghost use Rattle.vm_types.specs.Permission.{can_read, can_write};
ghost use Rattle.page_tables.specs.Entry.{number_of, IsEntry};
ghost use Rattle.page_tables.specs.Leaves.{IsEntryOver, is_barred, leaf_number, weight};

use crate::forms::Entry;
use sv39_walk::Pte;
use vm_types::{FrameNo, Prot};

/// Where a page lies, and what an entry for it allows beside what its permission says.
#[derive(Clone, Copy)]
pub struct Grant {
    /// The frame.
    pub frame: FrameNo,
    /// The frame is the process's own.
    pub private: bool,
    /// W: stores are allowed.
    pub write: bool,
    /// D: a store needs no further mark.
    pub dirty: bool,
}

// Bits of a leaf, by their weights (RISC-V Privileged Specification, "Sv39 page table entry"): V, U and A together, R, W,
// X, D, and the software's bit for a frame that is the process's own.
const VALID_USER_ACCESSED: u64 = 0x51;

const READ: u64 = 0x2;

const WRITE: u64 = 0x4;

const EXECUTE: u64 = 0x8;

const DIRTY: u64 = 0x80;

const PRIVATE: u64 = 0x100;

/// The entry of a page of that permission (RISC-V Privileged Specification, "Sv39 page table entry"): a leaf with A, or,
/// where the permission allows nothing, a parked frame, whose V is clear.
pub fn entry_over(prot: Prot, grant: Grant) -> Entry
    requires readable { can_write prot ≡ true → can_read prot ≡ true }
    requires writable { grant.write ≡ true → can_write prot ≡ true }
    ensures form { IsEntry result }
    ensures over { IsEntryOver (number_of result) prot grant.frame.0 grant.private grant.write grant.dirty }
{
    if is_barred(prot) {
        return Entry::Parked(grant.frame, grant.private);
    }
    Entry::Leaf(leaf(prot, grant))
}

// Whether a permission allows nothing: who may write may read.
fn is_barred(prot: Prot) -> bool
    ensures { result ≡ is_barred prot }
{
    !(prot.is_readable() || prot.is_executable())
}

// The leaf of a user page that was accessed. R and X are as the permission has them.
#[tactic(auto, unfolding(crate::specs::Leaves::leaf_number))]
fn leaf(prot: Prot, grant: Grant) -> Pte
    requires readable { can_write prot ≡ true → can_read prot ≡ true }
    requires writable { grant.write ≡ true → can_write prot ≡ true }
    requires useful { is_barred prot ≡ false }
    ensures number { result.0 ≡ leaf_number prot grant.frame.0 grant.private grant.write grant.dirty }
{
    Pte::from_u64(
        u64::from(grant.frame.0) * 1024
            + bit(grant.private, PRIVATE)
            + bit(grant.dirty, DIRTY)
            + bit(prot.is_executable(), EXECUTE)
            + bit(grant.write, WRITE)
            + bit(prot.is_readable(), READ)
            + VALID_USER_ACCESSED,
    )
}

// A bit of that weight where it is set.
fn bit(set: bool, value: u64) -> u64
    ensures { result ≡ weight set value }
{
    if set { value } else { 0 }
}
