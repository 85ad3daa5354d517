//! What a table says of a page.
ghost use Rattle.std.specs.Prelude.{◌≡◌};
ghost use Rattle.page_tables.specs.Entry.{number_of, IsEntry, IsPageEntry};

use sv39_walk::Pte;
use vm_types::{FrameNo, SlotNo};

/// What a table says of a page.
#[derive(Clone, Copy)]
pub enum Entry {
    /// Nothing.
    None,
    /// The page lies in a frame. V is set, and R or X.
    Leaf(Pte),
    /// A private page that lies in a slot of the swap device.
    Swapped(SlotNo),
    /// A page that lies in a frame, and whose permission allows nothing; the second is whether the frame is private.
    Parked(FrameNo, bool),
}

// The lowest ten bits of a swapped page and of a parked one, which has bit 8 where its frame is private.
const SWAPPED: u64 = 2;

const PARKED: u64 = 4;

const PARKED_PRIVATE: u64 = 260;

// The number that stands for an entry.
pub(crate) fn encode(entry: Entry) -> Pte
    requires { IsEntry entry }
    ensures { result.0 ≡ number_of entry }
{
    match entry {
        Entry::None => Pte::from_u64(0),
        Entry::Leaf(leaf) => leaf,
        Entry::Swapped(slot) => Pte::from_u64(u64::from(slot.0) * 1024 + SWAPPED),
        Entry::Parked(frame, true) => Pte::from_u64(u64::from(frame.0) * 1024 + PARKED_PRIVATE),
        Entry::Parked(frame, false) => Pte::from_u64(u64::from(frame.0) * 1024 + PARKED),
    }
}

/// The entry that a number of a table stands for.
pub fn decode(number: Pte) -> Entry
    requires { IsPageEntry number.0 }
    ensures number { number_of result ≡ number.0 }
    ensures form { IsEntry result }
{
    if number.is_valid() {
        return Entry::Leaf(number);
    }
    let bits = number.to_u64();
    match bits % 1024 {
        SWAPPED => Entry::Swapped(SlotNo((bits / 1024) as u32)),
        PARKED => Entry::Parked(FrameNo((bits / 1024) as u32), false),
        PARKED_PRIVATE => Entry::Parked(FrameNo((bits / 1024) as u32), true),
        _ => Entry::None,
    }
}
