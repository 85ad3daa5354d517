//! A law of memory that hardware writes. The function does nothing: its contract is the law.
ghost use Rattle.std.specs.Prelude.{ℕ, List};
ghost use Rattle.frames.specs.FrameTable.{FrameTable, IsHeld, IsSound, with_bytes};
ghost use Rattle.frames.specs.Chain.{IsChained};

/// Where hardware writes the bytes of a frame that was handed out, past all calls, memory stays sound, and its free frames hang together as they
/// did, which is by their own bytes.
pub fn hardware_write()
    ensures sound { (t : FrameTable) (n : ℕ) (bytes : List ℕ) → IsHeld t n → IsSound t → IsSound (with_bytes t n bytes) }
    ensures free { (t : FrameTable) (first n : ℕ) (bytes : List ℕ) → IsHeld t n → IsChained t first → IsChained (with_bytes t n bytes) first }
{}
