//! A law of memory that hardware writes. The function does nothing: its contract is the law.
ghost use Rattle.std.specs.Prelude.{ℕ, List, ◌≢◌};
ghost use Rattle.frames.specs.FrameTable.{FrameTable, role_of, with_bytes};
ghost use Rattle.frames.specs.declared.role.Role.TheVariants.{Table};
ghost use Rattle.memory.specs.Kept.{LinesAreLeaves};
ghost use Rattle.memory.specs.Notes.{AreNoted};
ghost use Rattle.memory.specs.declared.buffer.TranslationBuffer.{TranslationBuffer};
ghost use Rattle.memory.specs.declared.notes.Notes.{Notes};

/// Where hardware writes the bytes of a frame that is no table, past all calls, each line of the buffer is the leaf of its page as before, and the
/// notes still cover each page that names a frame.
pub fn hardware_write()
    ensures lines { (mode : ℕ) (t : FrameTable) (n : ℕ) (bytes : List ℕ) (buffer : TranslationBuffer) → role_of t n ≢ Table
        → LinesAreLeaves mode t buffer → LinesAreLeaves mode (with_bytes t n bytes) buffer }
    ensures notes { (mode : ℕ) (t : FrameTable) (n : ℕ) (bytes : List ℕ) (notes : Notes) → role_of t n ≢ Table
        → AreNoted mode t notes → AreNoted mode (with_bytes t n bytes) notes }
{}
