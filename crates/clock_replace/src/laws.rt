//! A law of the clock. The function does nothing: its contract is the law.
ghost use Rattle.std.specs.Prelude.{◌<◌, ℕ};
ghost use Rattle.clock_replace.specs.Choice.{Chooses};

use crate::frame_view::FrameView;

/// The second chance: a frame that has its mark is chosen only where each frame that may be given up has its own.
pub fn second_chance<V: FrameView>(_view: &V)
    ensures { (old new : V) (hand past n : ℕ) → hand < V.total old → Chooses V.FrameView old new hand past n
        → V.marked old n → (m : ℕ) → m < V.total old → V.evictable_at old m → V.marked old m }
{}
