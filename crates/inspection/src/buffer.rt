//! The lines of the buffer of translations, and the clock's hand.
ghost use Rattle.std.specs.Prelude.{◌≡◌, IfSome};
ghost use Rattle.frames.specs.FrameTable.{IsFrame};
ghost use Rattle.memory.specs.Kept.{IsLeafOf};
ghost use Rattle.memory.specs.Lines.{line_place};

use memory::{LINES, Line};
use residency::Core;
use vm_types::{FrameNo, Levels};

/// The line at place `index` of the buffer of translations: the leaf in which the walk to its page ends. `None` where that place has no line,
/// which no clause says, or there is no such place.
pub(crate) fn line<D, E, M: Levels>(core: &Core<D, E, M>, index: usize) -> Option<Line>
    ensures leaf { IfSome result (λ line. IsLeafOf M.mode core.now.frames line.root.0 line.page line.leaf.0) }
    ensures place { IfSome result (λ line. line_place line.page ≡ index) }
{
    if index < LINES {
        core.frames.line(index)
    } else {
        None
    }
}

/// The frame that is looked at first when one is to be given up.
pub(crate) fn hand<D, E, M: Levels>(core: &Core<D, E, M>) -> FrameNo
    ensures hand { result.0 ≡ core.now.clock.hand }
    ensures inside { IsFrame core.now.frames result.0 }
{
    core.hand()
}
