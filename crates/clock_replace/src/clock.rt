//! The clock's hand, and the choice that it makes.
ghost use Rattle.std.specs.Prelude.{◌≡◌, ◌<◌, ◌≤◌, ◌+◌, true, false, ◌==◌, if◌then◌else◌};
ghost use Rattle.clock_replace.specs.Choice.{GoesRound};
ghost use Rattle.clock_replace.specs.Look.{Looks, IsChoice, IsPast};

use crate::frame_view::FrameView;
use vm_types::FrameNo;

/// The clock: the number of the frame where the next look goes.
#[derive(Clone, Copy, Debug, PartialEq, Eq)]
pub struct Clock {
    pub(crate) hand: u32,
}

/// No frame may be given up.
#[derive(Clone, Copy, Debug, PartialEq, Eq)]
pub struct NoVictim;

impl Clock {
    /// The hand at frame 0.
    pub fn new() -> Clock
        ensures { result.hand ≡ 0 }
    {
        Clock { hand: 0 }
    }

    /// The frame where the next look goes.
    pub fn hand(&self) -> FrameNo
        ensures { result.0 ≡ self.now.hand }
    {
        FrameNo(self.hand)
    }

    /// Looks from the hand onward, round and round: the first frame that may be given up and whose mark is clear is chosen,
    /// the marks of those that may be given up and were passed on the way are cleared, and the hand then stands just past
    /// the choice. It takes at most two rounds of looks.
    ///
    /// # Errors
    /// `NoVictim` exactly where no frame may be given up; then every mark and the hand are as they were.
    pub fn victim<V: FrameView>(&mut self, view: &mut V) -> Result<FrameNo, NoVictim>
        requires open { V.is_open view.old }
        requires hand { self.old.hand < V.total view.old }
        requires few { V.total view.old ≤ 65536 }
        ensures { GoesRound V.FrameView view.old view.new self.old self.new result }
    {
        let frames = view.frames();
        for i in 0..2 * frames {
            let n = self.hand;
            self.hand = next(n, frames);
            if look(view, n) {
                return Ok(FrameNo(n));
            }
        }
        Err(NoVictim)
    }
}

/// The frame behind one.
fn next(n: u32, frames: u32) -> u32
    requires { n < frames }
    ensures { result ≡ (if n + 1 == frames then 0 else n + 1) }
{
    if n + 1 == frames { 0 } else { n + 1 }
}

/// One look: whether the frame may be given up and has no mark. Where it may and has one, that is cleared.
fn look<V: FrameView>(view: &mut V, n: u32) -> bool
    requires open { V.is_open view.old }
    requires inside { n < V.total view.old }
    ensures open { V.is_open view.new }
    ensures looks { Looks V.FrameView view.old view.new }
    ensures chosen { result ≡ true → IsChoice V.FrameView view.old view.new n }
    ensures passed { result ≡ false → IsPast V.FrameView view.old view.new n }
{
    if !view.evictable(n) {
        return false;
    }
    if !view.accessed(n) {
        return true;
    }
    view.clear(n);
    false
}
