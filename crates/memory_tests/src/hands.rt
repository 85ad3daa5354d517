//! Rounds of the clock's hand over four frames.
ghost use Rattle.std.specs.Prelude.{◌≡◌, ◌<◌, ◌↔◌, ℕ, true, false, slice_index_or};

use crate::bench::equal;
use clock_replace::{Clock, FrameView, NoVictim, second_chance};
use disk_model::Count;
use vm_types::FrameNo;

/// Four frames.
#[derive(Drop)]
struct Row {
    evictable: [bool; 4],
    marked: [bool; 4],
    looks: Count,
}

impl FrameView for Row {
    ghost use Rattle.std.specs.Prelude.{slice_index_or, true, false, ◌≡◌};

    ghost total = { λ v. 4 };

    ghost looks = { λ v. v.looks.number };

    ghost evictable_at = { λ v n. slice_index_or v.evictable n false ≡ true };

    ghost marked = { λ v n. slice_index_or v.marked n false ≡ true };

    ghost is_open = { λ v. Unit {0} };

    ghost follows = { λ a b. Unit {0} };

    fn frames(&self) -> u32 {
        4
    }

    fn evictable(&mut self, n: u32) -> bool {
        self.looks.raise();
        self.evictable[n as usize]
    }

    fn accessed(&self, n: u32) -> bool {
        self.marked[n as usize]
    }

    fn clear(&mut self, n: u32) {
        self.marked[n as usize] = false;
    }

    ghost stays = { λ v. tt };

    ghost goes_on = { λ a b c p q. tt };
}

// The hand goes on behind the first victim. A frame that is passed on the way loses its mark, but one that may not be given
// up keeps it.
#[test]
fn two_victims_in_a_row(rt: HostRuntime) {
    for (evictable, marked, victims, left) in [
        (
            [true; 4],
            [true, false, true, false],
            [Ok(FrameNo(1)), Ok(FrameNo(3))],
            [false; 4],
        ),
        (
            [false, false, true, false],
            [true; 4],
            [Ok(FrameNo(2)), Ok(FrameNo(2))],
            [true, true, false, true],
        ),
        (
            [false; 4],
            [true, false, true, false],
            [Err(NoVictim), Err(NoVictim)],
            [true, false, true, false],
        ),
    ] {
        let mut clock = Clock::new();
        let mut row = Row {
            evictable,
            marked,
            looks: Count::new(),
        };
        let first = clock.victim(&mut row);
        let second = clock.victim(&mut row);
        second_chance(&row);
        equal(&rt, ([first, second], row.marked), (victims, left));
    }
}
