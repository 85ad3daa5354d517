//! Slots are given to the homes of a commit.
ghost use Rattle.std.specs.Prelude.{◌≡◌, ◌<◌, ◌^◌, ℕ, length, get_or};
ghost use Rattle.pool_journal.specs.Giving.{AreApart, AreSlotsOf, GivesFirst};

use crate::map::SlotMap;
use crate::slot::Slot;

/// Gives each slot to the home at its place.
pub(crate) fn give_all(map: &mut SlotMap, slots: &[Slot], homes: &[u32])
    requires inside { AreSlotsOf map.old slots.now }
    requires apart { AreApart slots.now }
    requires long { length homes.now ≡ length slots.now }
    requires low { (j : ℕ) → get_or homes.now j 0 < 2 ^ 30 }
    ensures { GivesFirst (length slots.now) slots.now homes.now map.old map.new }
{
    for j in 0..slots.len() {
        map.give(slots[j], homes[j] + 1);
    }
}
