//! The slots that a commit takes.
ghost use Rattle.std.specs.Prelude.{◌≡◌, ◌≤◌, ◌<◌, ◌+◌, ◌^◌, ◌++◌, ℕ, min, not, vec_len, vec_capacity, IfOk, length, take, get_or, [], ◌∷◌, if◌then◌else◌, ◌==◌};
ghost use Rattle.pool_journal.specs.Giving.{AreApart, AreFree};
ghost use Rattle.pool_journal.specs.Journal.{HasRoom, free_count};
ghost use Rattle.pool_journal.specs.Maps.{entries_of, free_among, behind, slots_round, IsMapOf};
ghost use Rattle.pool_journal.specs.Sizes.{IsSized};

use crate::map::SlotMap;
use crate::searches::passed;
use crate::sizes::PoolSizes;
use crate::slot::Slot;
use std::alloc::{AllocError, Global};

/// The slots that a commit takes, of those that a map gives to no home.
#[derive(Drop)]
pub(crate) struct TakenSlots {
    pub slots: Vec<Slot>,
}

impl TakenSlots {
    /// Room for all slots of a pool.
    pub(crate) fn room(alloc: Global, sizes: PoolSizes) -> Result<TakenSlots, AllocError>
        requires { IsSized sizes }
        ensures { IfOk result (HasRoom sizes.blocks) }
    {
        let slots = Vec::with_capacity(alloc, 2 * sizes.places() as usize)?;
        Ok(TakenSlots { slots })
    }

    /// Lists so many of those that a map gives to no home. A page costs what its place costs, and pages that lie together are one write: so they begin where
    /// so many lie in a row, if they do, in one body if they can and then in the other, otherwise with the longest row that there is; from there they go round.
    pub(crate) fn list(&mut self, map: &SlotMap, second: bool, most: usize)
        requires room { most ≤ vec_capacity self.old.slots }
        requires alike { length map.now.first.items ≡ length map.now.second.items }
        requires size { length map.now.first.items < 2 ^ 32 }
        ensures free { (blocks : ℕ) → IsMapOf blocks map.now → AreFree blocks (entries_of map.now) self.new.slots.items }
        ensures apart { (blocks : ℕ) → IsMapOf blocks map.now → AreApart self.new.slots.items }
        ensures long { (blocks : ℕ) → IsMapOf blocks map.now → length self.new.slots.items ≡ min most (free_count blocks (entries_of map.now)) }
        ensures capacity { vec_capacity self.new.slots ≡ vec_capacity self.old.slots }
    {
        self.slots.clear();
        self.go_round(map, row_for(map, second, most), most);
    }

    // Adds those from a slot on to the end of its body, those of the other body, and those before that slot, up to so many.
    fn go_round(&mut self, map: &SlotMap, start: Slot, most: usize)
        requires empty { self.old.slots.items ≡ [] }
        requires room { most ≤ vec_capacity self.old.slots }
        requires start { start.place ≤ length map.now.first.items }
        requires alike { length map.now.first.items ≡ length map.now.second.items }
        requires size { length map.now.first.items < 2 ^ 32 }
        ensures listed { (blocks : ℕ) → IsMapOf blocks map.now → self.new.slots.items ≡ take most (slots_round blocks (entries_of map.now) start.second (not start.second) start.place) }
        ensures capacity { vec_capacity self.new.slots ≡ vec_capacity self.old.slots }
    {
        let numbers = map.body(start.second);
        let place = start.place as usize;
        self.add(numbers, start.second, place, most);
        self.add(map.body(!start.second), !start.second, 0, most);
        self.add(&numbers[..place], start.second, 0, most);
    }

    // Adds those of a body from a place on, up to so many in all.
    fn add(&mut self, numbers: &[u32], second: bool, from: usize, most: usize)
        requires room { most ≤ vec_capacity self.old.slots }
        requires within { (vec_len self.old.slots ≤ most) × (length self.old.slots.items ≡ vec_len self.old.slots) }
        requires from { from ≤ length numbers.now }
        requires few { length numbers.now < 2 ^ 32 }
        ensures added { self.new.slots.items ≡ take most (self.old.slots.items ++ free_among (behind from (λ r. get_or numbers.now r 0)) second (length numbers.now)) }
        ensures within { (vec_len self.new.slots ≤ most) × (length self.new.slots.items ≡ vec_len self.new.slots) }
        ensures capacity { vec_capacity self.new.slots ≡ vec_capacity self.old.slots }
    {
        for place in from..numbers.len() {
            if self.slots.len() == most {
                return;
            }
            self.add_free(
                Slot {
                    second,
                    place: place as u32,
                },
                numbers[place],
            );
        }
    }

    // Adds a slot that is given to a number, where that is none.
    fn add_free(&mut self, slot: Slot, number: u32)
        requires room { vec_len self.old.slots < vec_capacity self.old.slots }
        ensures added { self.new.slots.items ≡ self.old.slots.items ++ (if number == 0 then slot ∷ [] else []) }
        ensures len { vec_len self.new.slots ≡ vec_len self.old.slots + (if number == 0 then 1 else 0) }
        ensures capacity { vec_capacity self.new.slots ≡ vec_capacity self.old.slots }
    {
        if number == 0 {
            self.slots.push_reserved(slot);
        }
    }
}

// The slot with which the first row of so many begins that are given to no home, of one body or else of the other, or else the longest row that there is.
fn row_for(map: &SlotMap, second: bool, most: usize) -> Slot
    requires alike { length map.now.first.items ≡ length map.now.second.items }
    requires size { length map.now.first.items < 2 ^ 32 }
    ensures { result.place ≤ length map.now.first.items }
{
    let here = row_in(map.body(second), most);
    if here.length >= most {
        return here.slot(second);
    }
    let there = row_in(map.body(!second), most);
    if there.length > here.length {
        there.slot(!second)
    } else {
        here.slot(second)
    }
}

// Places of a body in a row.
#[derive(Clone, Copy)]
struct Row {
    start: usize,
    length: usize,
}

impl Row {
    // The slot with which it begins.
    fn slot(&self, second: bool) -> Slot
        requires { self.now.start < 2 ^ 32 }
        ensures { result ≡ record { second = second; place = self.now.start } }
    {
        Slot {
            second,
            place: self.start as u32,
        }
    }
}

// The first row of so many places whose number is 0, or the longest that there is.
fn row_in(numbers: &[u32], most: usize) -> Row
    ensures inside { result.start + result.length ≤ length numbers.now }
    ensures free { (r : ℕ) → result.start ≤ r → r < result.start + result.length → get_or numbers.now r 0 ≡ 0 }
{
    let mut longest = Row {
        start: 0,
        length: 0,
    };
    let mut length = 0;
    for place in passed(numbers, 0)..numbers.len() {
        length = if numbers[place] == 0 { length + 1 } else { 0 };
        if length > longest.length {
            longest = Row {
                start: place + 1 - length,
                length,
            };
        }
        if length >= most {
            return longest;
        }
    }
    longest
}
