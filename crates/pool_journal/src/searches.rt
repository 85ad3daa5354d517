//! What a map says of all its slots.
ghost use Rattle.std.specs.Prelude.{◌≡◌, ◌≤◌, ◌<◌, ◌+◌, ◌*◌, ◌^◌, ℕ, Bool, false, None, Some, MatchOption, length, get_or};
ghost use Rattle.pool_journal.specs.Journal.{free_count};
ghost use Rattle.pool_journal.specs.Maps.{entries_of, IsMapOf, free_among};
ghost use Rattle.pool_journal.specs.Pools.{first_among, slot_by};
ghost use Rattle.pool_journal.specs.Reading.{MarksHomes};

use crate::map::SlotMap;
use crate::slot::Slot;

impl SlotMap {
    /// The first slot that is given to a home.
    pub(crate) fn slot_of(&self, home: u32) -> Option<Slot>
        requires low { home < 2 ^ 30 }
        requires size { (length self.now.first.items < 2 ^ 32) × (length self.now.second.items < 2 ^ 32) }
        ensures { (blocks : ℕ) → IsMapOf blocks self.now → MatchOption result (slot_by blocks (entries_of self.now) home ≡ None) (λ slot. slot_by blocks (entries_of self.now) home ≡ Some (slot.second, slot.place)) }
    {
        let number = home + 1;
        match first_place(&self.first, number) {
            Some(place) => Some(Slot {
                second: false,
                place,
            }),
            None => match first_place(&self.second, number) {
                Some(place) => Some(Slot {
                    second: true,
                    place,
                }),
                None => None,
            },
        }
    }
}

/// How many numbers are looked through at once, whether one of them is sought.
const RUN: usize = 96;

// The first place of a number among others.
fn first_place(numbers: &[u32], number: u32) -> Option<u32>
    requires { length numbers.now < 2 ^ 32 }
    ensures { result ≡ first_among (λ r. get_or numbers.now r 0) number (length numbers.now) }
{
    for place in passed(numbers, number)..numbers.len() {
        if numbers[place] == number {
            return Some(place as u32);
        }
    }
    None
}

/// A place before which a number does not stand: where the first run begins that has it.
pub(crate) fn passed(numbers: &[u32], number: u32) -> usize
    ensures none { first_among (λ r. get_or numbers.now r 0) number result ≡ None }
    ensures within { result ≤ length numbers.now }
{
    let runs = numbers.len() / RUN;
    for run in 0..runs {
        if has(&numbers[RUN * run..RUN * run + RUN], number) {
            return RUN * run;
        }
    }
    RUN * runs
}

// Whether a number stands among others: all of them are looked at, which takes less time than to stop.
fn has(numbers: &[u32], number: u32) -> bool
    ensures { result ≡ false → (i : ℕ) → i < length numbers.now → get_or numbers.now i 0 ≡ number → ⊥ }
{
    let mut found = false;
    for place in 0..numbers.len() {
        found |= numbers[place] == number;
    }
    found
}

impl SlotMap {
    /// How many slots are given to no home.
    pub(crate) fn free_count(&self) -> usize
        requires { length self.now.first.items + length self.now.second.items < 2 ^ 32 }
        ensures { (blocks : ℕ) → IsMapOf blocks self.now → result ≡ free_count blocks (entries_of self.now) }
    {
        (free_in(&self.first) + free_in(&self.second)) as usize
    }
}

// How many of these numbers are 0. The count is as narrow as they are, so that several are counted at once.
fn free_in(numbers: &[u32]) -> u32
    requires { length numbers.now < 2 ^ 32 }
    ensures counted { (body : Bool) → result ≡ length (free_among (λ r. get_or numbers.now r 0) body (length numbers.now)) }
    ensures most { result ≤ length numbers.now }
{
    let mut count = 0;
    for place in 0..numbers.len() {
        count += u32::from(numbers[place] == 0);
    }
    count
}

/// The greatest of these numbers, or 0 where there is none.
pub(crate) fn greatest(numbers: &[u32]) -> u32
    ensures most { (i : ℕ) → i < length numbers.now → get_or numbers.now i 0 ≤ result }
    ensures met { 0 < result → (i : ℕ) × (i < length numbers.now) × (get_or numbers.now i 0 ≡ result) }
{
    let mut most = 0;
    for place in 0..numbers.len() {
        most = most.max(numbers[place]);
    }
    most
}

/// Of how many homes it is told at once whether they have slots.
pub const FIRST_HOMES: usize = 256;

/// Marks those of the first `homes` homes whose numbers stand among others.
pub(crate) fn mark_homes(given: &mut [bool; FIRST_HOMES], numbers: &[u32], homes: u32)
    requires { homes ≤ 256 }
    ensures { MarksHomes homes numbers.now (length numbers.now) given.old given.new }
{
    let runs = numbers.len() / RUN;
    for run in 0..runs {
        mark_run(given, &numbers[RUN * run..RUN * run + RUN], homes);
    }
    mark_run(given, &numbers[RUN * runs..], homes);
}

// Marks those of the first homes whose numbers stand in a run: few runs have any.
fn mark_run(given: &mut [bool; FIRST_HOMES], numbers: &[u32], homes: u32)
    requires { homes ≤ 256 }
    ensures { MarksHomes homes numbers.now (length numbers.now) given.old given.new }
{
    if !has_first(numbers, homes) {
        return;
    }
    for place in 0..numbers.len() {
        let number = numbers[place];
        if number != 0 && number <= homes {
            given[number as usize - 1] = true;
        }
    }
}

// Whether a number of the first homes stands among others: all of them are looked at, which takes less time than to stop.
fn has_first(numbers: &[u32], homes: u32) -> bool
    ensures { result ≡ false → (i : ℕ) → i < length numbers.now → 0 < get_or numbers.now i 0 → get_or numbers.now i 0 ≤ homes → ⊥ }
{
    let mut found = false;
    for place in 0..numbers.len() {
        found |= (numbers[place] != 0) & (numbers[place] <= homes);
    }
    found
}
