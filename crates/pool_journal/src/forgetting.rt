//! Homes that a commit writes anew keep no slot.
ghost use Rattle.std.specs.Prelude.{◌≡◌, ◌<◌, ◌≤◌, ◌+◌, ◌-◌, ◌*◌, ◌^◌, ℕ, true, false, None, length, get_or, is_some};
ghost use Rattle.pool_journal.specs.Giving.{AreRising, Forgets, ForgetsRun, IsSieveOf, number_but};
ghost use Rattle.pool_journal.specs.Maps.{IsMapOf};
ghost use Rattle.sync_journal.specs.Map.{home_rank};

use crate::map::SlotMap;
use crate::sieve::{MARKS, Sieve};

/// How many numbers are looked through at once, whether one of them is from the first home's up to the last one's. A block has seven times as many for each body.
const RUN: usize = 72;

/// How many of them are looked up at once in the table of marks.
const PART: usize = 8;

/// Takes the slots of these homes from them, and answers how many they had.
pub(crate) fn forget(map: &mut SlotMap, homes: &[u32]) -> usize
    requires rising { AreRising homes.now }
    requires few { length map.old.first.items + length map.old.second.items < 2 ^ 32 }
    requires size { (blocks : ℕ) × IsMapOf blocks map.old }
    ensures { Forgets homes.now map.old map.new result }
{
    let sieve = Sieve::of(homes);
    forget_in(&mut map.first, homes, &sieve) + forget_in(&mut map.second, homes, &sieve)
}

// Takes those of a body from them.
fn forget_in(numbers: &mut [u32], homes: &[u32], sieve: &Sieve) -> usize
    requires rising { AreRising homes.now }
    requires sieve { IsSieveOf homes.now sieve.now }
    requires size { (blocks : ℕ) × (length numbers.old ≡ 504 * blocks) }
    ensures { ForgetsRun homes.now 0 (length numbers.old) numbers.old numbers.new result }
{
    let mut gone = 0;
    for run in 0..numbers.len() / RUN {
        gone += forget_run(numbers, RUN * run, homes, sieve);
    }
    gone
}

// Takes those of a run from them. Where the homes lie together, most runs have none that lies among them, and all of such a run is passed over at once.
fn forget_run(numbers: &mut [u32], from: usize, homes: &[u32], sieve: &Sieve) -> usize
    requires rising { AreRising homes.now }
    requires sieve { IsSieveOf homes.now sieve.now }
    requires room { from + 72 ≤ length numbers.old }
    ensures { ForgetsRun homes.now from 72 numbers.old numbers.new result }
{
    if !may_have(&numbers[from..from + RUN], homes) {
        return 0;
    }
    let mut gone = 0;
    for part in 0..RUN / PART {
        gone += forget_part(numbers, from + PART * part, homes, sieve);
    }
    gone
}

// Takes those of a part of a run from them. Where the homes are few, most parts have no number that the sieve lets through.
fn forget_part(numbers: &mut [u32], from: usize, homes: &[u32], sieve: &Sieve) -> usize
    requires rising { AreRising homes.now }
    requires sieve { IsSieveOf homes.now sieve.now }
    requires room { from + 8 ≤ length numbers.old }
    ensures { ForgetsRun homes.now from 8 numbers.old numbers.new result }
{
    if sieve.lets(&numbers[from..from + PART]) {
        forget_each(numbers, from, homes, sieve)
    } else {
        0
    }
}

// Takes those of a part of a run from them, one after the other.
fn forget_each(numbers: &mut [u32], from: usize, homes: &[u32], sieve: &Sieve) -> usize
    requires rising { AreRising homes.now }
    requires sieve { IsSieveOf homes.now sieve.now }
    requires room { from + 8 ≤ length numbers.old }
    ensures { ForgetsRun homes.now from 8 numbers.old numbers.new result }
{
    let mut gone = 0;
    for i in 0..PART {
        let number = numbers[from + i];
        let left = but(number, homes, sieve);
        numbers[from + i] = left;
        gone += usize::from(left < number);
    }
    gone
}

// Whether one of these numbers may be a home's: whether one lies from the first home on up to the last one. All of them are looked at, which takes less
// time than to stop.
fn may_have(numbers: &[u32], homes: &[u32]) -> bool
    requires { AreRising homes.now }
    ensures { result ≡ false → (i : ℕ) → i < length numbers.now → number_but homes.now (get_or numbers.now i 0) ≡ get_or numbers.now i 0 }
{
    let mut found = false;
    for place in 0..numbers.len() {
        found |= may_be(numbers[place], homes);
    }
    found
}

// Whether a number is one from the first home's on up to the last one's.
fn may_be(number: u32, homes: &[u32]) -> bool
    requires { AreRising homes.now }
    ensures { result ≡ false → number_but homes.now number ≡ number }
{
    if homes.len() == 0 {
        return false;
    }
    number.wrapping_sub(homes[0].wrapping_add(1)) <= homes[homes.len() - 1] - homes[0]
}

// A number, or 0 where it is one of these homes'.
fn but(number: u32, homes: &[u32], sieve: &Sieve) -> u32
    requires rising { AreRising homes.now }
    requires sieve { IsSieveOf homes.now sieve.now }
    ensures { result ≡ number_but homes.now number }
{
    if number > 0 && is_among(number - 1, homes, sieve) {
        0
    } else {
        number
    }
}

// Whether a home is one of these. Where they are so near together that no two of them share a mark, the mark tells.
fn is_among(home: u32, homes: &[u32], sieve: &Sieve) -> bool
    requires rising { AreRising homes.now }
    requires sieve { IsSieveOf homes.now sieve.now }
    ensures { result ≡ is_some (home_rank homes.now home) }
{
    if !is_between(home, homes) {
        return false;
    }
    if ((homes[homes.len() - 1] - homes[0]) as usize) < MARKS {
        sieve.has(home)
    } else {
        homes.binary_search(&home).is_ok()
    }
}

// Whether a home is none of those before the first of these or behind the last one.
fn is_between(home: u32, homes: &[u32]) -> bool
    requires { AreRising homes.now }
    ensures out { result ≡ false → home_rank homes.now home ≡ None }
    ensures inside { result ≡ true → (0 < length homes.now) × (get_or homes.now 0 0 ≤ home) × (home ≤ get_or homes.now (length homes.now - 1) 0) }
{
    if homes.len() == 0 {
        return false;
    }
    if home < homes[0] {
        return false;
    }
    home <= homes[homes.len() - 1]
}
