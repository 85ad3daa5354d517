//! Numbers that surely are none of some homes', told by a look at a table.
ghost use Rattle.std.specs.Prelude.{◌≡◌, ◌<◌, ◌%◌, ℕ, List, false, length, get_or};
ghost use Rattle.pool_journal.specs.Giving.{IsSieveOf, number_but};

/// How many marks there are.
pub(crate) const MARKS: usize = 4096;

/// A mark for each of some homes, by its low bits: a number without a mark is none of theirs.
#[derive(Drop)]
pub(crate) struct Sieve {
    marks: [bool; MARKS],
}

impl Sieve {
    /// The sieve of these homes.
    pub(crate) fn of(homes: &[u32]) -> Sieve
        ensures { IsSieveOf homes.now result }
    {
        let mut marks = [false; MARKS];
        for place in 0..homes.len() {
            marks[homes[place] as usize % MARKS] = true;
        }
        Sieve { marks }
    }

    /// Whether one of these numbers may be that of such a home. All of them are looked at, which takes less time than to stop.
    pub(crate) fn lets(&self, numbers: &[u32]) -> bool
        requires { length self.now.marks ≡ 4096 }
        ensures { result ≡ false → (homes : List ℕ) → IsSieveOf homes self.now → (i : ℕ) → i < length numbers.now → number_but homes (get_or numbers.now i 0) ≡ get_or numbers.now i 0 }
    {
        let mut found = false;
        for place in 0..numbers.len() {
            found |= self.lets_one(numbers[place]);
        }
        found
    }

    /// The mark of a home: whether one of these has the same low bits.
    pub(crate) fn has(&self, home: u32) -> bool
        requires { length self.now.marks ≡ 4096 }
        ensures { result ≡ get_or self.now.marks (home % 4096) false }
    {
        self.marks[home as usize % MARKS]
    }

    // Whether a number may be that of such a home. For 0 the mark is the last one, which says nothing.
    fn lets_one(&self, number: u32) -> bool
        requires { length self.now.marks ≡ 4096 }
        ensures { result ≡ false → (homes : List ℕ) → IsSieveOf homes self.now → number_but homes number ≡ number }
    {
        self.has(number.wrapping_sub(1))
    }
}
