//! The radices in which lines write numbers.
ghost use Rattle.std.specs.Prelude.{◌≤◌, ◌^◌};

/// A radix, and how many of its digits never write 2^64.
#[derive(Clone, Copy)]
pub(crate) struct Radix {
    pub(crate) base: u64,
    pub(crate) most: usize,
    ghost low: { 2 ≤ base },
    ghost high: { base ≤ 36 },
    ghost room: { base ^ most ≤ 2 ^ 64 },
}

pub(crate) const DECIMAL: Radix = Radix { base: 10, most: 19 };

/// Of either case.
pub(crate) const HEXADECIMAL: Radix = Radix { base: 16, most: 16 };
