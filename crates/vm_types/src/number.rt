//! Numbers that are no mere numbers: processes, pages, frames, slots and physical addresses.
ghost use Rattle.std.specs.Prelude.{◌≡◌, ◌<◌, ◌≤◌, ◌^◌, IfSome, IsSome, ◌↔◌};
ghost use Rattle.vm_types.specs.Limits.{user_start, user_end, widest_end};

use crate::USER_START;
use crate::mode::Levels;
use std::marker::Model;

/// A process number, 1 to 64. In contracts it is that number.
#[derive(Clone, Copy, Debug, PartialEq, Eq)]
pub struct Pid {
    number: u8,
}

impl Model for Pid {
    ghost use Rattle.std.specs.Prelude.{ℕ, ◌≤◌};

    ghost Value = { ℕ };

    ghost view = { λ p. p.number };

    ghost invariant = { λ p. (1 ≤ p.number) × (p.number ≤ 64) };

    ghost inverse = { λ n. record { number = n } };
}

impl Pid {
    /// The process of that number; `None` exactly where it isn't 1 to 64.
    pub fn new(number: u64) -> Option<Pid>
        ensures found { IfSome result (λ pid. pid ≡ number) }
        ensures known { IsSome result ↔ ((1 ≤ number) × (number ≤ 64)) }
    {
        match u8::try_from(number) {
            Ok(number) if number >= 1 && number <= 64 => Some(Pid { number }),
            _ => None,
        }
    }

    /// The least number.
    pub(crate) fn first() -> Pid
        ensures { result ≡ 1 }
    {
        Pid { number: 1 }
    }

    /// The number, 1 to 64.
    pub fn get(self) -> u8
        ensures number { result ≡ self }
        ensures range { (1 ≤ result) × (result ≤ 64) }
    {
        self.number
    }
}

/// A number of a user page of some mode: in Sv39 16 to 67,108,863 (virtual addresses `0x10000` to `0x3fffffffff`, the lower half but
/// its first 64 KiB), in Sv48 16 to 34,359,738,367 (up to `0x7fffffffffff`). In contracts it is that number.
#[derive(Clone, Copy, Debug, PartialEq, Eq, PartialOrd, Ord)]
pub struct Vpn {
    page: u64,
}

impl Model for Vpn {
    ghost use Rattle.std.specs.Prelude.{ℕ, ◌≤◌, ◌<◌, ◌^◌};
    ghost use Rattle.vm_types.specs.Limits.{user_start, widest_end};

    ghost Value = { ℕ };

    ghost view = { λ v. v.page };

    ghost invariant = { λ v. (user_start ≤ v.page) × (v.page < widest_end) };

    ghost inverse = { λ n. record { page = n } };
}

impl Vpn {
    /// The page of that number; `None` exactly where it is no user page of the mode.
    pub fn new<M: Levels>(number: u64) -> Option<Vpn>
        ensures found { IfSome result (λ page. page ≡ number) }
        ensures known { IsSome result ↔ ((user_start ≤ number) × (number < user_end M.mode)) }
    {
        if number >= USER_START && number < M::user_end() {
            Some(Vpn { page: number })
        } else {
            None
        }
    }

    /// The number, 16 to 34,359,738,367.
    pub fn get(self) -> u64
        ensures number { result ≡ self }
        ensures range { (user_start ≤ result) × (result < widest_end) }
    {
        self.page
    }
}

/// A frame of physical memory by its number, counted from 0 in pages of 4,096 bytes.
#[derive(Clone, Copy, Debug, PartialEq, Eq)]
pub struct FrameNo(pub u32);

/// A slot of the swap device by its number, counted from 0 in pages of 4,096 bytes.
#[derive(Clone, Copy, Debug, PartialEq, Eq)]
pub struct SlotNo(pub u32);

/// A physical address, in bytes.
#[derive(Clone, Copy, Debug, PartialEq, Eq)]
pub struct Phys(pub u64);

/// No frame is free.
#[derive(Clone, Copy, Debug, PartialEq, Eq)]
pub struct NoFree;

/// More than 256 runs of pages would result.
#[derive(Clone, Copy, Debug, PartialEq, Eq)]
pub struct TooManyRuns;
