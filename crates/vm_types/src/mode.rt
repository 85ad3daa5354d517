//! The modes of address spaces.
ghost use Rattle.std.specs.Prelude.{ℕ, ◌≡◌, ◌≤◌, ◌^◌};
ghost use Rattle.vm_types.specs.Limits.{top_level, user_end};

/// How many levels of page tables address spaces have (RISC-V Privileged Specification, "Sv39" and "Sv48").
#[derive(Clone, Copy, Debug, PartialEq, Eq)]
pub enum Mode {
    /// Three levels, and user pages up to address `0x3fffffffff`.
    Sv39,
    /// Four levels, and user pages up to address `0x7fffffffffff`.
    Sv48,
}

/// A mode as a type: what is made for a mode has it as a type parameter, `Sv39` or `Sv48`. In contracts it is the bits of an
/// address: 39 is Sv39, and any other number is Sv48.
pub trait Levels {
    ghost mode: { ℕ };

    /// The level of a root table: 2 or 3.
    fn top_level() -> u32
        ensures level { result ≡ top_level mode }
        ensures range { (2 ≤ result) × (result ≤ 3) };

    /// One past the last user page, which ends at address `0x3fffffffff` in Sv39 and at `0x7fffffffffff` in Sv48.
    fn user_end() -> u64
        ensures end { result ≡ user_end mode }
        ensures range { (2 ^ 26 ≤ result) × (result ≤ 2 ^ 35) };
}

/// Three levels of tables.
#[derive(Clone, Copy, Debug, PartialEq, Eq, Drop)]
pub struct Sv39;

impl Levels for Sv39 {
    ghost mode = { 39 };

    #[tactic(auto, unfolding(crate::specs::Limits::top_level))]
    fn top_level() -> u32 {
        2
    }

    #[tactic(auto, unfolding(crate::specs::Limits::user_end))]
    fn user_end() -> u64 {
        1 << 26
    }
}

/// Four levels of tables.
#[derive(Clone, Copy, Debug, PartialEq, Eq, Drop)]
pub struct Sv48;

impl Levels for Sv48 {
    ghost mode = { 48 };

    #[tactic(auto, unfolding(crate::specs::Limits::top_level))]
    fn top_level() -> u32 {
        3
    }

    #[tactic(auto, unfolding(crate::specs::Limits::user_end))]
    fn user_end() -> u64 {
        1 << 35
    }
}

/// One past the last user page of any mode.
pub const WIDEST_END: u64 = 1 << 35;
