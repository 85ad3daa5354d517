//! A slot of the pool.

/// A slot: the body that it is of, and its place there, from 0 on.
#[derive(Clone, Copy, Debug, PartialEq, Eq)]
pub struct Slot {
    /// Whether it is of the second body.
    pub second: bool,
    pub place: u32,
}
