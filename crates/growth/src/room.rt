//! Homes that files may have.

/// Homes one after the other.
#[derive(Clone, Copy, Debug, PartialEq, Eq)]
pub struct Homes {
    /// The first of them.
    pub first: u32,
    /// The one behind the last.
    pub end: u32,
}
