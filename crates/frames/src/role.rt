//! What a frame is used for.

/// What a frame is used for.
#[derive(Clone, Copy, Debug, PartialEq, Eq)]
pub enum Role {
    /// Nothing: the frame can be taken.
    Free,
    /// The page of zeros, frame 0, which is never handed out.
    Zero,
    /// A page table.
    Table,
    /// A page that processes own, each its own copy of the same bytes.
    Private,
    /// A page of a file.
    Cache,
}
