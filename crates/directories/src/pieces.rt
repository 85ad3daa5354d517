//! The extents of all files, in the order of their first homes.
ghost use Rattle.std.specs.Prelude.{◌≡◌, ◌≤◌, ◌<◌, ◌+◌, ◌++◌, length, Option, MatchOption, IfOk, OnOk, IsTrue, IsFalse};
ghost use Rattle.std.specs.List.Sorted.{IsNonDecreasingBy};
ghost use Rattle.directories.specs.Layouts.{ShareHome};
ghost use Rattle.directories.specs.Pieces.{pieces_in, pieces_of, AreSorted, AreApart, Meet};

use crate::entry::{Entry, Extent};
use std::alloc::{AllocError, Global};

/// An extent, and whose it is.
#[derive(Clone, Copy, Debug, PartialEq, Eq)]
pub(crate) struct Piece {
    pub extent: Extent,
    /// The file's number.
    pub file: u32,
    /// Its place among the file's extents.
    pub place: u32,
}

impl Extent {
    /// The home behind its last.
    pub(crate) fn end(&self) -> u64
        ensures { result ≡ self.now.first + self.now.count }
    {
        u64::from(self.first) + u64::from(self.count)
    }

    /// Whether both have a home in common.
    fn meets(&self, other: &Extent) -> bool
        ensures some { IsTrue result → ShareHome self.now other.now }
        ensures none { IsFalse result → ShareHome self.now other.now → ⊥ }
    {
        u64::from(self.first.max(other.first)) < self.end().min(other.end())
    }
}

/// The extents of all files, in the order of their first homes.
pub(crate) fn sorted_pieces(
    alloc: Global,
    entries: &[Option<Entry>],
) -> Result<Vec<Piece>, AllocError>
    requires { length entries.now ≤ 4096 }
    ensures { IfOk result (λ pieces. AreSorted entries.now pieces.items) }
{
    let mut pieces = all_pieces(alloc, entries)?;
    pieces.sort_by_key(|piece| piece.extent.first)?;
    Ok(pieces)
}

/// The extents of all files, one file after the other.
fn all_pieces(alloc: Global, entries: &[Option<Entry>]) -> Result<Vec<Piece>, AllocError>
    requires { length entries.now ≤ 4096 }
    ensures { IfOk result (λ pieces. pieces.items ≡ pieces_of 0 entries.now) }
{
    let mut pieces = Vec::new(alloc);
    for (file, entry) in entries.iter().enumerate() {
        if let Some(entry) = entry {
            push_pieces(&mut pieces, file as u32, entry.extents())?;
        }
    }
    Ok(pieces)
}

/// Appends the extents of a file.
fn push_pieces(pieces: &mut Vec<Piece>, file: u32, extents: &[Extent]) -> Result<(), AllocError>
    requires { length extents.now ≤ 30 }
    ensures { OnOk result (pieces.new.items ≡ pieces.old.items ++ pieces_in file 0 extents.now) }
{
    for (place, extent) in extents.iter().enumerate() {
        pieces.push(Piece {
            extent: *extent,
            file,
            place: place as u32,
        })?;
    }
    Ok(())
}

/// Two of these with a home in common; `None` exactly where there are none.
pub(crate) fn find_shared(pieces: &[Piece]) -> Option<(Piece, Piece)>
    requires { IsNonDecreasingBy (λ p. p.extent.first) pieces.now }
    ensures { MatchOption result (AreApart pieces.now) (λ pair. Meet pieces.now pair.0 pair.1) }
{
    let mut furthest = 0;
    for i in 1..pieces.len() {
        if pieces[furthest].extent.meets(&pieces[i].extent) {
            return Some((pieces[furthest], pieces[i]));
        }
        if pieces[furthest].extent.end() < pieces[i].extent.end() {
            furthest = i;
        }
    }
    None
}
