//! What the journal of a store keeps between two commits.
ghost use Rattle.std.specs.Prelude.{◌≤◌};
ghost use Rattle.sync_journal.specs.Layout.{page_limit};

use crate::layout::PAGE_LIMIT;

/// The journal of a store. After a commit it is live: the pages of that commit stand in the body, and the next commit
/// writes them home. It holds no device: each call takes it.
#[derive(Debug, Drop)]
pub struct Journal {
    /// The homes of the last commit's pages, at the front.
    pub(crate) homes: [u32; PAGE_LIMIT],
    /// How many they are: none where the gate is closed.
    pub(crate) count: usize,
    ghost within: { count ≤ page_limit },
}
