//! Lists of file pages that an msync gathers row by row. The node that holds a listed page has the page's rank in the list
//! noted, as in a set of nodes; what is noted at another node is never trusted, so nothing is to be cleared beforehand.
ghost use Rattle.std.specs.Prelude.{◌≡◌, ◌+◌, ◌<◌, ◌≤◌, ◌^◌, ◌↔◌, IfOk, OnErr, IsTrue, length};
ghost use Rattle.page_cache.specs.Gathering.{filed, IsInRow, IsAtRank, Pushes};

use crate::index::is_same_file_page;
use crate::place::TooMany;
use vm_types::{FilePage, PageKey};

/// So many pages of one file, from the first on.
#[derive(Clone, Copy, Debug, PartialEq, Eq)]
pub struct FileRow {
    /// The first one.
    pub first: FilePage,
    /// How many.
    pub count: u32,
}

/// The file page that a node holds, where it holds one.
pub(crate) fn filed(held: Option<PageKey>) -> Option<FilePage>
    ensures { result ≡ filed held }
{
    match held {
        Some(PageKey::File(page)) => Some(page),
        _ => None,
    }
}

/// Whether the page is one of the row.
pub(crate) fn is_in_row(page: FilePage, row: FileRow) -> bool
    ensures { IsTrue result ↔ IsInRow row.first.file row.first.page row.count page }
{
    page.file == row.first.file
        && page.page >= row.first.page
        && page.page - row.first.page < row.count
}

/// Whether the page is among the first `n` entries, at the rank that its node has noted.
fn is_at_rank(list: &[FilePage], ranks: &[u32], n: usize, node: usize, page: FilePage) -> bool
    requires node { node < length ranks.now }
    requires room { n ≤ length list.now }
    ensures { IsTrue result ↔ IsAtRank list.now ranks.now n node page }
{
    let rank = ranks[node] as usize;
    rank < n && is_same_file_page(list[rank], page)
}

/// Puts the page of the node behind the first `n` entries, unless it is among these. Returns how many entries there are.
///
/// # Errors
/// `TooMany` exactly where the list has no room for it; then nothing changes.
pub(crate) fn push_fresh(
    list: &mut [FilePage],
    ranks: &mut [u32],
    n: usize,
    node: usize,
    page: FilePage,
) -> Result<usize, TooMany>
    requires node { node < length ranks.old }
    requires room { n ≤ length list.old }
    requires few { n < 2 ^ 32 }
    ensures pushed { IfOk result (λ m. Pushes list.old list.new ranks.old ranks.new n node page m) }
    ensures full { OnErr result (n ≡ length list.old) }
    ensures fresh { OnErr result (IsAtRank list.old ranks.old n node page → ⊥) }
    ensures err { OnErr result ((list.new ≡ list.old) × (ranks.new ≡ ranks.old)) }
{
    if is_at_rank(list, ranks, n, node, page) {
        return Ok(n);
    }
    if n >= list.len() {
        return Err(TooMany);
    }
    list[n] = page;
    ranks[node] = n as u32;
    Ok(n + 1)
}
