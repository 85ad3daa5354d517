//! What a commit is of.

use crate::lent_pages::PageBytes;
use pool_growth::FileSize;
use vm_types::FilePage;

/// Pages, and what they become: page `pages[i]` becomes the bytes at `bytes[i]`.
#[derive(Clone, Copy)]
pub struct PageUpdates<'a> {
    pub pages: &'a [FilePage],
    pub bytes: &'a [PageBytes<'a>],
}

/// Sizes that files get, with pages of theirs: first the new pages `fresh`, and then `pages` become the bytes at `bytes`. Each other new page becomes zeros.
#[derive(Clone, Copy)]
pub struct SizeUpdates<'a> {
    pub sizes: &'a [FileSize],
    pub fresh: &'a [FilePage],
    pub pages: &'a [FilePage],
    pub bytes: &'a [PageBytes<'a>],
}
