//! Which pages of an open store a batch may bring.
ghost use Rattle.std.specs.Prelude.{◌≡◌, ◌↔◌, ◌≤◌, ℕ, OnOk, IfErr, IsTrue, IsFalse, Some, length, slice_get};
ghost use Rattle.batches.specs.Pages.{AreDistinct, AreRising, HasReadOnly, IsReadOnly, place_of};
ghost use Rattle.file_store.specs.Standing.{IsPageOf};
ghost use Rattle.stores.specs.Commit.{ArePages};
ghost use Rattle.stores.specs.Store.{files_of};

use disk_model::SectorDisk;
use stores::Store;
use thiserror::Error;
use vm_types::FilePage;

/// Why a store takes no such batch. `Display` gives its name, as `pagesync` replies with it.
#[derive(Clone, Copy, Debug, PartialEq, Eq, Error)]
pub enum BadBatch {
    /// There is no page or there are more than the store takes, one is named twice, or one does not begin inside its file.
    #[error("bad-pages")]
    BadPages,
    /// The file of a page may only be read.
    #[error("read-only")]
    ReadOnly,
}

/// Whether a page begins inside its file.
pub fn check_page<D: SectorDisk>(store: &Store<D>, page: FilePage) -> bool
    ensures { IsTrue result ↔ IsPageOf (files_of store.now) page.file page.page }
{
    match store.file(page.file) {
        Some(info) => 4096 * u64::from(page.page) < info.length,
        None => false,
    }
}

/// Whether a batch may bring these pages: at least one, and at most `most`. Pages in rising order, by file and then by page, are looked at once each; of others each one is looked for among
/// those before it.
///
/// # Errors
///
/// `BadPages` and `ReadOnly` come exactly where they say, `BadPages` before `ReadOnly`.
pub fn check_pages<D: SectorDisk>(
    store: &Store<D>,
    most: usize,
    pages: &[FilePage],
) -> Result<(), BadBatch>
    ensures good { OnOk result (ArePages (files_of store.now) most pages.now) }
    ensures written { OnOk result (HasReadOnly (files_of store.now) pages.now → ⊥) }
    ensures bad_pages { IfErr result (λ fault. fault ≡ BadBatch.BadPages → ArePages (files_of store.now) most pages.now → ⊥) }
    ensures read_only { IfErr result (λ fault. fault ≡ BadBatch.ReadOnly → ArePages (files_of store.now) most pages.now × HasReadOnly (files_of store.now) pages.now) }
{
    if !are_pages(store, most, pages) {
        return Err(BadBatch::BadPages);
    }
    if has_read_only(store, pages) {
        return Err(BadBatch::ReadOnly);
    }
    Ok(())
}

/// Whether the pages are at least one and no more than `most`, and begin inside their files, none twice.
fn are_pages<D: SectorDisk>(store: &Store<D>, most: usize, pages: &[FilePage]) -> bool
    ensures good { IsTrue result → ArePages (files_of store.now) most pages.now }
    ensures bad { IsFalse result → ArePages (files_of store.now) most pages.now → ⊥ }
{
    if pages.is_empty() || pages.len() > most {
        return false;
    }
    are_inside(store, pages) && are_distinct(pages)
}

/// Whether each page begins inside its file.
fn are_inside<D: SectorDisk>(store: &Store<D>, pages: &[FilePage]) -> bool
    ensures all { IsTrue result → (i : ℕ) (p : FilePage) → slice_get pages.now i ≡ Some p → IsPageOf (files_of store.now) p.file p.page }
    ensures one { IsFalse result → (i : ℕ) × (p : FilePage) × (slice_get pages.now i ≡ Some p) × (IsPageOf (files_of store.now) p.file p.page → ⊥) }
{
    for page in pages {
        if !check_page(store, *page) {
            return false;
        }
    }
    true
}

/// Whether no page is listed twice. A list in rising order takes one look at each page; only from the first page on that does not
/// rise is each one searched for among those before it.
fn are_distinct(pages: &[FilePage]) -> bool
    ensures distinct { IsTrue result → AreDistinct (length pages.now) pages.now }
    ensures twice { IsFalse result → AreDistinct (length pages.now) pages.now → ⊥ }
{
    for i in rising_count(pages)..pages.len() {
        if is_among(&pages[..i], pages[i]) {
            return false;
        }
    }
    true
}

/// How many pages, from the first on, stand in rising order: by file, then by page.
fn rising_count(pages: &[FilePage]) -> usize
    ensures within { result ≤ length pages.now }
    ensures rising { AreRising result pages.now }
{
    for i in 1..pages.len() {
        if place_of(pages[i]) <= place_of(pages[i - 1]) {
            return i;
        }
    }
    pages.len()
}

/// The place of a page in the order by file, then by page.
#[tactic(auto, unfolding(crate::specs::Pages::place_of))]
fn place_of(page: FilePage) -> u64
    ensures { result ≡ place_of page }
{
    (1 << 32) * u64::from(page.file) + u64::from(page.page)
}

/// Whether a list has this page.
fn is_among(pages: &[FilePage], page: FilePage) -> bool
    ensures among { IsTrue result → (j : ℕ) × (slice_get pages.now j ≡ Some page) }
    ensures absent { IsFalse result → (j : ℕ) → slice_get pages.now j ≡ Some page → ⊥ }
{
    for other in pages {
        if *other == page {
            return true;
        }
    }
    false
}

/// Whether some page is one of a file that may only be read.
fn has_read_only<D: SectorDisk>(store: &Store<D>, pages: &[FilePage]) -> bool
    ensures { IsTrue result ↔ HasReadOnly (files_of store.now) pages.now }
{
    for page in pages {
        if is_read_only(store, page.file) {
            return true;
        }
    }
    false
}

fn is_read_only<D: SectorDisk>(store: &Store<D>, file: u16) -> bool
    ensures { IsTrue result ↔ IsReadOnly (files_of store.now) file }
{
    match store.file(file) {
        Some(info) => info.read_only,
        None => false,
    }
}
