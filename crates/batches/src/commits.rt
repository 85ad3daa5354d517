//! Batches that become durable.
ghost use Rattle.std.specs.Prelude.{◌≡◌, ◌≢◌, ◌<◌, OnOk, IfErr, length, refl};
ghost use Rattle.std.proofs.Common.{◌∙◌};
ghost use Rattle.batches.specs.Bringing.{CommitsBatch, RefusesBatch};
ghost use Rattle.batches.specs.Pages.{HasReadOnly, given_page};
ghost use Rattle.disk_model.specs.Moments.{AsksOnly};
ghost use Rattle.stores.specs.Commit.{ArePages};
ghost use Rattle.stores.specs.Store.{disk_of, kept_of, files_of, free_of, IsUsedIn, IsReadyStore};

use crate::pages::{BadBatch, check_pages};
use disk_model::SectorDisk;
use stores::Store;
use sync_journal::{PageSource, SourceFault};
use thiserror::Error;
use vm_types::FilePage;

/// Why a batch was not made durable. `Display` gives its name, as `pagesync` replies with it.
#[derive(Clone, Copy, Debug, PartialEq, Eq, Error)]
pub enum BatchFault {
    /// The device failed: all of the batch is durable or none.
    #[error("device")]
    Device,
    /// There is no page or there are more than the store takes, one is named twice, or one does not begin inside its file.
    #[error("{}", BadBatch::BadPages)]
    BadPages,
    /// The file of a page may only be read.
    #[error("{}", BadBatch::ReadOnly)]
    ReadOnly,
}

/// Pages in memory as a source. It never fails.
#[derive(Drop)]
struct GivenPages<'a> {
    pages: &'a [[u8; 4096]],
}

impl PageSource for GivenPages<'_> {
    ghost pages = { λ s i. given_page s.pages.now i };

    ghost gives = { λ s i. i < length s.pages.now };

    ghost failures = { λ _. 0 };

    ghost keeps_model = { λ _. Unit {0} };

    ghost sure = { λ _ _. Unit {0} };

    ghost follows = { λ old new. new ≡ old };

    fn page(&mut self, i: usize, to: &mut [u8; 4096]) -> Result<(), SourceFault> {
        *to = self.pages[i];
        Ok(())
    }

    ghost stays = { λ _. refl };

    ghost goes_on = { λ _ _ _ first second. second ∙ first };
}

fn fault_of(fault: BadBatch) -> BatchFault
    ensures bad_pages { result ≡ BatchFault.BadPages → fault ≡ BadBatch.BadPages }
    ensures read_only { result ≡ BatchFault.ReadOnly → fault ≡ BadBatch.ReadOnly }
    ensures device { result ≢ BatchFault.Device }
{
    match fault {
        BadBatch::BadPages => BatchFault::BadPages,
        BadBatch::ReadOnly => BatchFault::ReadOnly,
    }
}

/// Makes pages that a store takes durable all at once.
fn commit_good<D: SectorDisk>(
    store: &mut Store<D>,
    pages: &[FilePage],
    bytes: &[[u8; 4096]],
) -> Result<(), BatchFault>
    requires ready { IsReadyStore D.SectorDisk store.old }
    requires pages { ArePages (files_of store.old) (free_of store.old) pages.now }
    requires bytes { length bytes.now ≡ length pages.now }
    ensures commits { CommitsBatch D.SectorDisk store.old store.new pages.now (given_page bytes.now) result }
    ensures asks { AsksOnly D.SectorDisk (IsUsedIn (kept_of store.old)) (disk_of store.old) (disk_of store.new) }
    ensures fault { IfErr result (λ fault. (fault ≡ BatchFault.Device) × (D.failures (disk_of store.old) < D.failures (disk_of store.new))) }
{
    let mut source = GivenPages { pages: bytes };
    match store.commit(pages, &mut source) {
        Ok(()) => Ok(()),
        Err(_) => Err(BatchFault::Device),
    }
}

/// Makes pages durable all at once: page `pages[i]` becomes `bytes[i]`, with zeros past its file's end. A store takes as many as
/// `free_pages` says: 1,023 of layout 2, of layout 4 as many as are free.
///
/// # Errors
///
/// `BadPages` and `ReadOnly` come exactly where they say, and the store is then as it was. `Device` comes only where the
/// device failed: every image that a stop might have left stands for the files before or for those after, and the store
/// has to be opened again.
pub fn commit_pages<D: SectorDisk>(
    store: &mut Store<D>,
    pages: &[FilePage],
    bytes: &[[u8; 4096]],
) -> Result<(), BatchFault>
    requires ready { IsReadyStore D.SectorDisk store.old }
    requires bytes { length bytes.now ≡ length pages.now }
    ensures commits { CommitsBatch D.SectorDisk store.old store.new pages.now (given_page bytes.now) result }
    // Of the device no sector was asked for but those that a commit uses.
    ensures asks { AsksOnly D.SectorDisk (IsUsedIn (kept_of store.old)) (disk_of store.old) (disk_of store.new) }
    // A batch is refused exactly where it is bad.
    ensures taken { OnOk result (ArePages (files_of store.old) (free_of store.old) pages.now) }
    ensures written { OnOk result (HasReadOnly (files_of store.old) pages.now → ⊥) }
    ensures refused { IfErr result (RefusesBatch D.SectorDisk store.old store.new pages.now) }
{
    match check_pages(store, store.free_pages(), pages) {
        Ok(()) => commit_good(store, pages, bytes),
        Err(fault) => Err(fault_of(fault)),
    }
}
