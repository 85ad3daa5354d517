//! A source whose pages end where their files do.
ghost use Rattle.std.specs.Prelude.{◌≡◌, refl};
ghost use Rattle.std.proofs.Common.{◌∙◌};
ghost use Rattle.sync_journal.specs.Source.{Asks};
ghost use Rattle.file_store.specs.Asking.{asks_nothing, asks_more};
ghost use Rattle.file_store.specs.Layout.{padded_page};
ghost use Rattle.file_store.specs.Store.{inside_at};

use crate::directory::Directory;
use crate::pages::trim;
use sync_journal::{PageSource, SourceFault};
use vm_types::{FilePage, PAGE_BYTES};

/// The pages of a source, which are pages of files: past the end of its file each is zeros.
#[derive(Drop)]
pub(crate) struct Trimmed<'a, S> {
    pub source: &'a mut S,
    pub pages: &'a [FilePage],
    pub directory: &'a Directory,
}

impl<S> Trimmed<'_, S> {
    /// How many bytes of page `i` lie inside its file.
    fn inside(&self, i: usize) -> usize
        ensures { result ≡ inside_at self.now.directory.now self.now.pages.now i }
    {
        let Some(page) = self.pages.get(i) else {
            return PAGE_BYTES;
        };
        match self.directory.entry(usize::from(page.file)) {
            Some(entry) => entry.info.bytes_inside(page.page),
            None => PAGE_BYTES,
        }
    }
}

impl<S: PageSource> PageSource for Trimmed<'_, S> {
    ghost pages = { λ t i. padded_page (inside_at t.directory.now t.pages.now i) (S.pages t.source.now i) };

    ghost gives = { λ t i. S.gives t.source.now i };

    ghost failures = { λ t. S.failures t.source.now };

    ghost keeps_model = { λ t. S.keeps_model t.source.now };

    ghost sure = { λ t i. S.sure t.source.now i };

    ghost follows = { λ s t. (t.source.ghost_name ≡ s.source.ghost_name) × Asks S.PageSource s.source.now t.source.now };

    fn page(&mut self, i: usize, to: &mut [u8; 4096]) -> Result<(), SourceFault> {
        self.source.page(i, to)?;
        trim(to, self.inside(i));
        Ok(())
    }

    ghost stays = { λ s. (refl, asks_nothing s.source.now (S.stays s.source.now)) };

    ghost goes_on = { λ a b c first second. (second.0 ∙ first.0, asks_more a.source.now b.source.now c.source.now (S.goes_on a.source.now b.source.now c.source.now) first.1 second.1) };
}
