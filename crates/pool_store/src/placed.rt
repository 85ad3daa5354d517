//! A source whose pages come in the order of their homes, and end where their files do.
ghost use Rattle.std.specs.Prelude.{◌≡◌, ◌<◌, length, refl};
ghost use Rattle.std.proofs.Common.{◌∙◌};
ghost use Rattle.sync_journal.specs.Source.{Asks};
ghost use Rattle.file_store.specs.Asking.{asks_nothing, asks_more};
ghost use Rattle.pool_store.specs.Places.{cut_pages, index_at, inside_at};

use crate::directory::Directory;
use crate::room::Place;
use file_store::trim;
use sync_journal::{PageSource, SourceFault};
use vm_types::FilePage;

/// The pages of a source, which are those of a list, in the order of their homes: past the end of its file each is
/// zeros.
#[derive(Drop)]
pub(crate) struct Placed<'a, S> {
    pub source: &'a mut S,
    pub places: &'a [Place],
    pub pages: &'a [FilePage],
    pub directory: &'a Directory,
}

impl<S> Placed<'_, S> {
    /// How many bytes of the page at an index of the list lie inside its file.
    fn inside(&self, index: usize) -> usize
        ensures { result ≡ inside_at self.now.directory.now self.now.pages.now index }
    {
        let Some(page) = self.pages.get(index) else {
            return 0;
        };
        match self.directory.info(usize::from(page.file)) {
            Some(info) => info.bytes_inside(page.page),
            None => 0,
        }
    }
}

impl<S: PageSource> PageSource for Placed<'_, S> {
    ghost pages = { λ t i. cut_pages t.directory.now t.pages.now (S.pages t.source.now) (index_at t.places.now i) };

    ghost gives = { λ t i. (i < length t.places.now) × S.gives t.source.now (index_at t.places.now i) };

    ghost failures = { λ t. S.failures t.source.now };

    ghost keeps_model = { λ t. S.keeps_model t.source.now };

    ghost sure = { λ t i. S.sure t.source.now (index_at t.places.now i) };

    ghost follows = { λ s t. (t.source.ghost_name ≡ s.source.ghost_name) × Asks S.PageSource s.source.now t.source.now };

    fn page(&mut self, i: usize, to: &mut [u8; 4096]) -> Result<(), SourceFault> {
        let index = self.places[i].index as usize;
        self.source.page(index, to)?;
        trim(to, self.inside(index));
        Ok(())
    }

    ghost stays = { λ s. (refl, asks_nothing s.source.now (S.stays s.source.now)) };

    ghost goes_on = { λ a b c first second. (second.0 ∙ first.0, asks_more a.source.now b.source.now c.source.now (S.goes_on a.source.now b.source.now c.source.now) first.1 second.1) };
}
