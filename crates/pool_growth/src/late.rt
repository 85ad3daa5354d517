//! A source of the pages that a commit of changes puts into slots.
ghost use Rattle.std.specs.Prelude.{◌≡◌, ◌<◌, ◌≤◌, ◌+◌, ◌-◌, length, refl};
ghost use Rattle.std.proofs.Common.{◌∙◌};
ghost use Rattle.file_store.specs.Asking.{asks_nothing, asks_more};
ghost use Rattle.pool_growth.specs.Files.{given_page};
ghost use Rattle.pool_growth.specs.Late.{late_page, IsGiven};
ghost use Rattle.pool_growth.specs.Putting.{inside_then};
ghost use Rattle.pool_store.specs.Places.{index_at};
ghost use Rattle.sync_journal.specs.Source.{Asks};

use crate::changes::FileChanges;
use crate::lookups::{given_page, inside_then};
use file_store::trim;
use pool_store::{Directory, Place};
use sync_journal::{PageSource, SourceFault};

/// The changed pages of the directory, and behind them pages of a source in the order of their homes, with zeros past their files' ends.
#[derive(Drop)]
pub(crate) struct Late<'a, S> {
    pub source: &'a mut S,
    /// How many pages of the source come before those: new ones that are put where they are to stand.
    pub put: u32,
    pub front: &'a [[u8; 4096]],
    pub places: &'a [Place],
    pub asked: FileChanges<'a>,
    pub directory: &'a Directory,
}

impl<S> Late<'_, S> {
    /// How many bytes of a page that the source gives lie inside its file then.
    fn inside(&self, k: usize) -> usize
        requires { IsGiven self.now.directory.now self.now.asked.changes.now self.now.asked.fresh.now self.now.asked.pages.now k }
        ensures inside { result ≡ inside_then self.now.directory.now self.now.asked.changes.now (given_page self.now.asked.fresh.now self.now.asked.pages.now k) }
        ensures most { result ≤ 4096 }
    {
        let page = given_page(self.asked, k);
        inside_then(self.directory, self.asked.changes, page)
    }
}

impl<S: PageSource> PageSource for Late<'_, S> {
    ghost pages = { λ t j. late_page t.directory.now t.asked.changes.now t.asked.fresh.now t.asked.pages.now t.front.now t.places.now t.put (S.pages t.source.now) j };

    ghost gives = { λ t j. (j < length t.front.now + length t.places.now) × (length t.front.now ≤ j
        → IsGiven t.directory.now t.asked.changes.now t.asked.fresh.now t.asked.pages.now (t.put + index_at t.places.now (j - length t.front.now))
        × S.gives t.source.now (t.put + index_at t.places.now (j - length t.front.now))) };

    ghost failures = { λ t. S.failures t.source.now };

    ghost keeps_model = { λ t. S.keeps_model t.source.now };

    ghost sure = { λ t j. length t.front.now ≤ j → S.sure t.source.now (t.put + index_at t.places.now (j - length t.front.now)) };

    ghost follows = { λ s t. (t.source.ghost_name ≡ s.source.ghost_name) × Asks S.PageSource s.source.now t.source.now };

    fn page(&mut self, j: usize, to: &mut [u8; 4096]) -> Result<(), SourceFault> {
        if j < self.front.len() {
            *to = self.front[j];
            return Ok(());
        }
        let place = self.places[j - self.front.len()];
        let k = self.put as usize + place.index as usize;
        self.source.page(k, to)?;
        trim(to, self.inside(k));
        Ok(())
    }

    ghost stays = { λ s. (refl, asks_nothing s.source.now (S.stays s.source.now)) };

    ghost goes_on = { λ a b c first second. (second.0 ∙ first.0, asks_more a.source.now b.source.now c.source.now (S.goes_on a.source.now b.source.now c.source.now) first.1 second.1) };
}
