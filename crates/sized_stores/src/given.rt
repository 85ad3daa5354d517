//! Where a commit of lengths takes its pages from.
ghost use Rattle.std.specs.Prelude.{◌≡◌, ◌<◌, ◌≤◌, ◌+◌, ◌-◌, ℕ, length, get_or, refl};
ghost use Rattle.std.proofs.Common.{◌∙◌};
ghost use Rattle.file_store.specs.Asking.{asks_nothing, asks_more};
ghost use Rattle.sized_stores.specs.Given.{place_of};
ghost use Rattle.sync_journal.specs.Source.{Asks};

use sync_journal::{PageSource, SourceFault};

/// New pages of a source, then others of it, and behind these zeros.
#[derive(Drop)]
pub(crate) struct Given<'a, S> {
    pub source: &'a mut S,
    /// In which place of the source's list each new page stands.
    pub fresh: &'a [u32],
    /// The same of the others.
    pub kept: &'a [u32],
}

impl<S> Given<'_, S> {
    /// The place of a page in the source's list, or none where it is zeros.
    fn place(&self, k: usize) -> Option<usize>
        ensures { result ≡ place_of self.now.fresh.now self.now.kept.now k }
    {
        if k < self.fresh.len() {
            return Some(self.fresh[k] as usize);
        }
        match self.kept.get(k - self.fresh.len()) {
            Some(place) => Some(*place as usize),
            None => None,
        }
    }
}

impl<S: PageSource> PageSource for Given<'_, S> {
    ghost use Rattle.sized_stores.specs.Given.{given_page, IsGivenPlace};

    ghost pages = { λ t k. given_page t.fresh.now t.kept.now (S.pages t.source.now) k };

    ghost gives = { λ t k. IsGivenPlace t.fresh.now t.kept.now (S.gives t.source.now) k };

    ghost failures = { λ t. S.failures t.source.now };

    ghost keeps_model = { λ t. S.keeps_model t.source.now };

    ghost sure = { λ t k. IsGivenPlace t.fresh.now t.kept.now (S.sure t.source.now) k };

    ghost follows = { λ s t. (t.source.ghost_name ≡ s.source.ghost_name) × Asks S.PageSource s.source.now t.source.now };

    fn page(&mut self, k: usize, to: &mut [u8; 4096]) -> Result<(), SourceFault> {
        match self.place(k) {
            Some(place) => self.source.page(place, to),
            None => {
                *to = [0; 4096];
                Ok(())
            }
        }
    }

    ghost stays = { λ s. (refl, asks_nothing s.source.now (S.stays s.source.now)) };

    ghost goes_on = { λ a b c first second. (second.0 ∙ first.0, asks_more a.source.now b.source.now c.source.now (S.goes_on a.source.now b.source.now c.source.now) first.1 second.1) };
}
