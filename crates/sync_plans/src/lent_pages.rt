//! Pages that the caller lends.
ghost use Rattle.std.specs.Prelude.{◌≡◌, ◌<◌, ℕ, List, [], length, refl};
ghost use Rattle.std.proofs.Common.{◌∙◌};
ghost use Rattle.sync_plans.specs.Pages.{lent_page};

use std::cell::Cell;
use sync_journal::{PageSource, SourceFault};

/// Where the 4,096 bytes of a page lie.
#[repr(C)]
#[derive(Drop)]
pub struct PageBytes<'a> {
    pub at: &'a [u8; 4096],
}

/// Lent pages as a source. It never fails.
#[derive(Clone, Copy)]
pub(crate) struct LentPages<'a> {
    pub pages: &'a [PageBytes<'a>],
    /// Which of them was asked for last, where no page was written since: a hint of where the next one that is written comes from. No clause speaks of it.
    pub last: &'a Cell<Option<usize>>,
}

impl<'a> LentPages<'a> {
    /// No page is lent.
    pub(crate) fn none(last: &'a Cell<Option<usize>>) -> LentPages<'a>
        ensures { result.pages.now ≡ [] }
    {
        LentPages { pages: &[], last }
    }
}

impl PageSource for LentPages<'_> {
    ghost pages = { λ s i. lent_page s.pages.now i };

    ghost gives = { λ s i. i < length s.pages.now };

    ghost failures = { λ _. 0 };

    ghost keeps_model = { λ _. Unit {0} };

    ghost sure = { λ _ _. Unit {0} };

    ghost follows = { λ old new. new ≡ old };

    fn page(&mut self, i: usize, to: &mut [u8; 4096]) -> Result<(), SourceFault> {
        self.last.set(Some(i));
        *to = *self.pages[i].at;
        Ok(())
    }

    ghost stays = { λ _. refl };

    ghost goes_on = { λ _ _ _ first second. second ∙ first };
}
