//! Which sectors the calls of a device have named, as contracts alone see.
ghost use Rattle.std.specs.Prelude.{◌≡◌, ◌<◌, ◌*◌, ◌^◌, ℕ};
ghost use Rattle.disk_model.specs.Stop.{Names, IsOfPage, IsOfPages};

use crate::ghost_data::Log;

/// How often calls have named each sector. A value of this type takes no memory.
#[derive(Drop)]
pub struct Asked {
    calls: Log,
}

impl Asked {
    ghost use Rattle.disk_model.specs.Asked.{times_named};

    /// No call has named any.
    pub fn new() -> Asked
        ensures { (k : ℕ) → times_named result k ≡ 0 }
    {
        Asked { calls: Log::new() }
    }

    /// A call names sector `n`.
    pub fn sector(&mut self, n: u64)
        ensures { Names (λ k. k ≡ n) (times_named self.old) (times_named self.new) }
    {
        self.calls.note(&[n, 1], &[], &[]);
    }

    /// A call names the eight sectors from `n` on.
    pub fn page(&mut self, n: u64)
        ensures { Names (IsOfPage n) (times_named self.old) (times_named self.new) }
    {
        self.calls.note(&[n, 8], &[], &[]);
    }

    /// A call names the sectors of `pages` pages from `n` on.
    pub fn pages(&mut self, n: u64, pages: u64)
        requires { 8 * pages < 2 ^ 64 }
        ensures { Names (IsOfPages n pages) (times_named self.old) (times_named self.new) }
    {
        self.calls.note(&[n, 8 * pages], &[], &[]);
    }
}
