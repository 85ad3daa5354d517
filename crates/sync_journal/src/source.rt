//! Where a commit takes its pages from.
ghost use Rattle.std.specs.Prelude.{◌≡◌, ℕ, List, OnOk};
ghost use Rattle.disk_model.specs.Stop.{HasCause};

/// The source failed in this call.
#[derive(Clone, Copy, Debug, PartialEq, Eq)]
pub struct SourceFault;

/// Gives pages of 4,096 bytes by their place in a list.
///
/// A source that reads a device may fail, and gives the right bytes only as long as that device keeps the disk
/// model: so what it gives is said under `keeps_model`, but for the pages that it is sure of.
pub trait PageSource {
    /// The bytes of each page. Calls leave them as they are.
    ghost pages: { Self → ℕ → List ℕ };

    /// A page that may be asked for.
    ghost gives: { Self → ℕ → Type 0 };

    /// How often the source has failed.
    ghost failures: { Self → ℕ };

    /// What the source stands on has kept its model so far. A source of plain memory always does.
    ghost keeps_model: { Self → Type 0 };

    /// A page that it gives as it is, whatever the source stands on does: one of plain memory, say.
    ghost sure: { Self → ℕ → Type 0 };

    /// The second may be what calls of `page` made of the first: what else a caller wants to know of the source.
    ghost follows: { Self → Self → Type 0 };

    /// Writes page `i` into `to`. On a fault nothing is said of `to`, and the page may be asked for again.
    fn page(&mut self, i: usize, to: &mut [u8; 4096]) -> Result<(), SourceFault>
        requires { gives self.old i }
        ensures kept { keeps_model self.new → keeps_model self.old }
        ensures cause { HasCause (failures self.old) (failures self.new) result }
        ensures given { keeps_model self.new → OnOk result (to.new ≡ pages self.old i) }
        ensures sure { (sure self.old i → OnOk result (to.new ≡ pages self.old i)) × ((k : ℕ) → sure self.old k → sure self.new k × (pages self.new k ≡ pages self.old k)) }
        ensures same { (k : ℕ) → (gives self.old k → gives self.new k) × (keeps_model self.new → pages self.new k ≡ pages self.old k) }
        ensures follows { follows self.old self.new };

    /// No call at all.
    ghost stays: { (s : Self) → follows s s };

    /// Some calls, and then some more.
    ghost goes_on: { (a b c : Self) → follows a b → follows b c → follows a c };
}
