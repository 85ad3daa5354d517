//! Devices that are asked for many sectors of zeros at once.
ghost use Rattle.std.specs.Prelude.{◌≡◌, ◌⊎◌, ◌<◌, ◌≤◌, ◌+◌, ◌*◌, ◌^◌, ℕ, OnOk, replicate};
ghost use Rattle.disk_model.specs.Sectors.{sector_bytes};
ghost use Rattle.disk_model.specs.Stop.{ChangesPages, Elapses, HasCause, IsOfPages, NamesOnce};

use crate::{DiskFault, SectorDisk};

/// The sectors of a page.
const PAGE_SECTORS: u64 = 8;

/// A device that may have a call of its own for many sectors of zeros, as Linux has fallocate(2) with `FALLOC_FL_PUNCH_HOLE`. One that has none writes them page by
/// page.
pub trait WriteZeros: SectorDisk {
    /// Writes zeros to the sectors of `pages` pages from sector `n` on, each as `write` does: a stop may leave any bytes in each of them, whatever it leaves in the
    /// others. On a fault those that it came to are unsynced, and of the others nothing has changed.
    fn write_zeros(&mut self, n: u64, pages: u64) -> Result<(), DiskFault>
        requires room { n + 8 * pages ≤ Self.sector_count self.old }
        requires fits { n + 8 * pages < 2 ^ 60 }
        ensures size { Self.sector_count self.new ≡ Self.sector_count self.old }
        ensures kept { Self.keeps_model self.new → Self.keeps_model self.old }
        ensures cause { HasCause (Self.failures self.old) (Self.failures self.new) result }
        ensures asks { NamesOnce (IsOfPages n pages) (Self.asked self.old) (Self.asked self.new) }
        ensures written { Self.keeps_model self.new → OnOk result ((k : ℕ) → IsOfPages n pages k → Self.content self.new k ≡ replicate sector_bytes 0) }
        ensures others { Self.keeps_model self.new → ChangesPages n pages (Self.content self.old) (Self.content self.new) }
        ensures unsynced { Self.keeps_model self.new → (k : ℕ) → Self.unsynced self.new k → Self.unsynced self.old k ⊎ IsOfPages n pages k }
        ensures marked { Self.keeps_model self.new → OnOk result ((k : ℕ) → IsOfPages n pages k → Self.unsynced self.new k) }
        ensures still { Self.keeps_model self.new → (k : ℕ) → Self.unsynced self.old k → Self.unsynced self.new k }
        ensures time { Self.keeps_model self.new
            → Elapses (Self.moment self.old) (Self.moment self.new) (Self.left_since self.old) (Self.left_since self.new) (Self.content self.new) (Self.unsynced self.new) }
    {
        for i in 0..pages {
            self.write_page(n + PAGE_SECTORS * i, &[0; 4096])?;
        }
        Ok(())
    }
}
