//! A row of sectors that can be read, written and synced.
ghost use Rattle.std.specs.Prelude.{◌≡◌, ◌⊎◌, ◌<◌, ◌≤◌, ◌+◌, ◌^◌, ℕ, List, OnOk, OnErr};
ghost use Rattle.disk_model.specs.Stop.{Image, MayLeave, ChangesOnly, ChangesPage, IsOfPage, Elapses, HasCause, Names};
ghost use Rattle.disk_model.specs.Sectors.{part_of};

use std::fmt;

/// The length of a sector in bytes.
pub const SECTOR_BYTES: usize = 512;

/// The device failed in this call.
#[derive(Clone, Copy, Debug, PartialEq, Eq)]
pub struct DiskFault;

impl fmt::Display for DiskFault {
    fn fmt<W: fmt::Write>(&self, f: &mut fmt::Formatter<W>) -> fmt::Result {
        f.write_str("the device failed")
    }
}

impl std::error::Error for DiskFault {}

/// A row of sectors of 512 bytes, whose number never changes.
///
/// Where `keeps_model` holds, the device has kept this model so far:
///
/// - a successful write is what a later read gives;
/// - a stop before, in or after a write may leave any bytes in each sector written since the last successful
///   sync, whether the write succeeded or not, and leaves all others as they were;
/// - a failed write leaves its sector unknown until it is written again, and a failed sync syncs nothing for
///   certain.
pub trait SectorDisk {
    /// How many sectors there are.
    ghost sector_count: { Self → ℕ };

    /// The bytes that a read of each sector gives.
    ghost content: { Self → Image };

    /// The sectors written since the last successful sync.
    ghost unsynced: { Self → ℕ → Type 0 };

    /// The device's clock, a number that does not fall.
    ghost moment: { Self → ℕ };

    /// What a stop at some moment from that one on might have left, during a call or between two.
    ghost left_since: { Self → ℕ → Image → Type 0 };

    /// How often the device has failed.
    ghost failures: { Self → ℕ };

    /// How often calls have named each sector, whether they failed or not.
    ghost asked: { Self → ℕ → ℕ };

    /// The device has kept the model so far.
    ghost keeps_model: { Self → Type 0 };

    /// The number of sectors.
    fn sectors(&self) -> u64
        ensures { result ≡ sector_count self.now };

    /// Reads sector `n`. On a fault nothing is said of `to`.
    fn read(&mut self, n: u64, to: &mut [u8; 512]) -> Result<(), DiskFault>
        requires { n < sector_count self.old }
        ensures size { sector_count self.new ≡ sector_count self.old }
        ensures kept { keeps_model self.new → keeps_model self.old }
        ensures cause { HasCause (failures self.old) (failures self.new) result }
        ensures asks { Names (λ k. k ≡ n) (asked self.old) (asked self.new) }
        ensures gives { keeps_model self.new → OnOk result (to.new ≡ content self.old n) }
        ensures same { keeps_model self.new → content self.new ≡ content self.old }
        ensures unsynced { keeps_model self.new → (k : ℕ) → unsynced self.new k → unsynced self.old k }
        ensures still { keeps_model self.new → (k : ℕ) → unsynced self.old k → unsynced self.new k }
        ensures time { keeps_model self.new → Elapses (moment self.old) (moment self.new) (left_since self.old) (left_since self.new) (content self.new) (unsynced self.new) };

    /// Reads the eight sectors from `n` on. On a fault nothing is said of `to`.
    fn read_page(&mut self, n: u64, to: &mut [u8; 4096]) -> Result<(), DiskFault>
        requires room { n + 8 ≤ sector_count self.old }
        requires fits { n < 2 ^ 60 }
        ensures size { sector_count self.new ≡ sector_count self.old }
        ensures kept { keeps_model self.new → keeps_model self.old }
        ensures cause { HasCause (failures self.old) (failures self.new) result }
        ensures asks { Names (IsOfPage n) (asked self.old) (asked self.new) }
        ensures gives { keeps_model self.new → OnOk result ((i : ℕ) → i < 8 → part_of to.new i ≡ content self.old (n + i)) }
        ensures same { keeps_model self.new → content self.new ≡ content self.old }
        ensures unsynced { keeps_model self.new → (k : ℕ) → unsynced self.new k → unsynced self.old k }
        ensures still { keeps_model self.new → (k : ℕ) → unsynced self.old k → unsynced self.new k }
        ensures time { keeps_model self.new → Elapses (moment self.old) (moment self.new) (left_since self.old) (left_since self.new) (content self.new) (unsynced self.new) };

    /// Writes sector `n`. On a fault it holds unknown bytes, and is unsynced all the same.
    fn write(&mut self, n: u64, from: &[u8; 512]) -> Result<(), DiskFault>
        requires { n < sector_count self.old }
        ensures size { sector_count self.new ≡ sector_count self.old }
        ensures kept { keeps_model self.new → keeps_model self.old }
        ensures cause { HasCause (failures self.old) (failures self.new) result }
        ensures asks { Names (λ k. k ≡ n) (asked self.old) (asked self.new) }
        ensures written { keeps_model self.new → OnOk result (content self.new n ≡ from.now) }
        ensures others { keeps_model self.new → ChangesOnly n (content self.old) (content self.new) }
        ensures unsynced { keeps_model self.new → (k : ℕ) → unsynced self.new k → unsynced self.old k ⊎ (k ≡ n) }
        ensures marked { keeps_model self.new → unsynced self.new n }
        ensures still { keeps_model self.new → (k : ℕ) → unsynced self.old k → unsynced self.new k }
        ensures time { keeps_model self.new → Elapses (moment self.old) (moment self.new) (left_since self.old) (left_since self.new) (content self.new) (unsynced self.new) };

    /// Writes the eight sectors from `n` on, each as `write` does: a stop may leave any bytes in each of them, whatever it
    /// leaves in the others. On a fault they hold unknown bytes, and are unsynced all the same.
    fn write_page(&mut self, n: u64, from: &[u8; 4096]) -> Result<(), DiskFault>
        requires room { n + 8 ≤ sector_count self.old }
        requires fits { n < 2 ^ 60 }
        ensures size { sector_count self.new ≡ sector_count self.old }
        ensures kept { keeps_model self.new → keeps_model self.old }
        ensures cause { HasCause (failures self.old) (failures self.new) result }
        ensures asks { Names (IsOfPage n) (asked self.old) (asked self.new) }
        ensures written { keeps_model self.new → OnOk result ((i : ℕ) → i < 8 → content self.new (n + i) ≡ part_of from.now i) }
        ensures others { keeps_model self.new → ChangesPage n (content self.old) (content self.new) }
        ensures unsynced { keeps_model self.new → (k : ℕ) → unsynced self.new k → unsynced self.old k ⊎ IsOfPage n k }
        ensures marked { keeps_model self.new → (k : ℕ) → IsOfPage n k → unsynced self.new k }
        ensures still { keeps_model self.new → (k : ℕ) → unsynced self.old k → unsynced self.new k }
        ensures time { keeps_model self.new → Elapses (moment self.old) (moment self.new) (left_since self.old) (left_since self.new) (content self.new) (unsynced self.new) };

    /// Syncs all sectors to the device. On a fault what was unsynced still is.
    fn sync(&mut self) -> Result<(), DiskFault>
        ensures size { sector_count self.new ≡ sector_count self.old }
        ensures kept { keeps_model self.new → keeps_model self.old }
        ensures cause { HasCause (failures self.old) (failures self.new) result }
        ensures asks { (k : ℕ) → asked self.new k ≡ asked self.old k }
        ensures same { keeps_model self.new → content self.new ≡ content self.old }
        ensures synced { keeps_model self.new → OnOk result ((k : ℕ) → unsynced self.new k → ⊥) }
        ensures unsynced { keeps_model self.new → (k : ℕ) → unsynced self.new k → unsynced self.old k }
        ensures still { keeps_model self.new → OnErr result ((k : ℕ) → unsynced self.old k → unsynced self.new k) }
        ensures time { keeps_model self.new → Elapses (moment self.old) (moment self.new) (left_since self.old) (left_since self.new) (content self.new) (unsynced self.new) };

    /// What a stop may leave now is among what it might have left since any earlier moment.
    ghost counts_now: { (d : Self) (t : ℕ) (c : Image) → keeps_model d → t ≤ moment d → MayLeave (content d) (unsynced d) c → left_since d t c };

    /// Since this moment there is nothing else.
    ghost only_now: { (d : Self) (c : Image) → keeps_model d → left_since d (moment d) c → MayLeave (content d) (unsynced d) c };
}
