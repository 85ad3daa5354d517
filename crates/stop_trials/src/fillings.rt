//! What a stop leaves in the sectors that were not synced.
ghost use Rattle.std.specs.Prelude.{◌≡◌, ◌<◌, ℕ, List, IfOk, unwrap_or};
ghost use Rattle.sync_journal.specs.Gate.{open_sector};
ghost use Rattle.disk_model.specs.Plan.{first_listed};
ghost use Rattle.disk_model.specs.Stop.{MayLeave};
ghost use Rattle.disk_model.specs.SimDisk.{sectors_in, sector_of, IsUnsynced, IsNewDevice};
ghost use Rattle.stop_trials.specs.Fillings.{filled_by, left_with, half_open_sector};

use disk_model::{SECTOR_BYTES, SectorDisk, SimDisk};
use std::alloc::{AllocError, Global};

/// What each sector that was not synced holds after a stop.
#[derive(Clone, Copy)]
pub(crate) enum Filling {
    /// What was last synced.
    Old,
    /// Zeros.
    Zeros,
    /// Bytes of ones.
    Ones,
    /// The first half of what opens the gate of a journal, and zeros.
    HalfOpen,
    /// What opens the gate of a journal.
    Open,
}

const OPEN_GATE: &[u8; 512] = b"\
    GATEOPENGATEOPENGATEOPENGATEOPENGATEOPENGATEOPENGATEOPENGATEOPEN\
    GATEOPENGATEOPENGATEOPENGATEOPENGATEOPENGATEOPENGATEOPENGATEOPEN\
    GATEOPENGATEOPENGATEOPENGATEOPENGATEOPENGATEOPENGATEOPENGATEOPEN\
    GATEOPENGATEOPENGATEOPENGATEOPENGATEOPENGATEOPENGATEOPENGATEOPEN\
    GATEOPENGATEOPENGATEOPENGATEOPENGATEOPENGATEOPENGATEOPENGATEOPEN\
    GATEOPENGATEOPENGATEOPENGATEOPENGATEOPENGATEOPENGATEOPENGATEOPEN\
    GATEOPENGATEOPENGATEOPENGATEOPENGATEOPENGATEOPENGATEOPENGATEOPEN\
    GATEOPENGATEOPENGATEOPENGATEOPENGATEOPENGATEOPENGATEOPENGATEOPEN";

/// What an open gate holds.
fn open_bytes() -> [u8; SECTOR_BYTES]
    ensures { result ≡ open_sector }
{
    *OPEN_GATE
}

const HALF_OPEN_GATE: &[u8; 512] = b"\
    GATEOPENGATEOPENGATEOPENGATEOPENGATEOPENGATEOPENGATEOPENGATEOPEN\
    GATEOPENGATEOPENGATEOPENGATEOPENGATEOPENGATEOPENGATEOPENGATEOPEN\
    GATEOPENGATEOPENGATEOPENGATEOPENGATEOPENGATEOPENGATEOPENGATEOPEN\
    GATEOPENGATEOPENGATEOPENGATEOPENGATEOPENGATEOPENGATEOPENGATEOPEN\
    \0\0\0\0\0\0\0\0\0\0\0\0\0\0\0\0\0\0\0\0\0\0\0\0\0\0\0\0\0\0\0\0\0\0\0\0\0\0\0\0\0\0\0\0\0\0\0\0\0\0\0\0\0\0\0\0\0\0\0\0\0\0\0\0\
    \0\0\0\0\0\0\0\0\0\0\0\0\0\0\0\0\0\0\0\0\0\0\0\0\0\0\0\0\0\0\0\0\0\0\0\0\0\0\0\0\0\0\0\0\0\0\0\0\0\0\0\0\0\0\0\0\0\0\0\0\0\0\0\0\
    \0\0\0\0\0\0\0\0\0\0\0\0\0\0\0\0\0\0\0\0\0\0\0\0\0\0\0\0\0\0\0\0\0\0\0\0\0\0\0\0\0\0\0\0\0\0\0\0\0\0\0\0\0\0\0\0\0\0\0\0\0\0\0\0\
    \0\0\0\0\0\0\0\0\0\0\0\0\0\0\0\0\0\0\0\0\0\0\0\0\0\0\0\0\0\0\0\0\0\0\0\0\0\0\0\0\0\0\0\0\0\0\0\0\0\0\0\0\0\0\0\0\0\0\0\0\0\0\0\0";

/// The first half of it, and zeros.
fn half_open_bytes() -> [u8; SECTOR_BYTES]
    ensures { result ≡ half_open_sector }
{
    *HALF_OPEN_GATE
}

/// A list of the first sectors, so many, each with these bytes.
fn everywhere(
    alloc: Global,
    bytes: [u8; SECTOR_BYTES],
    sectors: u64,
) -> Result<Vec<(u64, [u8; SECTOR_BYTES])>, AllocError>
    ensures { IfOk result (λ v. (k : ℕ) (other : List ℕ) → k < sectors → first_listed v.items k other ≡ bytes) }
{
    let mut chosen = Vec::new(alloc);
    for sector in 0..sectors {
        chosen.push((sector, bytes))?;
    }
    Ok(chosen)
}

impl Filling {
    /// Its bytes, where they aren't the old ones.
    fn bytes(self) -> Option<[u8; SECTOR_BYTES]>
        ensures { (old : List ℕ) → unwrap_or result old ≡ filled_by self old }
    {
        match self {
            Filling::Old => None,
            Filling::Zeros => Some([0; SECTOR_BYTES]),
            Filling::Ones => Some([0xff; SECTOR_BYTES]),
            Filling::HalfOpen => Some(half_open_bytes()),
            Filling::Open => Some(open_bytes()),
        }
    }

    /// The device after a stop that leaves this in each sector that was not synced, and in each other what it holds.
    ///
    /// # Errors
    ///
    /// `AllocError` where the host has no room for the sectors.
    pub(crate) fn left(self, alloc: Global, disk: &SimDisk) -> Result<SimDisk, AllocError>
        ensures size { IfOk result (λ d. sectors_in d ≡ sectors_in disk.now) }
        ensures bytes { IfOk result (λ d. (k : ℕ) → k < sectors_in disk.now → sector_of d k ≡ left_with self disk.now k) }
        ensures stop { IfOk result (λ d. MayLeave (sector_of disk.now) (IsUnsynced disk.now) (sector_of d)) }
        ensures fresh { IfOk result IsNewDevice }
    {
        let Some(bytes) = self.bytes() else {
            let left = disk.left(alloc, &[])?;
            return Ok(left);
        };
        let chosen = everywhere(alloc, bytes, disk.sectors())?;
        let left = disk.left(alloc, chosen.as_slice())?;
        Ok(left)
    }
}
