//! The gate of the journal: one sector, written and synced by itself.
ghost use Rattle.std.specs.Prelude.{◌≡◌, ◌≤◌, true};
ghost use Rattle.sync_journal.specs.Layout.{gate_sector, IsGate, first_home_sector};
ghost use Rattle.sync_journal.specs.Gate.{open_sector, closed_sector, is_open_sector, is_open};
ghost use Rattle.sync_journal.specs.Steps.{SyncsInto};

use crate::layout::GATE;
use disk_model::{DiskFault, SectorDisk};

const OPEN_GATE: &[u8; 512] = b"\
    GATEOPENGATEOPENGATEOPENGATEOPENGATEOPENGATEOPENGATEOPENGATEOPEN\
    GATEOPENGATEOPENGATEOPENGATEOPENGATEOPENGATEOPENGATEOPENGATEOPEN\
    GATEOPENGATEOPENGATEOPENGATEOPENGATEOPENGATEOPENGATEOPENGATEOPEN\
    GATEOPENGATEOPENGATEOPENGATEOPENGATEOPENGATEOPENGATEOPENGATEOPEN\
    GATEOPENGATEOPENGATEOPENGATEOPENGATEOPENGATEOPENGATEOPENGATEOPEN\
    GATEOPENGATEOPENGATEOPENGATEOPENGATEOPENGATEOPENGATEOPENGATEOPEN\
    GATEOPENGATEOPENGATEOPENGATEOPENGATEOPENGATEOPENGATEOPENGATEOPEN\
    GATEOPENGATEOPENGATEOPENGATEOPENGATEOPENGATEOPENGATEOPENGATEOPEN";

// What an open gate holds.
pub(crate) fn open_bytes() -> &'static [u8; 512]
    ensures { result.now ≡ open_sector }
{
    OPEN_GATE
}

/// Whether a gate of these bytes is open.
pub(crate) fn is_open_gate(sector: &[u8; 512]) -> bool
    ensures { result ≡ is_open_sector sector.now }
{
    sector.as_slice() == open_bytes().as_slice()
}

/// Opens the gate, and syncs.
pub(crate) fn open_gate<D: SectorDisk>(disk: &mut D) -> Result<(), DiskFault>
    requires { first_home_sector ≤ D.sector_count disk.old }
    ensures { SyncsInto D.SectorDisk IsGate IsGate (is_open (D.content disk.new) ≡ true) disk.old disk.new result }
{
    write_gate(disk, open_bytes())
}

/// Closes the gate, by a sector of zeros, and syncs.
pub(crate) fn close_gate<D: SectorDisk>(disk: &mut D) -> Result<(), DiskFault>
    requires { first_home_sector ≤ D.sector_count disk.old }
    ensures { SyncsInto D.SectorDisk IsGate IsGate (D.content disk.new gate_sector ≡ closed_sector) disk.old disk.new result }
{
    write_gate(disk, &[0; 512])
}

// Writes the gate, and syncs.
fn write_gate<D: SectorDisk>(disk: &mut D, gate: &[u8; 512]) -> Result<(), DiskFault>
    requires { first_home_sector ≤ D.sector_count disk.old }
    ensures { SyncsInto D.SectorDisk IsGate IsGate (D.content disk.new gate_sector ≡ gate.now) disk.old disk.new result }
{
    disk.write(GATE, gate)?;
    disk.sync()
}
