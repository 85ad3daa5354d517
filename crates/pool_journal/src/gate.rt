//! The gate: one sector, written and synced by itself, that names a map.
ghost use Rattle.std.specs.Prelude.{◌≡◌, ◌<◌, IfOk};
ghost use Rattle.disk_model.specs.Stop.{Names};
ghost use Rattle.pool_journal.specs.Gates.{IsPoolGate};
ghost use Rattle.pool_journal.specs.Pools.{pool_gate, pool_named};
ghost use Rattle.sync_journal.specs.Gate.{is_open_sector, open_sector};
ghost use Rattle.sync_journal.specs.Steps.{ReadsOnly, SyncsInto};

use crate::sizes::POOL_GATE;
use disk_model::{DiskFault, SectorDisk};

const OPEN_GATE: &[u8; 512] = b"\
    GATEOPENGATEOPENGATEOPENGATEOPENGATEOPENGATEOPENGATEOPENGATEOPEN\
    GATEOPENGATEOPENGATEOPENGATEOPENGATEOPENGATEOPENGATEOPENGATEOPEN\
    GATEOPENGATEOPENGATEOPENGATEOPENGATEOPENGATEOPENGATEOPENGATEOPEN\
    GATEOPENGATEOPENGATEOPENGATEOPENGATEOPENGATEOPENGATEOPENGATEOPEN\
    GATEOPENGATEOPENGATEOPENGATEOPENGATEOPENGATEOPENGATEOPENGATEOPEN\
    GATEOPENGATEOPENGATEOPENGATEOPENGATEOPENGATEOPENGATEOPENGATEOPEN\
    GATEOPENGATEOPENGATEOPENGATEOPENGATEOPENGATEOPENGATEOPENGATEOPEN\
    GATEOPENGATEOPENGATEOPENGATEOPENGATEOPENGATEOPENGATEOPENGATEOPEN";

/// Has the gate name a map, and syncs.
pub(crate) fn name_map<D: SectorDisk>(disk: &mut D, second: bool) -> Result<(), DiskFault>
    requires { pool_gate < D.sector_count disk.old }
    ensures { SyncsInto D.SectorDisk IsPoolGate IsPoolGate (pool_named (D.content disk.new) ≡ second) disk.old disk.new result }
{
    disk.write(POOL_GATE, &gate_bytes(second))?;
    disk.sync()
}

/// Reads which map the gate names.
pub(crate) fn named<D: SectorDisk>(disk: &mut D) -> Result<bool, DiskFault>
    requires { pool_gate < D.sector_count disk.old }
    ensures reads { ReadsOnly D.SectorDisk disk.old disk.new result }
    ensures asks { Names IsPoolGate (D.asked disk.old) (D.asked disk.new) }
    ensures named { D.keeps_model disk.new → IfOk result (λ second. second ≡ pool_named (D.content disk.old)) }
{
    let mut sector = [0; 512];
    disk.read(POOL_GATE, &mut sector)?;
    Ok(is_open(&sector))
}

// Whether a gate of these bytes names the second map.
fn is_open(sector: &[u8; 512]) -> bool
    ensures { result ≡ is_open_sector sector.now }
{
    sector.as_slice() == open_bytes().as_slice()
}

// What the gate holds that names the second map.
fn open_bytes() -> &'static [u8; 512]
    ensures { result.now ≡ open_sector }
{
    OPEN_GATE
}

// What the gate holds that names a map.
fn gate_bytes(second: bool) -> [u8; 512]
    ensures { is_open_sector result ≡ second }
{
    if second { *open_bytes() } else { [0; 512] }
}
