//! A store after a stop.
ghost use Rattle.std.specs.Prelude.{◌<◌, ◌≤◌, ℕ};
ghost use Rattle.disk_model.specs.Stop.{Image};
ghost use Rattle.disk_model.specs.Moments.{AsksOnly};
ghost use Rattle.sync_journal.specs.Layout.{first_home_sector};
ghost use Rattle.sync_journal.specs.Recovery.{Finds, GivesHomes};
ghost use Rattle.sync_journal.specs.Standing.{IsAskedIn};
ghost use Rattle.sync_journal.specs.Stops.{LeftByRecoveries};
ghost use Rattle.sync_journal.specs.Recovering.{RecoversOne};
ghost use Rattle.sync_journal.specs.Steps.{IsSyncedStore, LooksOnly};
ghost use Rattle.sync_journal.specs.Layouts.{HomesStandAs};
ghost use Rattle.sync_journal.specs.Commit.{one_journal};

use crate::faults::RecoverFault;
use crate::gate::is_open_gate;
use crate::homes::replay;
use crate::layout::{GATE, MAP, PAGE_LIMIT, home_count};
use crate::map::read_homes;
use crate::pages::read_page;
use disk_model::SectorDisk;

/// Syncs, and then copies the pages of an open journal to their homes and closes the gate. Where the gate is closed
/// nothing is written. It may be stopped at any moment, any number of times in a row.
///
/// # Errors
///
/// `BadJournal` comes exactly where the gate is open and the map names over 1,023 pages, a home that the device
/// hasn't or a home twice, unless the device fails first. `Device` comes exactly where the device failed.
pub fn recover<D: SectorDisk>(disk: &mut D) -> Result<(), RecoverFault>
    requires { first_home_sector ≤ D.sector_count disk.old }
    ensures { RecoversOne D.SectorDisk disk.old disk.new result }
{
    disk.sync()?;
    recover_synced(disk)
}

/// It does nothing: its contract is a law. Whatever image any number of stops in a row leave, each within a recovery of
/// what the one before left, stands for the home pages of the first image.
pub fn stops_in_a_row<D: SectorDisk>(_disk: &D)
    ensures { (sectors n : ℕ) (first last : Image) → LeftByRecoveries D.SectorDisk sectors n first last → HomesStandAs one_journal sectors first last }
{}

/// The same on a device that has nothing unsynced: nothing is synced first. That it has nothing is for the caller to know.
///
/// # Errors
///
/// Those of `recover`.
pub fn recover_synced<D: SectorDisk>(disk: &mut D) -> Result<(), RecoverFault>
    requires { IsSyncedStore D.SectorDisk disk.old }
    ensures { RecoversOne D.SectorDisk disk.old disk.new result }
{
    let mut homes = [0; PAGE_LIMIT];
    let Some(count) = find_open(disk, &mut homes)? else {
        return Ok(());
    };
    replay(disk, &homes[..count])?;
    Ok(())
}

// Reads gate and map: `None` where the gate is closed, otherwise how many homes the map names, which then stand at
// the front of `homes`.
fn find_open<D: SectorDisk>(
    disk: &mut D,
    homes: &mut [u32; PAGE_LIMIT],
) -> Result<Option<usize>, RecoverFault>
    requires { first_home_sector ≤ D.sector_count disk.old }
    ensures looks { LooksOnly D.SectorDisk disk.old disk.new result }
    ensures asks { D.keeps_model disk.new → AsksOnly D.SectorDisk (IsAskedIn (D.content disk.old)) disk.old disk.new }
    ensures gives { GivesHomes (D.sector_count disk.old) homes.new result }
    ensures finds { D.keeps_model disk.new → Finds (D.sector_count disk.old) (D.content disk.old) homes.new result }
{
    let mut sector = [0; 512];
    disk.read(GATE, &mut sector)?;
    if !is_open_gate(&sector) {
        return Ok(None);
    }
    let mut map = [0; 4096];
    read_page(disk, MAP, &mut map)?;
    match read_homes(&map, home_count(disk.sectors()), homes) {
        Some(count) => Ok(Some(count)),
        None => Err(RecoverFault::BadJournal),
    }
}
