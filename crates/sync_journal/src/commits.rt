//! Pages made durable all at once.
ghost use Rattle.std.specs.Prelude.{◌≡◌, ◌<◌, ◌≤◌, ◌⊎◌, ◌+◌, [], length, IfSome, OnOk};
ghost use Rattle.sync_journal.specs.Layout.{gate_sector, home_count, home_sector, IsMovedHome, IsReplayed, first_home_sector, page_limit};
ghost use Rattle.sync_journal.specs.Gate.{closed_gate};
ghost use Rattle.sync_journal.specs.Map.{AreHomes, home_rank};
ghost use Rattle.sync_journal.specs.Standing.{place_or_home};
ghost use Rattle.sync_journal.specs.Commit.{IsAtRest};
ghost use Rattle.sync_journal.specs.Journal.{live_homes};
ghost use Rattle.sync_journal.specs.Committing.{CommitsOne};
ghost use Rattle.sync_journal.specs.Source.{GivesFor};
ghost use Rattle.sync_journal.specs.Steps.{SeesHome, MovesHome};

use crate::faults::CommitFault;
use crate::homes::replay;
use crate::journal::Journal;
use crate::layout::{BODY, FIRST_HOME, PAGE_LIMIT, PAGE_SECTORS};
use crate::pages::read_page;
use crate::publish::publish;
use crate::source::PageSource;
use disk_model::{DiskFault, SectorDisk};

impl Journal {
    /// The journal of a store whose gate is closed.
    pub fn closed() -> Journal
        ensures { live_homes result ≡ [] }
    {
        Journal {
            homes: [0; PAGE_LIMIT],
            count: 0,
        }
    }

    pub(crate) fn live(&self) -> &[u32]
        ensures { result.now ≡ live_homes self.now }
    {
        &self.homes[..self.count]
    }

    /// Makes the pages that the source gives durable, all at once: page `i` stands for home `homes[i]`. The pages of the
    /// commit before are written home first. It takes `8 c + 1` sector writes and 2 syncs for those `c` pages, where there
    /// are any, and `8 n + 9` writes and 2 syncs for the `n` new ones.
    ///
    /// `Source` comes only where the source failed: the store then stands for what it did at every moment, no journal is
    /// live, and commit may be called again. `Device` comes only where the device failed: every image that a stop might
    /// have left stands for the pages before or for those after.
    pub fn commit<D: SectorDisk, S: PageSource>(
        &mut self,
        disk: &mut D,
        homes: &[u32],
        source: &mut S,
    ) -> Result<(), CommitFault>
        requires some { 0 < length homes.now }
        requires given { GivesFor S.PageSource (home_count (D.sector_count disk.old)) homes.now source.old }
        requires live { AreHomes (home_count (D.sector_count disk.old)) (live_homes self.old) }
        requires rest { D.keeps_model disk.old → IsAtRest D.SectorDisk (live_homes self.old) disk.old }
        ensures { CommitsOne D.SectorDisk S.PageSource self.old self.new homes.now disk.old disk.new source.old source.new result }
    {
        self.finish(disk)?;
        publish(disk, homes, source)?;
        self.keep(homes);
        Ok(())
    }

    /// Reads the page that stands for a home: from the body where the journal is live with it, otherwise from the home.
    /// A fault comes only where the device failed, and nothing is then said of `to`.
    pub fn read<D: SectorDisk>(
        &self,
        disk: &mut D,
        home: u32,
        to: &mut [u8; 4096],
    ) -> Result<(), DiskFault>
        requires home { home < home_count (D.sector_count disk.old) }
        requires rest { D.keeps_model disk.old → IsAtRest D.SectorDisk (live_homes self.now) disk.old }
        ensures { SeesHome D.SectorDisk (live_homes self.now) home disk.old disk.new to.new result }
    {
        read_page(disk, self.stands_at(home), to)
    }

    // The first sector of the page that stands for a home.
    fn stands_at(&self, home: u32) -> u64
        ensures at { result ≡ place_or_home home (home_rank (live_homes self.now) home) }
        ensures inside { (result + 8 ≤ first_home_sector) ⊎ (result ≡ home_sector home) }
    {
        match place(self.live(), home) {
            Some(j) => BODY + PAGE_SECTORS * j as u64,
            None => FIRST_HOME + PAGE_SECTORS * u64::from(home),
        }
    }

    // Writes the pages of a live journal to their homes and closes the gate; it is live no more.
    fn finish<D: SectorDisk>(&mut self, disk: &mut D) -> Result<(), DiskFault>
        requires room { first_home_sector ≤ D.sector_count disk.old }
        requires live { AreHomes (home_count (D.sector_count disk.old)) (live_homes self.old) }
        requires rest { D.keeps_model disk.old → IsAtRest D.SectorDisk (live_homes self.old) disk.old }
        ensures home { MovesHome D.SectorDisk (IsReplayed (live_homes self.old)) (IsMovedHome (live_homes self.old)) disk.old disk.new result }
        ensures gate { D.keeps_model disk.new → OnOk result (D.content disk.new gate_sector ≡ closed_gate (D.content disk.old)) }
        ensures not_live { OnOk result (live_homes self.new ≡ []) }
    {
        if self.count > 0 {
            replay(disk, self.live())?;
            self.count = 0;
        }
        Ok(())
    }

    // The journal is live with these homes.
    pub(crate) fn keep(&mut self, homes: &[u32])
        requires { length homes.now ≤ page_limit }
        ensures { live_homes self.new ≡ homes.now }
    {
        for j in 0..homes.len() {
            self.homes[j] = homes[j];
        }
        self.count = homes.len();
    }
}

// The place of a home in a list of homes.
pub(crate) fn place(homes: &[u32], home: u32) -> Option<usize>
    ensures at { result ≡ home_rank homes.now home }
    ensures below { IfSome result (λ j. j < length homes.now) }
{
    let mut found = None;
    for j in 0..homes.len() {
        if homes[j] == home {
            found = Some(j);
        }
    }
    found
}
