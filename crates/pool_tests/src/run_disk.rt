//! A device that counts how it is written.
ghost use Rattle.std.specs.Prelude.{◌≡◌};
ghost use Rattle.disk_model.specs.SimDisk.{sectors_in, sector_of, IsUnsynced, moment_of, LeftSince, failures_of, asked_of};

use disk_model::{DiskFault, SectorDisk, SimDisk, WriteZeros};

/// A device in memory that counts runs of writes: rows of sectors of which each one lies behind the one before, with no sync between.
#[derive(Drop)]
pub(crate) struct RunDisk {
    pub disk: SimDisk,
    pub runs: u64,
    /// The sector behind the last run, and 0 where a sync came.
    next: u64,
    /// The last of all sectors that were written.
    pub last: u64,
}

impl RunDisk {
    pub(crate) fn new(disk: SimDisk) -> RunDisk
        ensures { result.disk ≡ disk }
    {
        RunDisk {
            disk,
            runs: 0,
            next: 0,
            last: 0,
        }
    }

    /// Counts a write of so many sectors.
    fn note(&mut self, n: u64, sectors: u64)
        ensures { self.new.disk ≡ self.old.disk }
    {
        if n != self.next {
            self.runs = self.runs.saturating_add(1);
        }
        self.next = n.saturating_add(sectors);
        self.last = self.last.max(self.next.saturating_sub(1));
    }
}

/// Nothing is promised of what it keeps: the tests look.
impl SectorDisk for RunDisk {
    ghost sector_count = { λ d. sectors_in d.disk };

    ghost content = { λ d. sector_of d.disk };

    ghost unsynced = { λ d. IsUnsynced d.disk };

    ghost moment = { λ d. moment_of d.disk };

    ghost left_since = { λ d. LeftSince d.disk };

    ghost failures = { λ d. failures_of d.disk };

    ghost asked = { λ d. asked_of d.disk };

    ghost keeps_model = { λ _. ⊥ };

    ghost counts_now = { λ d t c kept le now. absurd kept };

    ghost only_now = { λ d c kept left. absurd kept };

    fn sectors(&self) -> u64 {
        self.disk.sectors()
    }

    fn read(&mut self, n: u64, to: &mut [u8; 512]) -> Result<(), DiskFault> {
        self.disk.read(n, to)
    }

    fn write(&mut self, n: u64, from: &[u8; 512]) -> Result<(), DiskFault> {
        self.note(n, 1);
        self.disk.write(n, from)
    }

    fn read_page(&mut self, n: u64, to: &mut [u8; 4096]) -> Result<(), DiskFault> {
        self.disk.read_page(n, to)
    }

    fn write_page(&mut self, n: u64, from: &[u8; 4096]) -> Result<(), DiskFault> {
        self.note(n, 8);
        self.disk.write_page(n, from)
    }

    fn sync(&mut self) -> Result<(), DiskFault> {
        self.next = 0;
        self.disk.sync()
    }
}

impl WriteZeros for RunDisk {}
