//! What the tests share: a pool on a device, its pages, and what a stop leaves of it.
ghost use Rattle.std.specs.Prelude.{◌≡◌, ◌<◌, ◌≤◌, ◌-◌, ◌⊎◌, ℕ, true, length, get_or, replicate, if◌then◌else◌};
ghost use Rattle.disk_model.specs.SimDisk.{sectors_in};
ghost use Rattle.pool_journal.specs.Giving.{AreRising};
ghost use Rattle.pool_journal.specs.Journal.{IsPoolJournal};
ghost use Rattle.pool_journal.specs.Sizes.{HasPool};

use crate::run_disk::RunDisk;
use disk_model::{DiskFault, SectorDisk, SimDisk};
use pool_journal::{PoolJournal, PoolSizes};
use std::fmt::Debug;
use std::process::Abort;
use sync_journal::{CommitFault, PageSource, RecoverFault, SourceFault};

/// The sectors of a store with maps of one block, but for its homes, as the format has it.
pub(crate) const FRONT: u64 = 16 + 8080;

/// How far the second map and body lie behind the first ones.
const SECOND: u64 = 4040;

/// Ends the test where something does not hold.
pub(crate) fn expect(rt: &impl Abort, holds: bool, otherwise: &str)
    ensures { holds ≡ true }
{
    assert!(rt; holds, "{otherwise}");
}

/// Ends the test where the value isn't the one that is wanted. A test that said `assert_eq!` itself would be proved to end well at each place.
pub(crate) fn equal<T: PartialEq + Debug + Drop>(rt: &impl Abort, got: T, want: T) {
    assert_eq!(rt; got, want);
}

/// Each page is this byte 4,096 times. Where `fails` is set, page 1 fails once.
#[derive(Drop)]
pub(crate) struct Filled {
    pub(crate) byte: u8,
    pub(crate) fails: bool,
}

impl PageSource for Filled {
    ghost pages = { λ s _. replicate 4096 s.byte };

    ghost gives = { λ _ _. Unit {0} };

    ghost failures = { λ s. if s.fails then 0 else 1 };

    ghost keeps_model = { λ _. Unit {0} };

    ghost sure = { λ _ _. Unit {0} };

    ghost follows = { λ _ _. Unit {0} };

    ghost stays = { λ _. tt };

    ghost goes_on = { λ _ _ _ _ _. tt };

    fn page(&mut self, i: usize, to: &mut [u8; 4096]) -> Result<(), SourceFault> {
        if self.fails && i == 1 {
            self.fails = false;
            return Err(SourceFault);
        }
        *to = [self.byte; 4096];
        Ok(())
    }
}

/// Whether a home of these is below a limit and above the one before it.
fn is_next(homes: &[u32], i: usize, limit: u32) -> bool
    requires { i < length homes.now }
    ensures low { result ≡ true → get_or homes.now i 0 < limit }
    ensures above { result ≡ true → (i ≡ 0) ⊎ (get_or homes.now (i - 1) 0 < get_or homes.now i 0) }
{
    homes[i] < limit && (i == 0 || homes[i - 1] < homes[i])
}

/// Whether homes rise, and all are below a limit.
fn are_rising(homes: &[u32], limit: u32) -> bool
    ensures rising { result ≡ true → AreRising homes.now }
    ensures low { result ≡ true → (j : ℕ) → j < length homes.now → get_or homes.now j 0 < limit }
{
    for i in 0..homes.len() {
        if !is_next(homes, i, limit) {
            return false;
        }
    }
    true
}

/// The sizes of a pool with maps of one block on a device.
fn sizes_on(disk: &RunDisk) -> PoolSizes
    requires { 8096 ≤ sectors_in disk.now.disk }
    ensures { HasPool ⟦<RunDisk as SectorDisk>⟧ result disk.now }
{
    PoolSizes::of(1, disk.sectors())
}

/// A pool with maps of one block, and its device.
#[derive(Drop)]
pub(crate) struct Pool {
    pub(crate) disk: RunDisk,
    pub(crate) journal: PoolJournal,
    ghost is: { IsPoolJournal journal },
    ghost has: { HasPool ⟦<RunDisk as SectorDisk>⟧ journal.sizes disk },
}

impl Pool {
    /// A new one with so many homes of zeros.
    pub(crate) fn new(rt: &(impl AllocGlobal + Abort), homes: u32) -> Pool {
        let sectors = FRONT + 8 * u64::from(homes);
        let mut disk = RunDisk::new(SimDisk::new(rt.alloc(), sectors).expect(rt, "memory"));
        let sizes = sizes_on(&disk);
        PoolJournal::clear(&mut disk, sizes).expect(rt, "an empty pool");
        disk.sync().expect(rt, "a sync");
        let journal = PoolJournal::new(rt.alloc(), sizes).expect(rt, "memory");
        Pool { disk, journal }.left(rt, None)
    }

    /// Commits pages to these homes, where they rise, the device has them and as many slots are free. Else it ends the test.
    pub(crate) fn commit(
        &mut self,
        rt: &impl Abort,
        homes: &[u32],
        source: &mut Filled,
    ) -> Result<(), CommitFault> {
        let limit = self.journal.sizes().homes;
        expect(rt, are_rising(homes, limit), "homes that don't rise");
        let is_room = homes.len() <= self.journal.free_pages();
        expect(rt, is_room, "too many homes");
        self.journal.commit(&mut self.disk, homes, source)
    }

    /// Commits pages of this byte to these homes, and ends the test where that fails.
    pub(crate) fn fill(&mut self, rt: &impl Abort, homes: &[u32], byte: u8, otherwise: &str) {
        let mut source = Filled { byte, fails: false };
        let done = self.commit(rt, homes, &mut source);
        expect(rt, done.is_ok(), otherwise);
    }

    /// Takes it up as it stands, and writes nothing.
    pub(crate) fn resume(&mut self) -> Result<(), DiskFault> {
        self.journal.resume(&mut self.disk)
    }

    pub(crate) fn renew(&mut self) -> Result<(), DiskFault> {
        self.journal.renew(&mut self.disk)
    }

    pub(crate) fn recover(&mut self) -> Result<(), RecoverFault> {
        self.journal.recover(&mut self.disk)
    }

    pub(crate) fn tidy(&mut self) -> Result<(), DiskFault> {
        self.journal.tidy(&mut self.disk)
    }

    /// Makes so many homes zeros from one on, where the device has them. Else it ends the test.
    pub(crate) fn blank(
        &mut self,
        rt: &impl Abort,
        first: u32,
        count: u32,
    ) -> Result<(), DiskFault> {
        let homes = self.journal.sizes().homes;
        let has_them = first <= homes && count <= homes - first;
        expect(rt, has_them, "homes that the device doesn't have");
        self.journal.blank(&mut self.disk, first, count)
    }

    /// The device fails in that call from now on, the first being 1.
    pub(crate) fn fail_in(&mut self, call: u64) {
        let calls = self.disk.disk.calls();
        self.disk.disk.fail_at(calls.saturating_add(call));
    }

    /// Whether a sector is this byte 512 times.
    pub(crate) fn holds(&self, n: u64, byte: u8) -> bool {
        n < self.disk.disk.sectors() && *self.disk.disk.sector(n) == [byte; 512]
    }

    /// The byte that fills a page, and 255 where it can't be read or is not of one byte.
    fn byte(&mut self, home: u32) -> u8 {
        if home >= self.journal.sizes().homes {
            return 255;
        }
        let mut page = [0; 4096];
        match self.journal.read(&mut self.disk, home, &mut page) {
            Ok(()) if page == [page[0]; 4096] => page[0],
            _ => 255,
        }
    }

    /// The bytes that fill these pages.
    pub(crate) fn bytes(&mut self, homes: [u32; 4]) -> [u8; 4] {
        let [first, second, third, last] = homes;
        [
            self.byte(first),
            self.byte(second),
            self.byte(third),
            self.byte(last),
        ]
    }

    /// What a stop leaves, with these bytes in each unsynced sector of the gate, the maps and the first slots, or else those that were last synced. The
    /// journal is a new one.
    pub(crate) fn left(&self, rt: &(impl AllocGlobal + Abort), filling: Option<[u8; 512]>) -> Pool {
        let mut chosen = Vec::new(rt.alloc());
        if let Some(bytes) = filling {
            for n in 0..48 {
                chosen.push((n, bytes)).expect(rt, "memory");
                chosen.push((n + SECOND, bytes)).expect(rt, "memory");
            }
        }
        let left = self.disk.disk.left(rt.alloc(), chosen.as_slice());
        let disk = RunDisk::new(left.expect(rt, "memory"));
        let journal = PoolJournal::new(rt.alloc(), self.journal.sizes()).expect(rt, "memory");
        Pool { disk, journal }
    }
}
