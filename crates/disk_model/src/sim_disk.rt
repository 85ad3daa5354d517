//! A device in memory whose failures and stops are chosen.
ghost use Rattle.std.specs.Prelude.{◌≡◌, ◌<◌, ◌≤◌, ◌+◌, ◌^◌, ℕ, [], slice_index_or, replicate, length, is_err, IfOk, OnOk};
ghost use Rattle.std.proofs.Common.{inl};
ghost use Rattle.disk_model.specs.Stop.{MayLeave, IsOfPage, HasCause, Names};
ghost use Rattle.disk_model.specs.Sectors.{sector_bytes, part_of};
ghost use Rattle.disk_model.specs.Plan.{is_at, failures_after, first_listed};

use crate::asking::Asked;
use crate::ghost_data::{Count, Log};
use crate::{DiskFault, SECTOR_BYTES, SectorDisk, WriteZeros};
use std::alloc::{AllocError, Global};

/// What a failed write leaves in its sector, until it is written again.
const GARBLED: [u8; SECTOR_BYTES] = [0xee; SECTOR_BYTES];

/// A device in memory. It keeps the model of `SectorDisk`, and fails or stops where it is told to.
#[derive(Drop)]
pub struct SimDisk {
    sectors: Vec<[u8; SECTOR_BYTES]>,
    /// The sectors as they were last synced.
    synced: Vec<[u8; SECTOR_BYTES]>,
    unsynced: Vec<bool>,
    stop: Option<u64>,
    fail: Option<u64>,
    stopped: bool,
    calls: u64,
    writes: u64,
    syncs: u64,
    failures: Count,
    asked: Asked,
    /// The sectors and marks before each write and sync.
    past: Log,
    ghost synced_length: { length synced.items ≡ length sectors.items },
    ghost unsynced_length: { length unsynced.items ≡ length sectors.items },
}

fn is_at(armed: Option<u64>, count: u64) -> bool
    ensures { result ≡ is_at armed count }
{
    match armed {
        Some(k) => k == count,
        None => false,
    }
}

fn filled<T: Copy>(alloc: Global, count: u64, value: T) -> Result<Vec<T>, AllocError>
    ensures { IfOk result (λ v. v.items ≡ replicate count value) }
{
    let mut items = Vec::new(alloc);
    for i in 0..count {
        items.push(value)?;
    }
    Ok(items)
}

/// The result of a call, whose failure is counted.
fn answer(fails: bool, failures: &mut Count) -> Result<(), DiskFault>
    ensures fails { is_err result ≡ fails }
    ensures cause { HasCause failures.old.number failures.new.number result }
    ensures counted { failures.new.number ≡ failures_after fails failures.old.number }
{
    if fails {
        failures.raise();
        return Err(DiskFault);
    }
    Ok(())
}

/// A fault where some part of a call failed.
fn fault_if(failed: bool) -> Result<(), DiskFault>
    ensures { is_err result ≡ failed }
{
    if failed { Err(DiskFault) } else { Ok(()) }
}

/// The eight sectors of a page.
pub fn parts(page: &[u8; 4096]) -> &[[u8; 512]]
    ensures len { length result.now ≡ 8 }
    ensures each { (i : ℕ) → i < 8 → slice_index_or result.now i [] ≡ part_of page.now i }
{
    page.as_chunks::<512>().0
}

/// The bytes that `chosen` lists first for sector `n`, or else `bytes`.
fn listed_or<'a>(
    chosen: &'a [(u64, [u8; SECTOR_BYTES])],
    n: u64,
    bytes: &'a [u8; SECTOR_BYTES],
) -> &'a [u8; SECTOR_BYTES]
    ensures { result.now ≡ first_listed chosen.now n bytes.now }
{
    for (k, listed) in chosen {
        if *k == n {
            return listed;
        }
    }
    bytes
}

impl SimDisk {
    ghost use Rattle.disk_model.specs.SimDisk.{image_of_sectors, sector_of, IsUnsynced, sectors_in, calls_made, writes_made, syncs_made, IsNewDevice, left_at, disk_counts, fails_next, after_read, AnswersAsSimulated, FailsAsArmed, KeepsSectors};

    /// A device of this many sectors of zeros, all of them synced.
    ///
    /// # Errors
    ///
    /// `AllocError` where the host has no room for the sectors.
    pub fn new(alloc: Global, sectors: u64) -> Result<SimDisk, AllocError>
        ensures size { IfOk result (λ d. sectors_in d ≡ sectors) }
        ensures zeros { IfOk result (λ d. (k : ℕ) → k < sectors → sector_of d k ≡ replicate sector_bytes 0) }
        ensures fresh { IfOk result IsNewDevice }
    {
        let zeros = [0; SECTOR_BYTES];
        Ok(SimDisk {
            sectors: filled(alloc, sectors, zeros)?,
            synced: filled(alloc, sectors, zeros)?,
            unsynced: filled(alloc, sectors, false)?,
            stop: None,
            fail: None,
            stopped: false,
            calls: 0,
            writes: 0,
            syncs: 0,
            failures: Count::new(),
            asked: Asked::new(),
            past: Log::new(),
        })
    }

    /// Stops the device at its write `k`, the first being 1: that write and all later calls fail.
    pub fn stop_at(&mut self, k: u64)
        ensures { self.new ≡ record self.old { stop = Some k } }
    {
        self.stop = Some(k);
    }

    /// Fails call `k` of any kind, the first being 1.
    pub fn fail_at(&mut self, k: u64)
        ensures { self.new ≡ record self.old { fail = Some k } }
    {
        self.fail = Some(k);
    }

    /// How many calls were made.
    pub fn calls(&self) -> u64
        ensures { result ≡ calls_made self.now }
    {
        self.calls // reads, writes and syncs
    }

    /// How many writes were made.
    pub fn writes(&self) -> u64
        ensures { result ≡ writes_made self.now }
    {
        self.writes // failed ones too
    }

    /// How many syncs were made.
    pub fn syncs(&self) -> u64
        ensures { result ≡ syncs_made self.now }
    {
        self.syncs // failed ones too
    }

    /// What sector `n` holds.
    pub fn sector(&self, n: u64) -> &[u8; SECTOR_BYTES]
        requires { n < sectors_in self.now }
        ensures { result.now ≡ sector_of self.now n }
    {
        &self.sectors[n as usize]
    }

    /// The device after a stop, with these bytes in its unsynced sectors. One that is listed twice has the
    /// first bytes, one that is not listed has those that were last synced, and bytes that are listed for a
    /// synced sector count for nothing. All is synced then, no call was made, and no fault is armed.
    ///
    /// # Errors
    ///
    /// `AllocError` where the host has no room for the sectors.
    pub fn left(
        &self,
        alloc: Global,
        chosen: &[(u64, [u8; SECTOR_BYTES])],
    ) -> Result<SimDisk, AllocError>
        ensures size { IfOk result (λ d. sectors_in d ≡ sectors_in self.now) }
        ensures bytes { IfOk result (λ d. (k : ℕ) → sector_of d k ≡ left_at self.now chosen.now k) }
        ensures stop { IfOk result (λ d. MayLeave (sector_of self.now) (IsUnsynced self.now) (sector_of d)) }
        ensures fresh { IfOk result IsNewDevice }
    {
        Ok(SimDisk {
            sectors: self.image_left(alloc, chosen)?,
            synced: self.image_left(alloc, chosen)?,
            unsynced: filled(alloc, self.sectors.len() as u64, false)?,
            stop: None,
            fail: None,
            stopped: false,
            calls: 0,
            writes: 0,
            syncs: 0,
            failures: Count::new(),
            asked: Asked::new(),
            past: Log::new(),
        })
    }

    fn image_left(
        &self,
        alloc: Global,
        chosen: &[(u64, [u8; SECTOR_BYTES])],
    ) -> Result<Vec<[u8; SECTOR_BYTES]>, AllocError>
        ensures size { IfOk result (λ v. length v.items ≡ sectors_in self.now) }
        ensures bytes { IfOk result (λ v. (k : ℕ) → image_of_sectors v.items k ≡ left_at self.now chosen.now k) }
    {
        let mut image = Vec::new(alloc);
        for i in 0..self.sectors.len() {
            let bytes = if self.unsynced[i] {
                listed_or(chosen, i as u64, &self.synced[i])
            } else {
                &self.sectors[i]
            };
            image.push(*bytes)?;
        }
        Ok(image)
    }

    // A read that is a call, or a part of one.
    fn get(&mut self, n: u64, to: &mut [u8; SECTOR_BYTES]) -> Result<(), DiskFault>
        requires { n < sectors_in self.old }
        ensures keeps { AnswersAsSimulated self.old self.new result }
        ensures gives { OnOk result (to.new ≡ sector_of self.old n) }
        ensures holds { KeepsSectors self.old self.new }
        ensures fails { FailsAsArmed (fails_next (disk_counts self.old)) (after_read (disk_counts self.old)) self.new result }
        ensures asked { self.new.asked ≡ self.old.asked }
    {
        self.calls = self.calls.saturating_add(1);
        answer(
            self.stopped || is_at(self.fail, self.calls),
            &mut self.failures,
        )?;
        *to = self.sectors[n as usize];
        Ok(())
    }
}

impl SectorDisk for SimDisk {
    ghost use Rattle.disk_model.specs.SimDisk.{sectors_in, sector_of, IsUnsynced, moment_of, LeftSince, only_present, failures_of, asked_of, disk_counts, fails_next, write_fails_next, after_read, after_sync, after_write, after_reads, left_by_write, AnswersAsSimulated, FailsAsArmed, KeepsSectors, RewritesSector, RewritesPage, WritesEach, SyncsSectors};

    ghost sector_count = { sectors_in };

    ghost content = { sector_of };

    ghost unsynced = { IsUnsynced };

    ghost moment = { moment_of };

    ghost left_since = { LeftSince };

    ghost failures = { failures_of };

    ghost asked = { asked_of };

    ghost keeps_model = { λ _. Unit {0} };

    ghost counts_now = { λ d t c kept le now. inl now };

    ghost only_now = { λ d c kept left. only_present d c left };

    fn sectors(&self) -> u64 {
        self.sectors.len() as u64
    }

    fn read(&mut self, n: u64, to: &mut [u8; SECTOR_BYTES]) -> Result<(), DiskFault>
        requires { n < sectors_in self.old }
        ensures keeps { AnswersAsSimulated self.old self.new result }
        ensures asks { Names (λ k. k ≡ n) (asked_of self.old) (asked_of self.new) }
        ensures gives { OnOk result (to.new ≡ sector_of self.old n) }
        ensures holds { KeepsSectors self.old self.new }
        ensures fails { FailsAsArmed (fails_next (disk_counts self.old)) (after_read (disk_counts self.old)) self.new result }
    {
        self.asked.sector(n);
        self.get(n, to)
    }

    fn write(&mut self, n: u64, from: &[u8; SECTOR_BYTES]) -> Result<(), DiskFault>
        requires { n < sectors_in self.old }
        ensures keeps { AnswersAsSimulated self.old self.new result }
        ensures asks { Names (λ k. k ≡ n) (asked_of self.old) (asked_of self.new) }
        ensures written { OnOk result (sector_of self.new n ≡ from.now) }
        ensures leaves { sector_of self.new n ≡ left_by_write (disk_counts self.old) from.now }
        ensures changes { RewritesSector n self.old self.new }
        ensures fails { FailsAsArmed (write_fails_next (disk_counts self.old)) (after_write (disk_counts self.old)) self.new result }
    {
        self.asked.sector(n);
        self.past.note(&[], &self.sectors, &self.unsynced);
        self.calls = self.calls.saturating_add(1);
        self.writes = self.writes.saturating_add(1);
        self.stopped = self.stopped || is_at(self.stop, self.writes);
        self.unsynced[n as usize] = true;
        self.sectors[n as usize] = GARBLED;
        answer(
            self.stopped || is_at(self.fail, self.calls),
            &mut self.failures,
        )?;
        self.sectors[n as usize] = *from;
        Ok(())
    }

    /// It is reads until one fails, eight at most.
    fn read_page(&mut self, n: u64, to: &mut [u8; 4096]) -> Result<(), DiskFault>
        requires room { n + 8 ≤ sectors_in self.old }
        requires fits { n < 2 ^ 60 }
        ensures keeps { AnswersAsSimulated self.old self.new result }
        ensures asks { Names (IsOfPage n) (asked_of self.old) (asked_of self.new) }
        ensures gives { OnOk result ((i : ℕ) → i < 8 → part_of to.new i ≡ sector_of self.old (n + i)) }
        ensures holds { KeepsSectors self.old self.new }
        ensures counted { disk_counts self.new ≡ after_reads 8 (disk_counts self.old) }
    {
        self.asked.page(n);
        let mut sector = [0; SECTOR_BYTES];
        for i in 0..8 {
            self.get(n + i as u64, &mut sector)?;
            let at = 512 * i;
            to[at..at + 512].copy_from_slice(&sector);
        }
        Ok(())
    }

    /// It is eight writes, of which each may stop the device or fail.
    fn write_page(&mut self, n: u64, from: &[u8; 4096]) -> Result<(), DiskFault>
        requires room { n + 8 ≤ sectors_in self.old }
        requires fits { n < 2 ^ 60 }
        ensures keeps { AnswersAsSimulated self.old self.new result }
        ensures asks { Names (IsOfPage n) (asked_of self.old) (asked_of self.new) }
        ensures written { OnOk result ((i : ℕ) → i < 8 → sector_of self.new (n + i) ≡ part_of from.now i) }
        ensures changes { RewritesPage n self.old self.new }
        ensures writes { WritesEach n from.now self.old self.new }
    {
        let mut failed = false;
        for (i, sector) in parts(from).iter().enumerate() {
            if self.write(n + i as u64, sector).is_err() {
                failed = true;
            }
        }
        fault_if(failed)
    }

    fn sync(&mut self) -> Result<(), DiskFault>
        ensures keeps { AnswersAsSimulated self.old self.new result }
        ensures asks { (k : ℕ) → asked_of self.new k ≡ asked_of self.old k }
        ensures syncs { SyncsSectors self.old self.new result }
        ensures fails { FailsAsArmed (fails_next (disk_counts self.old)) (after_sync (disk_counts self.old)) self.new result }
    {
        self.past.note(&[], &self.sectors, &self.unsynced);
        self.calls = self.calls.saturating_add(1);
        self.syncs = self.syncs.saturating_add(1);
        answer(
            self.stopped || is_at(self.fail, self.calls),
            &mut self.failures,
        )?;
        self.synced.copy_from_slice(&self.sectors);
        self.unsynced.fill(false);
        Ok(())
    }
}

impl WriteZeros for SimDisk {}
