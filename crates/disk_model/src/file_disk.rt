//! A device in a file of the operating system.
ghost use Rattle.std.specs.Prelude.{◌≡◌, ◌<◌, ◌*◌, ◌^◌, ℕ, List, [], true, false, is_ok, IfOk};
ghost use Rattle.disk_model.specs.Sectors.{sector_bytes};
ghost use Rattle.disk_model.specs.Unknown.{unknown_bytes};
ghost use Rattle.disk_model.specs.FileRecord.{is_lost, is_unsynced, has_succeeded, has_written};

use crate::ghost_data::Log;
use crate::sim_disk::parts;
use crate::{DiskFault, SECTOR_BYTES, SectorDisk, WriteZeros};
use std::fs::File;
use std::io;
use std::marker::PhantomData;
use std::os::unix::fs::FileExt;

const SECTOR: u64 = SECTOR_BYTES as u64;

// The kinds of calls, as they are noted.
const READ: u64 = 0;

const WRITE: u64 = 1;

const SYNC: u64 = 2;

/// What no program can know of a file before it reads it. A function over `C: FileContents` is proved for all
/// contents of the file, and for all bytes that failed writes may leave.
pub trait FileContents: Drop {
    /// The bytes of each sector as the file was opened.
    ghost at_first: { ℕ → List ℕ };

    /// The bytes that a failed write leaves in each of its sectors, by the number of calls before it.
    ghost after_fault: { ℕ → ℕ → List ℕ };
}

/// For programs to name. No proof can know which bytes these are.
#[derive(Drop)]
pub struct Unknown;

impl FileContents for Unknown {
    ghost at_first = { unknown_bytes };

    ghost after_fault = { λ call. unknown_bytes };
}

/// A device in a file: sector `n` is the file's 512 bytes from byte `512 n` on, by `pread`, `pwrite` and
/// `fdatasync`. Its model is defined from the record of its calls and their results, which contracts alone see.
///
/// That the file keeps the model cannot be proved of any real file, and is a premise of what is promised of the contents.
/// `keeps_model` speaks of reads alone: each read that succeeded gave, in each of its sectors, what the last write of that
/// sector took (what `FileContents` says, where that write failed or there was none). Of stops it says nothing, since no
/// record of calls can show them: which bytes a stop may leave is defined from the record. That a file which really
/// stopped holds such bytes, and so that a successful sync had reached the disk and that no other sector changed, is taken
/// of the system and its disk.
#[derive(Drop)]
pub struct FileDisk<C: FileContents = Unknown> {
    file: File,
    count: u64,
    /// The opening sync succeeded.
    settled: bool,
    /// A write was asked for.
    written: bool,
    /// The first sector of the last write.
    last: u64,
    lost: bool,
    /// Nothing was written since the last sync, which succeeded.
    is_clean: bool,
    calls: Log,
    contents: PhantomData<C>,
    ghost within: { count * sector_bytes < 2 ^ 64 },
    ghost last_within: { last * sector_bytes < 2 ^ 64 },
    ghost unsettled_fails: { settled ≡ false → has_succeeded calls.notes ≡ false },
    ghost written_by_calls: { written ≡ has_written calls.notes },
    ghost lost_by_calls: { lost ≡ is_lost calls.notes },
    ghost clean_by_calls: { is_clean ≡ true → (k : ℕ) → is_unsynced calls.notes k ≡ false },
}

/// What a call returns that the system carried out, or didn't.
fn answer(done: bool) -> Result<(), DiskFault>
    ensures { is_ok result ≡ done }
{
    if done { Ok(()) } else { Err(DiskFault) }
}

impl<C: FileContents> FileDisk<C> {
    /// The device in this file, which has to be open for reading and writing. It has as many sectors as lie
    /// whole in the file now, and the file must not be cut while it is used.
    ///
    /// The file is synced first, so that a stop leaves what a read gives. Where that fails, so does every call: the opening sync
    /// is a call of the device like any other, and the first that needs it tells its fault.
    ///
    /// # Errors
    ///
    /// The system's, where the length of the file can't be had.
    pub fn new(file: File) -> io::Result<FileDisk<C>>
        ensures fresh { IfOk result (λ d. d.calls.notes ≡ []) }
        ensures kept { IfOk result (λ d. ⟦<FileDisk<C> as SectorDisk>⟧.keeps_model d) }
        ensures synced { IfOk result (λ d. (k : ℕ) → ⟦<FileDisk<C> as SectorDisk>⟧.unsynced d k → ⊥) }
    {
        let count = file.metadata()?.len() / SECTOR;
        let settled = file.sync_all().is_ok();
        Ok(FileDisk {
            file,
            count,
            settled,
            written: false,
            last: 0,
            lost: false,
            is_clean: true,
            calls: Log::new(),
            contents: PhantomData,
        })
    }

    /// Gives the system the last sector anew that was written, after a sync that failed: it is unsynced, and has the bytes that it had.
    ///
    /// After an `fdatasync` that failed Linux keeps the new bytes in its cache, where they count as written: reads give them, later
    /// syncs succeed, and the disk has never got them. A store whose gate stood so would be torn by a stop in the next run. Bytes that
    /// are given anew count as not written, so the sync that the next run begins with writes them, or fails. One sector is enough
    /// for the stores in this repository: gate, mark and kind are each written alone between two syncs, and what else a failed sync may
    /// leave is written again before anything rests on it.
    fn write_last_anew(&self) {
        let mut sector = [0; SECTOR_BYTES];
        if self
            .file
            .read_exact_at(&mut sector, self.last * SECTOR)
            .is_ok()
        {
            let _ = self.file.write_all_at(&sector, self.last * SECTOR);
        }
    }

    /// Whether the opening sync succeeded: else no call of the device has.
    pub fn is_settled(&self) -> bool
        ensures is { result ≡ self.now.settled }
        ensures fails { result ≡ false → has_succeeded self.now.calls.notes ≡ false }
    {
        self.settled
    }

    /// Whether a write was asked for, be it that it failed.
    pub fn is_written(&self) -> bool
        ensures { result ≡ has_written self.now.calls.notes }
    {
        self.written // it stays so after a sync
    }
}

impl<C: FileContents> SectorDisk for FileDisk<C> {
    ghost use Rattle.std.specs.Prelude.{length};
    ghost use Rattle.disk_model.specs.FileRecord.{held_after, Unsynced, LeftAfter, IsHonest, failed_calls, times_called, counts_present, only_present};

    ghost sector_count = { λ d. d.count };

    ghost content = { λ d. held_after C.at_first C.after_fault d.calls.notes };

    ghost unsynced = { λ d. Unsynced d.calls.notes };

    ghost moment = { λ d. length d.calls.notes };

    ghost left_since = { λ d. LeftAfter C.at_first C.after_fault d.calls.notes };

    ghost failures = { λ d. failed_calls d.calls.notes };

    ghost asked = { λ d. times_called d.calls.notes };

    ghost keeps_model = { λ d. IsHonest C.at_first C.after_fault d.calls.notes };

    ghost counts_now = { λ d t c kept le now. counts_present C.at_first C.after_fault d.calls.notes t c now };

    ghost only_now = { λ d c kept left. only_present C.at_first C.after_fault d.calls.notes c left };

    fn sectors(&self) -> u64 {
        self.count
    }

    fn read(&mut self, n: u64, to: &mut [u8; SECTOR_BYTES]) -> Result<(), DiskFault> {
        let done = self.settled && self.file.read_exact_at(to, n * SECTOR).is_ok();
        self.calls.note(&[READ, n], &[*to], &[done]);
        answer(done)
    }

    fn write(&mut self, n: u64, from: &[u8; SECTOR_BYTES]) -> Result<(), DiskFault> {
        let done = self.settled && self.file.write_all_at(from, n * SECTOR).is_ok();
        self.last = n;
        self.written = true;
        self.is_clean = false;
        self.calls.note(&[WRITE, n], &[*from], &[done]);
        answer(done)
    }

    fn read_page(&mut self, n: u64, to: &mut [u8; 4096]) -> Result<(), DiskFault> {
        let done = self.settled && self.file.read_exact_at(to, n * SECTOR).is_ok();
        self.calls.note(&[READ, n], parts(to), &[done]);
        answer(done)
    }

    fn write_page(&mut self, n: u64, from: &[u8; 4096]) -> Result<(), DiskFault> {
        let done = self.settled && self.file.write_all_at(from, n * SECTOR).is_ok();
        self.last = n;
        self.written = true;
        self.is_clean = false;
        self.calls.note(&[WRITE, n], parts(from), &[done]);
        answer(done)
    }

    /// By `fdatasync`, as the file's length never changes; where nothing was written since the last sync, the system is not
    /// asked. After a failed sync all later ones fail: the system may then take pages for written that are not.
    fn sync(&mut self) -> Result<(), DiskFault> {
        let done = self.settled && !self.lost && (self.is_clean || self.file.sync_data().is_ok());
        if self.settled && !self.is_clean && !done {
            self.write_last_anew();
        }
        self.lost = !done;
        self.is_clean = done;
        self.calls.note(&[SYNC, 0], &[], &[done]);
        answer(done)
    }
}

impl<C: FileContents> WriteZeros for FileDisk<C> {}
