//! The directory in memory.
ghost use Rattle.std.specs.Prelude.{◌≡◌, ◌<◌, ◌≤◌, ◌+◌, ◌^◌, ℕ, length, get_or, drop, Option, Some, None, IsSome, IfOk, IfSome, OnOk, OnErr, IsTrue, IsFalse, ◌↔◌};
ghost use Rattle.disk_model.specs.Sectors.{sector_bytes};
ghost use Rattle.file_store.specs.declared.directory.Entry.{Entry};
ghost use Rattle.file_store.specs.Layout.{pages_of_length, listed_files};
ghost use Rattle.file_store.specs.Directory.{decoded, entry_in, home_end, IsHomeOf, IsZero, IsBadDirectory, IsNextOf, AreGood, AreEntries};

use crate::layout::{LISTED_FILES, PAGE_BYTES};
use byteorder::{ByteOrder, LittleEndian};
use vm_types::{FileInfo, FilePage};

/// Bit 31 of an entry's first number: the file is there.
const PRESENT: u32 = 1 << 31;

/// Bit 30: it is read-only. The bits below are its first home page.
const READ_ONLY: u32 = 1 << 30;

/// No store has such a directory.
#[derive(Clone, Copy, Debug, PartialEq, Eq)]
pub(crate) struct BadDirectory;

/// A file's place and facts.
#[derive(Clone, Copy, Debug, PartialEq, Eq)]
pub struct Entry {
    pub first: u32,
    pub info: FileInfo,
}

impl Entry {
    /// What the eight bytes of an entry say.
    #[tactic(auto, unfolding(crate::specs::Directory::decoded))]
    fn decode(bytes: &[u8]) -> Option<Entry>
        requires { 8 ≤ length bytes.now }
        ensures entry { result ≡ decoded bytes.now }
        ensures fits { IfSome result (λ e. e.info.length < 2 ^ 32) }
    {
        let word = LittleEndian::read_u32(bytes);
        let length = u64::from(LittleEndian::read_u32(&bytes[4..]));
        if word / PRESENT % 2 == 0 {
            return None;
        }
        let read_only = word / READ_ONLY % 2 == 1;
        let info = FileInfo { length, read_only };
        Some(Entry {
            first: word % READ_ONLY,
            info,
        })
    }

    /// Whether both numbers of an entry are zero.
    fn is_zero(bytes: &[u8]) -> bool
        requires { 8 ≤ length bytes.now }
        ensures { IsTrue result ↔ IsZero bytes.now }
    {
        LittleEndian::read_u32(bytes) == 0 && LittleEndian::read_u32(&bytes[4..]) == 0
    }

    /// Writes an entry to the front of `bytes`.
    pub(crate) fn encode(&self, bytes: &mut [u8])
        requires room { 8 ≤ length bytes.old }
        requires first { self.now.first < 2 ^ 30 }
        requires short { self.now.info.length < 2 ^ 32 }
        ensures entry { decoded bytes.new ≡ Some self.now }
        ensures others { drop 8 bytes.new ≡ drop 8 bytes.old }
        ensures length { length bytes.new ≡ length bytes.old }
    {
        let length = self.info.length as u32;
        let read_only = if self.info.read_only { READ_ONLY } else { 0 };
        LittleEndian::write_u32(bytes, PRESENT + read_only + self.first);
        LittleEndian::write_u32(&mut bytes[4..], length);
    }

    /// How many pages the file has.
    pub fn pages(&self) -> u64
        ensures { result ≡ pages_of_length self.now.info.length }
    {
        self.info.length.div_ceil(PAGE_BYTES)
    }

    /// The home page behind the file's last.
    fn end(&self) -> u64
        ensures { result ≡ home_end self.now }
    {
        u64::from(self.first) + self.info.length.div_ceil(PAGE_BYTES)
    }

    /// Whether both have a home page.
    fn overlaps(&self, other: &Entry) -> bool
        ensures some { IsTrue result → (h : ℕ) × IsHomeOf self.now h × IsHomeOf other.now h }
        ensures none { IsFalse result → (h : ℕ) → IsHomeOf self.now h → IsHomeOf other.now h → ⊥ }
    {
        u64::from(self.first.max(other.first)) < self.end().min(other.end())
    }

    /// Whether a file, if there is one, has a home page in common with this one.
    fn shares(&self, other: &Option<Entry>) -> bool
        ensures some { IsTrue result → (h : ℕ) × (a : Entry) × (other.now ≡ Some a) × IsHomeOf a h × IsHomeOf self.now h }
        ensures none { IsFalse result → (h : ℕ) (a : Entry) → other.now ≡ Some a → IsHomeOf a h → IsHomeOf self.now h → ⊥ }
    {
        match other {
            Some(other) => other.overlaps(self),
            None => false,
        }
    }
}

/// Whether one of these files has a home page in common with `entry`.
fn overlaps_any(entries: &[Option<Entry>], entry: &Entry) -> bool
    ensures some { IsTrue result → (f : ℕ) × (h : ℕ) × (a : Entry) × (f < length entries.now) × (get_or entries.now f None ≡ Some a) × IsHomeOf a h × IsHomeOf entry.now h }
    ensures none { IsFalse result → (f h : ℕ) (a : Entry) → f < length entries.now → get_or entries.now f None ≡ Some a → IsHomeOf a h → IsHomeOf entry.now h → ⊥ }
{
    for other in entries {
        if entry.shares(other) {
            return true;
        }
    }
    false
}

/// The files of a store, by their numbers.
#[derive(Debug, Drop)]
pub(crate) struct Directory {
    entries: [Option<Entry>; LISTED_FILES],
    /// No file has a number past the last place, or more bytes than four bytes can say.
    pub ghost numbers: { (f : ℕ) (e : Entry) → get_or entries f None ≡ Some e → f < 64 },
    pub ghost lengths: { (f : ℕ) (e : Entry) → get_or entries f None ≡ Some e → e.info.length < 2 ^ 32 },
}

impl Directory {
    ghost use Rattle.file_store.specs.Store.{entry_of, home_of, IsEntryPage};

    /// The directory that a sector holds, for a store of so many home pages. It fails exactly where the sector is bad.
    pub(crate) fn from_sector(sector: &[u8; 512], homes: u64) -> Result<Directory, BadDirectory>
        ensures entries { IfOk result (λ directory. (f : ℕ) → entry_of directory f ≡ entry_in sector.now f) }
        ensures good { OnOk result (AreGood homes sector.now listed_files) }
        ensures bad { OnErr result (IsBadDirectory homes sector.now) }
    {
        let mut entries = [None; LISTED_FILES];
        for f in 0..LISTED_FILES {
            entries[f] = Directory::next_entry(sector, homes, &entries[..f])?;
        }
        Ok(Directory { entries })
    }

    /// The entry that follows the earlier ones.
    fn next_entry(
        sector: &[u8],
        homes: u64,
        earlier: &[Option<Entry>],
    ) -> Result<Option<Entry>, BadDirectory>
        requires size { length sector.now ≡ sector_bytes }
        requires room { length earlier.now < listed_files }
        requires read { AreEntries sector.now earlier.now (length earlier.now) }
        requires good { AreGood homes sector.now (length earlier.now) }
        ensures next { IfOk result (λ next. IsNextOf homes sector.now (length earlier.now) next) }
        ensures bad { OnErr result (IsBadDirectory homes sector.now) }
    {
        let bytes = &sector[8 * earlier.len()..];
        let Some(entry) = Entry::decode(bytes) else {
            return if Entry::is_zero(bytes) {
                Ok(None)
            } else {
                Err(BadDirectory)
            };
        };
        if entry.end() > homes || overlaps_any(earlier, &entry) {
            return Err(BadDirectory);
        }
        Ok(Some(entry))
    }

    /// Whether the homes of all files end within so many.
    pub(crate) fn ends_within(&self, homes: u64) -> bool
        ensures all { IsTrue result → (f : ℕ) (e : Entry) → entry_of self.now f ≡ Some e → home_end e ≤ homes }
        ensures one { IsFalse result → (f : ℕ) × (e : Entry) × (entry_of self.now f ≡ Some e) × (homes < home_end e) }
    {
        for entry in &self.entries {
            if let Some(entry) = entry {
                if entry.end() > homes {
                    return false;
                }
            }
        }
        true
    }

    /// The entry of a file of any number.
    pub(crate) fn entry(&self, n: usize) -> Option<Entry>
        ensures entry { result ≡ entry_of self.now n }
        ensures number { IsSome result → n < listed_files }
    {
        *self.entries.get(n)?
    }

    /// The home page of a page that begins inside its file.
    #[tactic(auto, unfolding(crate::specs::Store::home_of))]
    pub(crate) fn home_of(&self, page: FilePage) -> u32
        requires { IsEntryPage self.now page }
        ensures { result ≡ home_of self.now page }
    {
        let Some(entry) = self.entry(usize::from(page.file)) else {
            unreachable!();
        };
        entry.first + page.page
    }
}
