//! Entries as bytes, 256 of them each and 16 entries to a page.
ghost use Rattle.std.specs.Prelude.{◌≡◌, ◌≢◌, ◌≤◌, ◌<◌, ℕ, ◌+◌, ◌*◌, length, replicate, Option, IfOk, IfErr, OnOk, OnErr, IfSome, if◌then◌else◌};
ghost use Rattle.directories.specs.declared.entry.Entry.{Entry};
ghost use Rattle.directories.specs.Entries.{number_at, entry_bytes, SaysFile, SaysEntry, IsNoEntry, HoldsExtents, extent_at, SameBelow, SameBeside};

use crate::EXTENTS;
use crate::entry::{Entry, EntryFault, Extent};
use crate::numbers::{number_at, put_long, put_number};
use byteorder::{ByteOrder, LittleEndian};

/// The entries of a page of the directory.
pub const PAGE_ENTRIES: usize = 16;

/// The bytes of an entry.
const ENTRY_BYTES: usize = 256;

/// Where an extent stands in an entry.
const FIRST_EXTENT: usize = 16;

/// What the entry at a place of a page of the directory says: a file, or none. A fault is told exactly where it says
/// neither.
pub fn read_entry(page: &[u8; 4096], place: usize) -> Result<Option<Entry>, EntryFault>
    requires { place < 16 }
    ensures entry { IfOk result (SaysEntry (entry_bytes page.now place)) }
    ensures fault { IfErr result (IsNoEntry (entry_bytes page.now place)) }
    ensures none { OnErr result ((e : Option Entry) → SaysEntry (entry_bytes page.now place) e → ⊥) }
{
    let mut entry = None;
    read_entry_into(page, place, &mut entry)?;
    Ok(entry)
}

/// Reads what the entry at a place of a page of the directory says straight to where it is to stand, so that nothing moves it. A fault is told exactly
/// where it says neither a file nor that there is none, and nothing is promised then of what stands there.
pub fn read_entry_into(
    page: &[u8; 4096],
    place: usize,
    to: &mut Option<Entry>,
) -> Result<(), EntryFault>
    requires { place < 16 }
    ensures entry { OnOk result (SaysEntry (entry_bytes page.now place) to.new) }
    ensures fault { IfErr result (IsNoEntry (entry_bytes page.now place)) }
    ensures none { OnErr result ((e : Option Entry) → SaysEntry (entry_bytes page.now place) e → ⊥) }
{
    let start = ENTRY_BYTES * place;
    decode(&page[start..start + ENTRY_BYTES], to)
}

/// Writes the entry at a place of a page of the directory, and changes no other.
pub fn write_entry(page: &mut [u8; 4096], place: usize, entry: &Option<Entry>)
    requires place { place < 16 }
    requires few { IfSome entry.now (λ e. e.extent_count ≤ 30) }
    ensures entry { SaysEntry (entry_bytes page.new place) entry.now }
    ensures others { (i : ℕ) → i < 16 → i ≢ place → entry_bytes page.new i ≡ entry_bytes page.old i }
{
    let start = ENTRY_BYTES * place;
    encode(&mut page[start..start + ENTRY_BYTES], entry);
}

/// Reads what these bytes say.
fn decode(bytes: &[u8], to: &mut Option<Entry>) -> Result<(), EntryFault>
    requires { length bytes.now ≡ 256 }
    ensures entry { OnOk result (SaysEntry bytes.now to.new) }
    ensures fault { IfErr result (IsNoEntry bytes.now) }
{
    match number_at(bytes, 0) {
        0 => decode_none(bytes, to),
        1 => decode_file(bytes, false, to),
        3 => decode_file(bytes, true, to),
        _ => Err(EntryFault::Flags),
    }
}

/// Reads what these bytes say, whose flags are zero.
fn decode_none(bytes: &[u8], to: &mut Option<Entry>) -> Result<(), EntryFault>
    requires flags { number_at 0 bytes.now ≡ 0 }
    ensures entry { OnOk result (SaysEntry bytes.now to.new) }
    ensures fault { IfErr result (IsNoEntry bytes.now) }
{
    if bytes == [0; ENTRY_BYTES].as_slice() {
        *to = None;
        Ok(())
    } else {
        Err(EntryFault::NotZero)
    }
}

/// Reads what these bytes say, whose flags are a file's.
fn decode_file(bytes: &[u8], read_only: bool, to: &mut Option<Entry>) -> Result<(), EntryFault>
    requires size { length bytes.now ≡ 256 }
    requires flags { number_at 0 bytes.now ≡ (if read_only then 3 else 1) }
    ensures entry { OnOk result (SaysEntry bytes.now to.new) }
    ensures fault { IfErr result (IsNoEntry bytes.now) }
{
    let extent_count = number_at(bytes, 4);
    if extent_count > EXTENTS as u32 {
        return Err(EntryFault::Extents);
    }
    *to = Some(Entry {
        read_only,
        length: LittleEndian::read_u64(&bytes[8..]),
        extent_count,
        extents: decode_extents(bytes),
    });
    Ok(())
}

/// The extents of an entry of these bytes.
fn decode_extents(bytes: &[u8]) -> [Extent; EXTENTS]
    requires { length bytes.now ≡ 256 }
    ensures { HoldsExtents bytes.now result 30 }
{
    let mut extents = [Extent { first: 0, count: 0 }; EXTENTS];
    for i in 0..EXTENTS {
        let first = number_at(bytes, FIRST_EXTENT + 8 * i);
        let count = number_at(bytes, FIRST_EXTENT + 8 * i + 4);
        extents[i] = Extent { first, count };
    }
    extents
}

/// Writes an entry to its bytes.
fn encode(bytes: &mut [u8], entry: &Option<Entry>)
    requires size { length bytes.old ≡ 256 }
    requires few { IfSome entry.now (λ e. e.extent_count ≤ 30) }
    ensures { SaysEntry bytes.new entry.now }
{
    match entry {
        Some(entry) => encode_file(bytes, entry),
        None => clear(bytes),
    }
}

/// Writes a file to the bytes of its entry.
fn encode_file(bytes: &mut [u8], entry: &Entry)
    requires size { length bytes.old ≡ 256 }
    requires few { entry.now.extent_count ≤ 30 }
    ensures { SaysFile bytes.new entry.now }
{
    put_number(bytes, 0, if entry.read_only { 3 } else { 1 });
    put_number(bytes, 4, entry.extent_count);
    put_long(bytes, 8, entry.length);
    encode_extents(bytes, &entry.extents);
}

/// Writes the extents of an entry to its bytes.
fn encode_extents(bytes: &mut [u8], extents: &[Extent; EXTENTS])
    requires { length bytes.old ≡ 256 }
    ensures extents { HoldsExtents bytes.new extents.now 30 }
    ensures front { SameBelow 16 bytes.old bytes.new }
{
    for i in 0..EXTENTS {
        put_extent(bytes, i, extents[i]);
    }
}

/// Writes one extent of an entry to its bytes.
fn put_extent(bytes: &mut [u8], i: usize, extent: Extent)
    requires size { length bytes.old ≡ 256 }
    requires place { i < 30 }
    ensures extent { extent_at i bytes.new ≡ extent }
    ensures others { SameBeside (16 + 8 * i) 8 bytes.old bytes.new }
{
    put_number(bytes, FIRST_EXTENT + 8 * i, extent.first);
    put_number(bytes, FIRST_EXTENT + 8 * i + 4, extent.count);
}

fn clear(bytes: &mut [u8])
    ensures { bytes.new ≡ replicate (length bytes.old) 0 }
{
    bytes.fill(0);
}
