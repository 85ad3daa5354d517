//! Maps on the device, a block at a time.
ghost use Rattle.std.specs.Prelude.{◌≡◌, ◌≤◌, ◌<◌, ◌+◌, ◌-◌, ◌*◌, ◌/◌, ◌^◌, ◌⊎◌, ℕ, Bool, true, false, OnOk, length, get_or, drop};
ghost use Rattle.byteorder.specs.Endian.{little_number};
ghost use Rattle.pool_journal.specs.Maps.{entries_of, IsMapOf, IsEmptyMap};
ghost use Rattle.pool_journal.specs.Blocks.{ReadsMap, ReadsRest, TakesBlock, NotesBlock, HasCount, IsNotedMap};
ghost use Rattle.pool_journal.specs.Pools.{pool_entry, pool_start, within, IsPoolMap, most_blocks};
ghost use Rattle.pool_journal.specs.Sizes.{HasPool, IsSized};
ghost use Rattle.sync_journal.specs.Steps.{WritesInto};

use crate::map::SlotMap;
use crate::sizes::{BLOCK_SLOTS, PoolSizes};
use byteorder::{ByteOrder, LittleEndian};
use disk_model::{DiskFault, SectorDisk};
use sync_journal::{PAGE_SECTORS, read_page, write_page};

/// Where the numbers of a block begin, behind its head, and those of the second body.
const FIRST: usize = 64;

const SECOND: usize = 2080;

/// The slots of each body that a block names.
const SLOTS: usize = 504;

/// Reads a map: of a home past the last one, and of a slot past the blocks that count, it says nothing.
pub(crate) fn read_map<D: SectorDisk>(
    disk: &mut D,
    sizes: PoolSizes,
    second: bool,
    map: &mut SlotMap,
) -> Result<(), DiskFault>
    requires pool { HasPool D.SectorDisk sizes disk.old }
    requires size { IsMapOf sizes.blocks map.old }
    ensures { ReadsMap D.SectorDisk sizes second disk.old disk.new map.new result }
{
    map.clear();
    let mut front = [0; 4096];
    read_page(disk, block_start(sizes, second, 0), &mut front)?;
    let counted = LittleEndian::read_u32(&front).min(sizes.blocks);
    read_rest(disk, sizes, second, counted, map)?;
    if counted > 0 {
        map.take_block(0, &front, sizes.homes);
    }
    Ok(())
}

// Reads the blocks that count behind the first one.
fn read_rest<D: SectorDisk>(
    disk: &mut D,
    sizes: PoolSizes,
    second: bool,
    counted: u32,
    map: &mut SlotMap,
) -> Result<(), DiskFault>
    requires pool { HasPool D.SectorDisk sizes disk.old }
    requires size { IsMapOf sizes.blocks map.old }
    requires few { counted ≤ sizes.blocks }
    requires empty { IsEmptyMap map.old }
    ensures { ReadsRest D.SectorDisk sizes second counted disk.old disk.new map.new result }
{
    let mut block = [0; 4096];
    for q in 1..counted {
        read_page(disk, block_start(sizes, second, q), &mut block)?;
        map.take_block(q as usize, &block, sizes.homes);
    }
    Ok(())
}

/// The first sector of a block of a map, of which the last one comes first.
pub(crate) fn block_start(sizes: PoolSizes, second: bool, q: u32) -> u64
    requires sized { IsSized sizes }
    requires inside { q < sizes.blocks }
    ensures { result ≡ pool_start sizes.blocks second + 8 * (sizes.blocks - 1 - q) }
{
    sizes.start(second) + PAGE_SECTORS * u64::from(sizes.blocks - 1 - q)
}

/// Writes the blocks of a map that count, from the last of them to the first, and syncs nothing.
pub(crate) fn write_map<D: SectorDisk>(
    disk: &mut D,
    sizes: PoolSizes,
    second: bool,
    map: &SlotMap,
) -> Result<(), DiskFault>
    requires pool { HasPool D.SectorDisk sizes disk.old }
    requires size { IsMapOf sizes.blocks map.now }
    requires homes { (body : Bool) (r : ℕ) → entries_of map.now body r ≤ sizes.homes }
    ensures { WritesInto D.SectorDisk (IsPoolMap sizes.blocks second) (IsNotedMap sizes.blocks second (entries_of map.now))
        ((body : Bool) (r : ℕ) → r < 504 * sizes.blocks → pool_entry sizes.blocks sizes.homes second (D.content disk.new) body r ≡ entries_of map.now body r) disk.old disk.new result }
{
    let start = sizes.start(second) + PAGE_SECTORS * u64::from(sizes.blocks - 1);
    let counted = map.counted();
    for q in (0..counted).rev() {
        write_page(
            disk,
            start - PAGE_SECTORS * q as u64,
            &map.block(q, counted),
        )?;
    }
    Ok(())
}

impl SlotMap {
    // Takes the numbers of a block, but those of homes past the last one.
    fn take_block(&mut self, q: usize, block: &[u8; 4096], homes: u32)
        requires room { (504 * q + 504 ≤ length self.old.first.items) × (504 * q + 504 ≤ length self.old.second.items) }
        ensures { TakesBlock q block.now homes self.old self.new }
    {
        take_numbers(&mut self.first, SLOTS * q, &block[FIRST..SECOND], homes);
        take_numbers(&mut self.second, SLOTS * q, &block[SECOND..], homes);
    }

    // How many blocks count: after them no slot is given to a home. The first one counts always.
    fn counted(&self) -> usize
        requires { (blocks : ℕ) × IsMapOf blocks self.now }
        ensures { (blocks : ℕ) → 1 ≤ blocks → IsMapOf blocks self.now → HasCount blocks (entries_of self.now) result }
    {
        counted_in(&self.first, &self.second)
    }

    // A block as it stands on the device.
    fn block(&self, q: usize, counted: usize) -> [u8; 4096]
        requires room { (504 * q + 504 ≤ length self.now.first.items) × (504 * q + 504 ≤ length self.now.second.items) }
        requires few { counted ≤ most_blocks }
        ensures { NotesBlock q counted (entries_of self.now) result }
    {
        block_of(
            counted as u32,
            &self.first[SLOTS * q..SLOTS * q + SLOTS],
            &self.second[SLOTS * q..SLOTS * q + SLOTS],
        )
    }
}

// The block of these numbers, with a count.
fn block_of(counted: u32, first: &[u32], second: &[u32]) -> [u8; 4096]
    requires { (length first.now ≡ 504) × (length second.now ≡ 504) }
    ensures count { little_number 4 result ≡ counted }
    ensures first { (i : ℕ) → i < 504 → little_number 4 (drop (64 + 4 * i) result) ≡ get_or first.now i 0 }
    ensures second { (i : ℕ) → i < 504 → little_number 4 (drop (2080 + 4 * i) result) ≡ get_or second.now i 0 }
{
    let mut block = [0; 4096];
    LittleEndian::write_u32(&mut block, counted);
    LittleEndian::write_u32_into(first, &mut block[FIRST..SECOND]);
    LittleEndian::write_u32_into(second, &mut block[SECOND..]);
    block
}

// How many blocks have a number above 0, or come before one that has; the first one counts always.
fn counted_in(first: &[u32], second: &[u32]) -> usize
    requires same { length first.now ≡ length second.now }
    requires size { (blocks : ℕ) × (length first.now ≡ 504 * blocks) }
    ensures some { 1 ≤ result }
    ensures most { (blocks : ℕ) → 1 ≤ blocks → length first.now ≡ 504 * blocks → result ≤ blocks }
    ensures rest { (r : ℕ) → 504 * result ≤ r → r < length first.now → (get_or first.now r 0 ≡ 0) × (get_or second.now r 0 ≡ 0) }
    ensures least { (result ≡ 1) ⊎ ((r : ℕ) × (504 * (result - 1) ≤ r) × (r < length first.now) × ((get_or first.now r 0 ≡ 0) × (get_or second.now r 0 ≡ 0) → ⊥)) }
{
    for q in (0..first.len() / SLOTS).rev() {
        if are_given(
            &first[SLOTS * q..SLOTS * q + SLOTS],
            &second[SLOTS * q..SLOTS * q + SLOTS],
        ) {
            return q + 1;
        }
    }
    1
}

// Whether a number above 0 stands among these, of which there are as many of both.
fn are_given(first: &[u32], second: &[u32]) -> bool
    requires { length first.now ≡ length second.now }
    ensures some { result ≡ true → (i : ℕ) × (i < length first.now) × ((get_or first.now i 0 ≡ 0) × (get_or second.now i 0 ≡ 0) → ⊥) }
    ensures none { result ≡ false → (i : ℕ) → i < length first.now → (get_or first.now i 0 ≡ 0) × (get_or second.now i 0 ≡ 0) }
{
    let mut found = false;
    for i in 0..first.len() {
        found |= first[i] > 0;
        found |= second[i] > 0;
    }
    found
}

// Reads the numbers of a block for one body into those from a place on, and puts 0 for those that are too large.
fn take_numbers(numbers: &mut [u32], from: usize, bytes: &[u8], most: u32)
    requires room { from + 504 ≤ length numbers.old }
    requires long { length bytes.now ≡ 2016 }
    ensures size { length numbers.new ≡ length numbers.old }
    ensures taken { (i : ℕ) → i < 504 → get_or numbers.new (from + i) 0 ≡ within most (little_number 4 (drop (4 * i) bytes.now)) }
    ensures others { (r : ℕ) → (r < from) ⊎ (from + 504 ≤ r) → get_or numbers.new r 0 ≡ get_or numbers.old r 0 }
{
    for i in 0..SLOTS {
        numbers[from + i] = bounded(LittleEndian::read_u32(&bytes[4 * i..]), most);
    }
}

// A number, or 0 where it is too large.
fn bounded(number: u32, most: u32) -> u32
    ensures { result ≡ within most number }
{
    if number > most { 0 } else { number }
}
