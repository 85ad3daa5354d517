//! The entries that stand in a table, looked for many places at a time.
ghost use Rattle.std.specs.Prelude.{◌≡◌, ◌≢◌, ℕ, ◌+◌, ◌*◌, ◌/◌, ◌%◌, ◌<◌, ◌≤◌, ◌↔◌, true};
ghost use Rattle.vm_types.specs.Limits.{top_level, table_entries};
ghost use Rattle.frames.specs.FrameTable.{IsFrame};
ghost use Rattle.sv39_walk.specs.Entry.{entry_at};
ghost use Rattle.page_tables.specs.Tree.{IsTable, page_entry};
ghost use Rattle.page_tables.specs.Places.{IsTableOf};

use memory::{Memory, entry_in};
use sv39_walk::TABLE_ENTRIES;
use vm_types::{FrameNo, Levels};

/// How many places one test looks at.
const GROUP: u64 = 8;

/// The first page from `page` on, and before `stop`, that has an entry; `stop` where none has. The entries of these pages
/// stand in that lowest table, and are looked at many at a time.
pub fn next_entry<M: Levels>(memory: &Memory<M>, table: FrameNo, page: u64, stop: u64) -> u64
    requires table { IsTable memory.now table.0 }
    requires order { page ≤ stop }
    requires one_table { stop ≤ (page / table_entries + 1) * table_entries }
    ensures from { page ≤ result }
    ensures within { result ≤ stop }
    ensures passed { (root p : ℕ) → IsTableOf memory.now (top_level M.mode) root (p / table_entries) table.0 → page ≤ p → p < result → page_entry memory.now (top_level M.mode) root p ≡ 0 }
    ensures found { (root : ℕ) → IsTableOf memory.now (top_level M.mode) root (result / table_entries) table.0 → result < stop → page_entry memory.now (top_level M.mode) root result ≢ 0 }
{
    next_set(memory, table, page, stop)
}

/// The first place from `index` on, and before `end`, of that lowest table at which an entry stands; `end` where none does. The
/// places are looked at many at a time.
pub fn next_place<M: Levels>(memory: &Memory<M>, table: FrameNo, index: usize, end: usize) -> usize
    requires table { IsTable memory.now table.0 }
    requires order { index ≤ end }
    requires in_table { end ≤ table_entries }
    ensures from { index ≤ result }
    ensures within { result ≤ end }
    ensures passed { (root p : ℕ) → IsTableOf memory.now (top_level M.mode) root (p / table_entries) table.0 → index ≤ p % table_entries → p % table_entries < result → page_entry memory.now (top_level M.mode) root p ≡ 0 }
    ensures found { (root p : ℕ) → IsTableOf memory.now (top_level M.mode) root (p / table_entries) table.0 → p % table_entries ≡ result → result < end → page_entry memory.now (top_level M.mode) root p ≢ 0 }
{
    next_set(memory, table, index as u64, end as u64) as usize
}

/// The first number from `first` on, and before `stop`, at whose place of a table an entry stands; `stop` where none does. The
/// place of a number is its remainder by 512: in a lowest table the numbers are pages, and in one above it those of the tables
/// below.
pub(crate) fn next_set<M: Levels>(memory: &Memory<M>, table: FrameNo, first: u64, stop: u64) -> u64
    requires inside { IsFrame memory.now table.0 }
    requires order { first ≤ stop }
    requires one_table { stop ≤ (first / table_entries + 1) * table_entries }
    ensures from { first ≤ result }
    ensures within { result ≤ stop }
    ensures passed { (n : ℕ) → first ≤ n → n < result → entry_at memory.now table.0 (n % table_entries) ≡ 0 }
    ensures found { result < stop → entry_at memory.now table.0 (result % table_entries) ≢ 0 }
{
    let mut at = first;
    while at < stop && is_none(memory, table, place_of(at)) {
        at += none_from(memory, table, at, stop);
    }
    at
}

// How many numbers from one without an entry on have none, as far as one look tells: eight or one.
fn none_from<M: Levels>(memory: &Memory<M>, table: FrameNo, first: u64, stop: u64) -> u64
    requires inside { IsFrame memory.now table.0 }
    requires below { first < stop }
    requires one_table { stop ≤ (first / table_entries + 1) * table_entries }
    requires none { entry_at memory.now table.0 (first % table_entries) ≡ 0 }
    ensures some { 0 < result }
    ensures within { first + result ≤ stop }
    ensures none { (n : ℕ) → first ≤ n → n < first + result → entry_at memory.now table.0 (n % table_entries) ≡ 0 }
{
    if stop - first >= GROUP && are_none(memory, table, place_of(first)) {
        return GROUP;
    }
    1
}

// The place of a number in a table.
fn place_of(number: u64) -> usize
    ensures { result ≡ number % table_entries }
{
    (number % TABLE_ENTRIES) as usize
}

// Whether the eight places from `index` on have no entry, by one test.
fn are_none<M: Levels>(memory: &Memory<M>, table: FrameNo, index: usize) -> bool
    requires inside { IsFrame memory.now table.0 }
    requires within { index + 8 ≤ table_entries }
    ensures { result ≡ true → (i : ℕ) → index ≤ i → i < index + 8 → entry_at memory.now table.0 i ≡ 0 }
{
    four_at(memory, table, index) | four_at(memory, table, index + 4) == 0
}

// The numbers at four places joined, which is 0 only where each of them is.
fn four_at<M: Levels>(memory: &Memory<M>, table: FrameNo, index: usize) -> u64
    requires inside { IsFrame memory.now table.0 }
    requires within { index + 4 ≤ table_entries }
    ensures { result ≡ 0 → (i : ℕ) → index ≤ i → i < index + 4 → entry_at memory.now table.0 i ≡ 0 }
{
    number_at(memory, table, index)
        | number_at(memory, table, index + 1)
        | number_at(memory, table, index + 2)
        | number_at(memory, table, index + 3)
}

// Whether no entry stands at a place.
fn is_none<M: Levels>(memory: &Memory<M>, table: FrameNo, index: usize) -> bool
    requires inside { IsFrame memory.now table.0 }
    requires below { index < table_entries }
    ensures { (result ≡ true) ↔ (entry_at memory.now table.0 index ≡ 0) }
{
    number_at(memory, table, index) == 0
}

/// The number at a place of a table.
pub(crate) fn number_at<M: Levels>(memory: &Memory<M>, table: FrameNo, index: usize) -> u64
    requires inside { IsFrame memory.now table.0 }
    requires below { index < table_entries }
    ensures { result ≡ entry_at memory.now table.0 index }
{
    entry_in(memory, table, index).to_u64()
}
