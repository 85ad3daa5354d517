//! Files as they are after changes.
ghost use Rattle.std.specs.Prelude.{◌≡◌, ◌≤◌, ◌<◌, ◌+◌, ◌^◌, ℕ, length, Some};
ghost use Rattle.std.specs.Option.{option_copied, option_map};
ghost use Rattle.growth.specs.Changes.{change_of, entry_after};
ghost use Rattle.pool_growth.specs.Asked.{AreFileChanges};
ghost use Rattle.pool_growth.specs.Files.{added, added_count, given_page, file_page_count, HasThen};
ghost use Rattle.pool_growth.specs.Putting.{home_then, inside_then};
ghost use Rattle.pool_store.specs.Files.{info_of};
ghost use Rattle.pool_store.specs.Store.{info_by};
ghost use Rattle.vm_types.specs.Files.{bytes_inside};

use crate::changes::FileChanges;
use directories::Entry;
use growth::Change;
use pool_store::Directory;
use vm_types::{FilePage, PAGE_BYTES};

/// The first of these changes that is of a file.
pub(crate) fn change_of<'a>(changes: &'a [Change], file: usize) -> Option<&'a Change>
    ensures { option_copied result ≡ change_of changes.now file }
{
    for change in changes {
        if change.file as usize == file {
            return Some(change);
        }
    }
    None
}

/// The entry of a file after changes.
pub(crate) fn entry_then<'a>(
    directory: &'a Directory,
    changes: &'a [Change],
    file: usize,
) -> Option<&'a Entry>
    ensures { option_copied result ≡ entry_after directory.now.entries.items changes.now file }
{
    match change_of(changes, file) {
        Some(change) => change.entry.as_ref(),
        None => directory.entry(file),
    }
}

/// How many bytes of a page lie inside its file after changes.
pub(crate) fn inside_then(directory: &Directory, changes: &[Change], page: FilePage) -> usize
    ensures inside { result ≡ inside_then directory.now changes.now (Some page) }
    ensures most { result ≤ 4096 }
{
    match entry_then(directory, changes, usize::from(page.file)) {
        Some(entry) => bytes_inside(entry, page.page),
        None => 0,
    }
}

/// How many bytes of a page lie inside a file.
fn bytes_inside(entry: &Entry, page: u32) -> usize
    ensures inside { result ≡ bytes_inside entry.now.length page }
    ensures most { result ≤ 4096 }
{
    let before = PAGE_BYTES as u64 * u64::from(page);
    entry.length.saturating_sub(before).min(PAGE_BYTES as u64) as usize
}

/// The home that a page has after changes, where its file has it then.
pub(crate) fn home_then(directory: &Directory, changes: &[Change], page: FilePage) -> u32
    requires on { (homes : ℕ) × (homes ≤ 2 ^ 30) × AreFileChanges homes directory.now changes.now }
    requires there { HasThen (info_by directory.now) changes.now page }
    ensures home { home_then directory.now changes.now (Some page) ≡ Some result }
    ensures inside { (homes : ℕ) → AreFileChanges homes directory.now changes.now → result < homes }
{
    let Some(entry) = entry_then(directory, changes, usize::from(page.file)) else {
        unreachable!();
    };
    let Some(home) = entry.home_of_page(u64::from(page.page)) else {
        unreachable!();
    };
    home as u32
}

/// How many pages a file of this entry has.
pub(crate) fn pages_of(file: Option<&Entry>) -> u64
    ensures { result ≡ file_page_count (option_map info_of (option_copied file.entry)) }
{
    match file {
        Some(entry) => entry.length.div_ceil(PAGE_BYTES as u64),
        None => 0,
    }
}

/// How many new pages a change brings.
fn added(directory: &Directory, change: &Change) -> u64
    ensures { result ≡ added (info_by directory.now) change.now }
{
    pages_of(change.entry.as_ref()).saturating_sub(pages_of(directory.entry(change.file as usize)))
}

/// How many new pages these changes bring: of each file those behind the last one that it has, up to its last one then.
pub fn added_count(directory: &Directory, changes: &[Change]) -> usize
    requires { (homes : ℕ) × AreFileChanges homes directory.now changes.now }
    ensures { result ≡ added_count (info_by directory.now) changes.now }
{
    let mut count = 0;
    for change in changes {
        count += added(directory, change);
    }
    count as usize
}

/// Page `k` of those that the source gives: the new ones, and then those of the list.
pub(crate) fn given_page(asked: FileChanges<'_>, k: usize) -> FilePage
    requires { k < length asked.fresh.now + length asked.pages.now }
    ensures { given_page asked.entry.fresh.now asked.entry.pages.now k ≡ Some result }
{
    let new = asked.fresh.len();
    if k < new {
        asked.fresh[k]
    } else {
        asked.pages[k - new]
    }
}
