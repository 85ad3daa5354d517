//! Whether a commit takes changes of files, and pages with them.
ghost use Rattle.std.specs.Prelude.{◌≡◌, ◌<◌, ◌≤◌, ℕ, IfErr, IsErr, IsTrue, IsFalse, MatchOption, OnOk, length, take};
ghost use Rattle.std.specs.List.{All, AllPairs};
ghost use Rattle.std.specs.Option.{option_copied, option_map};
ghost use Rattle.directories.specs.Homes.{homes_of};
ghost use Rattle.growth.specs.Changes.{AreChanges};
ghost use Rattle.growth.specs.Parts.{extents_of_file, kept_count};
ghost use Rattle.pool_growth.specs.Asked.{changed_pages, AreFileChanges, AreKeptPages, AreNewPages};
ghost use Rattle.pool_growth.specs.Checks.{kept_home_count, AllKeepHomes, AreAllKept, AreAllNew, AreChangesRefused, ArePagesRefused, BeginsInside, HasAllEnds, HasBadChange, HasEnd, HasKeptHomes, IsKeptPage, IsNotKept, IsNotNew, IsSmallChange, ListsEnd, PrecedesPage};
ghost use Rattle.pool_growth.specs.Files.{IsNewPage, StandsInList};
ghost use Rattle.pool_store.specs.Files.{info_of};
ghost use Rattle.pool_store.specs.Store.{entry_of, files_of, info_by, IsReadyPool};

use crate::changes::FileChanges;
use crate::faults::{BadChanges, BadPages};
use crate::front::is_changed;
use crate::lookups::{entry_then, pages_of};
use directories::{Entry, Extent};
use disk_model::SectorDisk;
use growth::{Change, are_changes};
use pool_store::{Directory, PoolStore};
use vm_types::{FILES, FilePage, LONGEST_FILE, PAGE_BYTES};

/// Whether a commit takes these changes of a store's files: the directory may be so afterwards, each new extent takes homes that no extent had, and
/// each page that a file keeps has the home that it had.
///
/// # Errors
///
/// They come exactly where one of that doesn't hold, each for its reason.
pub fn check_changes<D: SectorDisk>(
    store: &PoolStore<D>,
    changes: &[Change],
) -> Result<(), BadChanges>
    requires ready { IsReadyPool D.SectorDisk store.now }
    ensures good { OnOk result (AreFileChanges store.now.journal.sizes.homes store.now.directory changes.now) }
    ensures refused { IfErr result (AreChangesRefused store.now.journal.sizes.homes store.now.directory changes.now) }
    ensures only { IsErr result → AreFileChanges store.now.journal.sizes.homes store.now.directory changes.now → ⊥ }
{
    let directory = &store.directory;
    if !are_changes(&directory.entries, changes) {
        return Err(BadChanges::Form);
    }
    if let Some(file) = find_large(changes) {
        return Err(BadChanges::Large(file));
    }
    let homes = u64::from(store.journal.sizes().homes);
    if let Err(fault) = growth::check_changes(&directory.entries, changes, directory.pages, homes) {
        return Err(BadChanges::Homes(fault));
    }
    if let Some(file) = find_moved(directory, changes) {
        return Err(BadChanges::Moved(file));
    }
    Ok(())
}

/// The first file of these changes whose number is over 4,095, or whose length over 2^42.
fn find_large(changes: &[Change]) -> Option<u32>
    ensures { MatchOption result (All IsSmallChange changes.now) (HasBadChange IsSmallChange changes.now) }
{
    for change in changes {
        if !is_small(change) {
            return Some(change.file);
        }
    }
    None
}

/// Whether the file that a change gives has a number below 4,096, and 2^42 bytes at most.
fn is_small(change: &Change) -> bool
    ensures all { IsTrue result → IsSmallChange change.now }
    ensures one { IsFalse result → IsSmallChange change.now → ⊥ }
{
    match &change.entry {
        Some(entry) => (change.file as usize) < FILES && entry.length <= LONGEST_FILE,
        None => true,
    }
}

/// The first changed file that would get another home for a page that it keeps.
fn find_moved(directory: &Directory, changes: &[Change]) -> Option<u32>
    ensures { MatchOption result (AllKeepHomes directory.now changes.now) (HasBadChange (λ c. HasKeptHomes (entry_of directory.now c.file) c.entry) changes.now) }
{
    for change in changes {
        if !keeps_homes(directory.entry(change.file as usize), change.entry.as_ref()) {
            return Some(change.file);
        }
    }
    None
}

/// Whether the extents in front that are the same have a home for each page that a file keeps.
fn keeps_homes(before: Option<&Entry>, after: Option<&Entry>) -> bool
    ensures all { IsTrue result → HasKeptHomes (option_copied before.entry) (option_copied after.entry) }
    ensures one { IsFalse result → HasKeptHomes (option_copied before.entry) (option_copied after.entry) → ⊥ }
{
    pages_of(before).min(pages_of(after)) <= homes_kept(before, after)
}

/// How many homes the extents in front have that are the same in both entries.
fn homes_kept(before: Option<&Entry>, after: Option<&Entry>) -> u64
    ensures { result ≡ kept_home_count (option_copied before.entry) (option_copied after.entry) }
{
    count_front(extents_of(before), extents_of(after))
}

/// How many homes those have that are the same in front of both lists.
fn count_front(old: &[Extent], new: &[Extent]) -> u64
    requires { length new.now ≤ 30 }
    ensures { result ≡ length (homes_of (take (kept_count old.now new.now) new.now)) }
{
    let mut count = 0;
    for i in 0..old.len().min(new.len()) {
        if old[i] != new[i] {
            return count;
        }
        count += u64::from(new[i].count);
    }
    count
}

/// The extents of a file, if there is one.
fn extents_of(file: Option<&Entry>) -> &[Extent]
    ensures extents { result.now ≡ extents_of_file (option_copied file.entry) }
    ensures few { length result.now ≤ 30 }
{
    match file {
        Some(entry) => entry.extents(),
        None => &[],
    }
}

/// Whether a commit of these changes takes these pages: new ones rise, and are new; the others rise, begin inside their files before and afterwards, have among them each
/// last page that was not full of a file that gets longer, and are no more, with the changed pages of the directory, than slots are free. For each such file their list is
/// walked once.
///
/// # Errors
///
/// Each comes only for its reason: `Order` where new ones or others don't rise, `NotNew` where one is no new page, `Outside` where one of the others is no page of its file
/// before and afterwards, `End` where the last page of its file is missing, and `TooMany` where the others are too many.
pub fn check_pages<D: SectorDisk>(
    store: &PoolStore<D>,
    asked: FileChanges<'_>,
) -> Result<(), BadPages>
    requires ready { IsReadyPool D.SectorDisk store.now }
    requires changes { AreFileChanges store.now.journal.sizes.homes store.now.directory asked.changes.now }
    ensures new { OnOk result (AreNewPages (files_of store.now) asked.entry.changes.now asked.entry.fresh.now) }
    ensures good { OnOk result (AreKeptPages store.now asked.entry.changes.now asked.entry.pages.now) }
    ensures rising { OnOk result (AllPairs PrecedesPage asked.entry.fresh.now × AllPairs PrecedesPage asked.entry.pages.now) }
    ensures refused { IfErr result (ArePagesRefused store.now asked.entry.changes.now asked.entry.fresh.now asked.entry.pages.now) }
{
    if !rise(asked.fresh) || !rise(asked.pages) {
        return Err(BadPages::Order);
    }
    if let Some(page) = find_stale(&store.directory, asked) {
        return Err(BadPages::NotNew(page));
    }
    if let Some(page) = find_outside(&store.directory, asked) {
        return Err(BadPages::Outside(page));
    }
    if let Some(file) = find_open_end(&store.directory, asked) {
        return Err(BadPages::End(file));
    }
    let most = store.journal.free_pages();
    let front = count_changed(asked.changes, store.directory.pages);
    if asked.pages.len() > most || front > most - asked.pages.len() {
        return Err(BadPages::TooMany);
    }
    Ok(())
}

/// The first of the new pages that is none.
fn find_stale(directory: &Directory, asked: FileChanges<'_>) -> Option<FilePage>
    ensures { MatchOption result (AreAllNew directory.now asked.entry.changes.now asked.entry.fresh.now) (IsNotNew directory.now asked.entry.changes.now asked.entry.fresh.now) }
{
    for page in asked.fresh {
        if !is_new(directory, asked.changes, *page) {
            return Some(*page);
        }
    }
    None
}

/// Whether a file has a page after changes that it had not before.
fn is_new(directory: &Directory, changes: &[Change], page: FilePage) -> bool
    ensures all { IsTrue result → IsNewPage (info_by directory.now) changes.now page.file page.page }
    ensures one { IsFalse result → IsNewPage (info_by directory.now) changes.now page.file page.page → ⊥ }
{
    let file = usize::from(page.file);
    let number = u64::from(page.page);
    pages_of(directory.entry(file)) <= number
        && number < pages_of(entry_then(directory, changes, file))
}

/// Whether these pages rise, by file and then by page.
fn rise(pages: &[FilePage]) -> bool
    ensures all { IsTrue result → AllPairs PrecedesPage pages.now }
    ensures one { IsFalse result → AllPairs PrecedesPage pages.now → ⊥ }
{
    for i in 1..pages.len() {
        if !precedes(pages[i - 1], pages[i]) {
            return false;
        }
    }
    true
}

/// Whether one page comes before the other, by file and then by page.
fn precedes(one: FilePage, other: FilePage) -> bool
    ensures all { IsTrue result → PrecedesPage one other }
    ensures one { IsFalse result → PrecedesPage one other → ⊥ }
{
    one.file < other.file || (one.file == other.file && one.page < other.page)
}

/// The first of these pages that does not begin inside its file, before or afterwards.
fn find_outside(directory: &Directory, asked: FileChanges<'_>) -> Option<FilePage>
    ensures { MatchOption result (AreAllKept directory.now asked.entry.changes.now asked.entry.pages.now) (IsNotKept directory.now asked.entry.changes.now asked.entry.pages.now) }
{
    for page in asked.pages {
        if !is_kept(directory, asked.changes, *page) {
            return Some(*page);
        }
    }
    None
}

/// Whether a page begins inside its file, before and afterwards.
fn is_kept(directory: &Directory, changes: &[Change], page: FilePage) -> bool
    ensures all { IsTrue result → IsKeptPage directory.now changes.now page }
    ensures one { IsFalse result → IsKeptPage directory.now changes.now page → ⊥ }
{
    let file = usize::from(page.file);
    begins_inside(directory.entry(file), page.page)
        && begins_inside(entry_then(directory, changes, file), page.page)
}

/// Whether a page begins inside a file of this entry.
fn begins_inside(file: Option<&Entry>, page: u32) -> bool
    ensures all { IsTrue result → BeginsInside (option_map info_of (option_copied file.entry)) page }
    ensures one { IsFalse result → BeginsInside (option_map info_of (option_copied file.entry)) page → ⊥ }
{
    match file {
        Some(entry) => PAGE_BYTES as u64 * u64::from(page) < entry.length,
        None => false,
    }
}

/// The first file that gets longer, and whose last page was not full and is none of these.
fn find_open_end(directory: &Directory, asked: FileChanges<'_>) -> Option<u32>
    requires { AreChanges directory.now.entries.items asked.changes.now }
    ensures { MatchOption result (HasAllEnds directory.now asked.entry.changes.now asked.entry.pages.now) (λ f. HasEnd directory.now asked.entry.changes.now asked.entry.pages.now f → ⊥) }
{
    for change in asked.changes {
        let was = directory.entry(change.file as usize);
        if !lists_end(asked.pages, change.file, was, change.entry.as_ref()) {
            return Some(change.file);
        }
    }
    None
}

/// Whether that page is one of these where such a file gets longer.
fn lists_end(pages: &[FilePage], file: u32, before: Option<&Entry>, after: Option<&Entry>) -> bool
    ensures all { IsTrue result → ListsEnd pages.now file (option_map info_of (option_copied before.entry)) (option_map info_of (option_copied after.entry)) }
    ensures one { IsFalse result → ListsEnd pages.now file (option_map info_of (option_copied before.entry)) (option_map info_of (option_copied after.entry)) → ⊥ }
{
    let (Some(was), Some(now)) = (before, after) else {
        return true;
    };
    if now.length <= was.length || was.length.is_multiple_of(PAGE_BYTES as u64) {
        return true;
    }
    is_listed(pages, file, was.length / PAGE_BYTES as u64)
}

/// Whether a page is one of these.
fn is_listed(pages: &[FilePage], file: u32, page: u64) -> bool
    ensures all { IsTrue result → StandsInList pages.now file page }
    ensures one { IsFalse result → StandsInList pages.now file page → ⊥ }
{
    for listed in pages {
        if u32::from(listed.file) == file && u64::from(listed.page) == page {
            return true;
        }
    }
    false
}

/// How many pages of a directory of so many are changed.
pub(crate) fn count_changed(changes: &[Change], pages: u32) -> usize
    ensures { result ≡ length (changed_pages changes.now pages) }
{
    let mut count = 0;
    for page in 0..pages {
        if is_changed(changes, page) {
            count += 1;
        }
    }
    count
}
