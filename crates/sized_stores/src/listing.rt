//! The pages of a commit of lengths.
ghost use Rattle.std.specs.Prelude.{◌≡◌, ◌≤◌, ◌<◌, ◌^◌, ◌+◌, ℕ, true, IsTrue, IsFalse, length, get_or, min, vec_capacity};
ghost use Rattle.vm_types.specs.Limits.{longest_file};
ghost use Rattle.file_store.specs.Layout.{pages_of_length};
ghost use Rattle.pool_growth.specs.Files.{StandsInList};
ghost use Rattle.pool_store.specs.Store.{info_by};
ghost use Rattle.sized_stores.specs.Listing.{is_new_in, no_size, AreDistinct, AreSized, AreTooMany, AreTooManyPicked, HasPageRoom, KeepsRoom, ListsPages, ListsZeros, PicksPages};
ghost use Rattle.sized_stores.specs.Store.{length_of};

use crate::room::{PageList, SizeRoom};
use crate::sizes::{Size, durable_length};
use pool_store::Directory;
use vm_types::{FilePage, PAGE_BYTES};

/// Pages that are asked of a commit, with the files whose lengths it makes durable.
#[derive(Clone, Copy)]
pub(crate) struct Asked<'a> {
    pub directory: &'a Directory,
    pub sizes: &'a [Size],
    pub files: &'a [u16],
    pub pages: &'a [FilePage],
}

impl SizeRoom {
    /// Lists the pages of a commit: new ones; and others, with all pages behind them that their files had and have, which were cut off since and not stored to. All of
    /// these are as many as the limit, at most, or it is said that there are more.
    pub(crate) fn list_pages(&mut self, asked: Asked<'_>, limit: usize) -> bool
        requires sized { AreSized asked.sizes.now asked.files.now }
        requires room { HasPageRoom limit self.old }
        requires few { length asked.pages.now < 2 ^ 31 }
        requires distinct { AreDistinct asked.pages.now }
        ensures lists { IsTrue result → ListsPages asked.entry.directory.now asked.entry.sizes.now asked.entry.files.now asked.entry.pages.now limit self.new.fresh self.new.kept }
        ensures many { IsFalse result → AreTooMany (info_by asked.entry.directory.now) asked.entry.sizes.now asked.entry.files.now asked.entry.pages.now limit }
        ensures room { KeepsRoom self.old self.new }
    {
        if !pick_pages(&mut self.fresh, asked.directory, asked.pages, true, limit) {
            return false;
        }
        let rest = limit - self.fresh.pages.len();
        if !pick_pages(&mut self.kept, asked.directory, asked.pages, false, rest) {
            return false;
        }
        for file in asked.files {
            if !list_zeros(&mut self.kept.pages, asked, *file, rest) {
                return false;
            }
        }
        true
    }
}

/// Lists the pages that are new ones, or those that are not, up to a limit. Whether there are no more than that.
fn pick_pages(
    list: &mut PageList,
    directory: &Directory,
    pages: &[FilePage],
    new: bool,
    limit: usize,
) -> bool
    requires room { (limit ≤ vec_capacity list.old.pages) × (limit ≤ vec_capacity list.old.places) }
    requires few { length pages.now < 2 ^ 31 }
    ensures picks { IsTrue result → PicksPages (info_by directory.now) new pages.now list.new.pages.items list.new.places.items }
    ensures many { IsFalse result → AreTooManyPicked (info_by directory.now) new pages.now limit }
    ensures few { length list.new.pages.items ≤ limit }
    ensures room { (vec_capacity list.new.pages ≡ vec_capacity list.old.pages) × (vec_capacity list.new.places ≡ vec_capacity list.old.places) }
{
    list.clear();
    for i in 0..pages.len() {
        let page = pages[i];
        if is_new(directory, page) != new {
            continue;
        }
        if list.pages.len() == limit {
            return false;
        }
        list.pages.push_reserved(page);
        list.places.push_reserved(i as u32);
    }
    true
}

/// Whether a page is a new one: one behind the last one that its file has durably.
fn is_new(directory: &Directory, page: FilePage) -> bool
    ensures { result ≡ is_new_in (info_by directory.now) page }
{
    match directory.info(usize::from(page.file)) {
        Some(info) => info.length.div_ceil(PAGE_BYTES as u64) <= u64::from(page.page),
        None => true,
    }
}

/// Lists behind others the pages of a file that it had and has, which were cut off since and are none of the caller's. Whether all of them are no more than the limit.
fn list_zeros(kept: &mut Vec<FilePage>, asked: Asked<'_>, file: u16, limit: usize) -> bool
    requires there { (i : ℕ) × (i < length asked.files.now) × (get_or asked.files.now i 0 ≡ file) }
    requires sized { AreSized asked.sizes.now asked.files.now }
    requires room { limit ≤ vec_capacity kept.old }
    requires few { length kept.old.items ≤ limit }
    ensures lists { ListsZeros asked.entry.directory.now asked.entry.sizes.now file asked.entry.pages.now limit kept.old.items kept.new.items result }
    ensures room { vec_capacity kept.new ≡ vec_capacity kept.old }
{
    for page in first_zero(asked.sizes, file)..end_of_zeros(asked, file) {
        let page = FilePage { file, page };
        if has_page(asked.pages, page) {
            continue;
        }
        if kept.len() == limit {
            return false;
        }
        kept.push_reserved(page);
    }
    true
}

/// The first page that a file lost when it was shortest.
fn first_zero(sizes: &[Size], file: u16) -> u32
    requires there { file < length sizes.now }
    requires short { (get_or sizes.now file no_size).shortest ≤ longest_file }
    ensures { result ≡ pages_of_length (get_or sizes.now file no_size).shortest }
{
    sizes[usize::from(file)]
        .shortest
        .div_ceil(PAGE_BYTES as u64) as u32
}

/// The end of the pages that a file had durably and has now.
fn end_of_zeros(asked: Asked<'_>, file: u16) -> u32
    requires there { file < length asked.sizes.now }
    requires short { (get_or asked.sizes.now file no_size).length ≤ longest_file }
    ensures { result ≡ pages_of_length (min (length_of (info_by asked.entry.directory.now file)) (get_or asked.entry.sizes.now file no_size).length) }
{
    let was = durable_length(asked.directory, usize::from(file));
    let now = asked.sizes[usize::from(file)].length;
    was.min(now).div_ceil(PAGE_BYTES as u64) as u32
}

/// Whether a page is one of these.
fn has_page(pages: &[FilePage], page: FilePage) -> bool
    ensures all { IsTrue result → StandsInList pages.now page.file page.page }
    ensures one { IsFalse result → StandsInList pages.now page.file page.page → ⊥ }
{
    for other in pages {
        if *other == page {
            return true;
        }
    }
    false
}
