//! A store, and the lengths of its files.
ghost use Rattle.std.specs.Prelude.{◌≡◌, ◌≤◌, ◌<◌, IfOk, IsTrue, IsSome, MatchResult, length, slice_get, true};
ghost use Rattle.std.specs.Option.{option_copied};
ghost use Rattle.vm_types.specs.Files.{bytes_inside};
ghost use Rattle.pool_store.specs.Store.{info_by};
ghost use Rattle.vm_types.specs.Limits.{file_limit, longest_file};
ghost use Rattle.file_store.specs.Standing.{IsPageOf};
ghost use Rattle.stores.specs.Store as Durable;
ghost use Rattle.sized_stores.specs.Store.{can_resize, files_of, is_resized_in, with_length, AreDurable, AreParts, IsReadySized, StartsSized};
ghost use Rattle.sized_stores.specs.Reading.{bytes_left, ReadsSizedPage};
ghost use Rattle.sized_stores.specs.Resizing.{ResizesFile};

use crate::room::SizeRoom;
use crate::sizes::{Size, durable_length};
use disk_model::{DiskFault, SectorDisk};
use file_store::trim;
use pool_store::Directory;
use std::alloc::{AllocError, Global};
use stores::Store;
use vm_types::{FileInfo, FilePage, PAGE_BYTES};

/// Files of a store, which may have other lengths than they have durably.
#[derive(Drop)]
pub struct SizedStore<D> {
    /// What is durable.
    pub store: Store<D>,
    /// The length of each file, by number, where files may get other ones.
    pub sizes: Vec<Size>,
    /// Room for what a commit of lengths asks for.
    pub(crate) room: Option<SizeRoom>,
}

impl<D: SectorDisk> SizedStore<D> {
    /// An open store, all files of which have the lengths that they have durably. It takes 24 bytes for each place of the directory of a store of layout 4, and room for
    /// one commit after the other: no later call takes memory.
    ///
    /// # Errors
    ///
    /// The store is given back where there is not enough memory.
    pub fn new(alloc: Global, store: Store<D>) -> Result<SizedStore<D>, Store<D>>
        requires ready { Durable.IsReadyStore D.SectorDisk store }
        ensures { MatchResult result (λ sized. StartsSized D.SectorDisk store sized) (λ back. back ≡ store) }
    {
        let Ok((sizes, room)) = parts_for(alloc, &store) else {
            return Err(store);
        };
        Ok(SizedStore { store, sizes, room })
    }

    /// The facts of file `n` as they are now, or none where there is no such file.
    pub fn file(&self, n: u16) -> Option<FileInfo>
        ensures { result ≡ files_of self.now n }
    {
        with_length(self.store.file(n), self.sizes.get(usize::from(n)))
    }

    /// The facts of the file of any number, or none where there is no such file.
    pub fn info(&self, n: u64) -> Option<FileInfo>
        ensures info { result ≡ files_of self.now n }
        ensures number { IsSome result → n < file_limit }
    {
        with_length(self.store.info(n), self.sizes.get(n as usize))
    }

    /// Whether files may get other lengths: those of a store of layout 4 may.
    pub fn can_resize(&self) -> bool
        ensures { result ≡ can_resize self.now }
    {
        match self.store {
            Store::Journal(_) => false,
            Store::Pool(_) => true,
        }
    }

    /// Whether a file has got another length since its length was made durable.
    pub fn is_resized(&self, file: u16) -> bool
        ensures { result ≡ is_resized_in self.now.sizes.items file }
    {
        match self.sizes.get(usize::from(file)) {
            Some(size) => size.resized,
            None => false,
        }
    }

    /// Reads a page that begins inside its file: what stands there durably, with zeros from where the file was cut off since, and past its end. A fault comes only where the device
    /// failed, and nothing is then said of `to`.
    pub fn read_page(&mut self, page: FilePage, to: &mut [u8; 4096]) -> Result<(), DiskFault>
        requires ready { IsReadySized D.SectorDisk self.old }
        requires inside { IsPageOf (files_of self.old) page.file page.page }
        ensures { ReadsSizedPage D.SectorDisk self.old self.new page to.new result }
    {
        let left = bytes_left(&self.sizes, page);
        if left == 0 {
            *to = [0; 4096];
            return Ok(());
        }
        self.store.read_page(page, to)?;
        trim(to, left);
        Ok(())
    }

    /// Gives a file another length, in bytes, 2^42 at most, at once and not durably (truncate(2)): what is cut off is gone, and what it is longer by is zeros.
    pub fn resize(&mut self, file: u16, length: u64)
        requires ready { IsReadySized D.SectorDisk self.old }
        requires can { can_resize self.old ≡ true }
        requires there { IsSome (files_of self.old file) }
        requires length { length ≤ longest_file }
        ensures { ResizesFile D.SectorDisk self.old self.new file length }
    {
        let was = self.sizes[usize::from(file)];
        self.sizes[usize::from(file)] = Size {
            length,
            shortest: was.shortest.min(length),
            resized: true,
        };
    }
}

/// The lengths of the files of a store, and room for commits of them.
fn parts_for<D: SectorDisk>(
    alloc: Global,
    store: &Store<D>,
) -> Result<(Vec<Size>, Option<SizeRoom>), AllocError>
    requires ready { Durable.IsReadyStore D.SectorDisk store.now }
    ensures { IfOk result (λ parts. AreParts store.now parts.0.items parts.1) }
{
    match store {
        Store::Journal(_) => Ok((Vec::new(alloc), None)),
        Store::Pool(store) => {
            let room = SizeRoom::new(alloc, store.journal.sizes(), store.directory.pages)?;
            Ok((durable_sizes(alloc, &store.directory)?, Some(room)))
        }
    }
}

/// The lengths that files have durably.
fn durable_sizes(alloc: Global, directory: &Directory) -> Result<Vec<Size>, AllocError>
    ensures { IfOk result (λ sizes. AreDurable (info_by directory.now) (length directory.now.entries.items) sizes.items) }
{
    let places = directory.entries.len();
    let mut sizes = Vec::with_capacity(alloc, places)?;
    for file in 0..places {
        let length = durable_length(directory, file);
        sizes.push_reserved(Size {
            length,
            shortest: length,
            resized: false,
        });
    }
    Ok(sizes)
}

/// What is fixed of a file, with the length that it has now.
fn with_length(info: Option<FileInfo>, size: Option<&Size>) -> Option<FileInfo>
    ensures { result ≡ with_length info (option_copied size.entry) }
{
    let info = info?;
    match size {
        Some(size) => Some(FileInfo {
            length: size.length,
            ..info
        }),
        None => Some(info),
    }
}

/// How many bytes of a page were not cut off since its file's length was made durable: all of them where files keep their lengths.
fn bytes_left(sizes: &[Size], page: FilePage) -> usize
    ensures left { result ≡ bytes_left (slice_get sizes.now page.file) page.page }
    ensures most { result ≤ 4096 }
{
    match sizes.get(usize::from(page.file)) {
        Some(size) => bytes_inside(size.shortest, page.page),
        None => PAGE_BYTES,
    }
}

/// How many bytes of a page lie inside a file of a length.
fn bytes_inside(length: u64, page: u32) -> usize
    ensures inside { result ≡ bytes_inside length page }
    ensures most { result ≤ 4096 }
{
    let before = PAGE_BYTES as u64 * u64::from(page);
    length.saturating_sub(before).min(PAGE_BYTES as u64) as usize
}
