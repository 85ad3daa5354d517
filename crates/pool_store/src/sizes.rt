//! How large a new store is.
ghost use Rattle.std.specs.Prelude.{◌≡◌, ◌-◌, ◌+◌, ◌*◌, ◌^◌, ◌↔◌, min, IsTrue};
ghost use Rattle.disk_model.specs.Sectors.{sector_bytes};
ghost use Rattle.directories.specs.Kinds.{IsMapSize};
ghost use Rattle.file_store.specs.Format.{total_pages};
ghost use Rattle.pool_journal.specs.Pools.{pool_home};
ghost use Rattle.pool_store.specs.Format.{IsTooLargeFor, new_pages};

use disk_model::SECTOR_BYTES;
use file_store::{FileSource, pages_of};
use pool_journal::PoolSizes;
use vm_types::PAGE_BYTES;

/// The pages of a new store's directory.
pub const DIRECTORY_PAGES: u32 = 4;

/// The files that they have room for.
pub const NEW_FILES: usize = 64;

/// Whether these files are too many or too large for a store with maps of so many blocks on so many sectors.
pub(crate) fn is_too_large<R>(blocks: u32, sources: &[FileSource<R>], sectors: u64) -> bool
    requires { IsMapSize blocks }
    ensures { IsTrue result ↔ IsTooLargeFor blocks sectors sources.now }
{
    let sizes = PoolSizes::of(blocks, sectors);
    let front = sizes.home(DIRECTORY_PAGES);
    let homes = u64::from(sizes.homes).saturating_sub(u64::from(DIRECTORY_PAGES));
    let pages = pages_of(sources);
    sources.len() > NEW_FILES || sectors < front || pages > homes
}

/// How many bytes an image of these files has, whose homes end where it ends: `512 * (16 + 8080 M + 8 (4 + H))` with maps of
/// `M` blocks, for the `H` pages of all the files, or 2^64 - 1 where that is more.
pub fn image_bytes<R>(blocks: u32, sources: &[FileSource<R>]) -> u64
    requires { IsMapSize blocks }
    ensures { result ≡ min (sector_bytes * pool_home blocks (new_pages + total_pages sources.now)) (2 ^ 64 - 1) }
{
    let front = SECTOR_BYTES as u64 * PoolSizes::of(blocks, 0).home(DIRECTORY_PAGES);
    let bytes = (PAGE_BYTES as u64).saturating_mul(pages_of(sources));
    front.saturating_add(bytes)
}
