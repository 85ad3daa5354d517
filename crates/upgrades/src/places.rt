//! Where the files of the new store have their homes.
ghost use Rattle.std.specs.Prelude.{◌≡◌, ◌<◌, ◌≤◌, ◌*◌, ◌+◌, ◌^◌, IfSome, IsTrue, IsFalse};
ghost use Rattle.directories.specs.Kinds.{IsMapSize};
ghost use Rattle.upgrades.specs.NewPool.{files_in, first_of, pages_of, HasRoomFor, HaveShortLengths, IsTooSmall};

use file_store::LISTED_FILES;
use pool_journal::PoolSizes;
use pool_store::DIRECTORY_PAGES;
use vm_types::{FileInfo, PAGE_BYTES};

/// How many pages a file has, where there is one.
pub(crate) fn pages_of(file: Option<FileInfo>) -> u32
    requires { IfSome file (λ info. info.length < 2 ^ 32) }
    ensures count { result ≡ pages_of file }
    ensures few { result ≤ 1048576 }
{
    match file {
        Some(info) => info.length.div_ceil(PAGE_BYTES as u64) as u32,
        None => 0,
    }
}

/// The first home of file `f`, and where `f` is 64 the one behind the last file's.
pub(crate) fn first_of(files: &[Option<FileInfo>; LISTED_FILES], f: usize) -> u32
    requires place { f ≤ 64 }
    requires short { HaveShortLengths files.now }
    ensures is { result ≡ first_of (files_in files.now) f }
    ensures few { result ≤ 4 + 1048576 * f }
{
    let mut first = DIRECTORY_PAGES;
    for h in 0..f {
        first += pages_of(files[h]);
    }
    first
}

/// Whether a device of so many sectors has room for a store of these files with maps of so many blocks.
pub(crate) fn has_room(blocks: u32, sectors: u64, files: &[Option<FileInfo>; LISTED_FILES]) -> bool
    requires maps { IsMapSize blocks }
    requires short { HaveShortLengths files.now }
    ensures has { IsTrue result → HasRoomFor blocks sectors (files_in files.now) }
    ensures small { IsFalse result → IsTooSmall blocks sectors (files_in files.now) }
{
    let sizes = PoolSizes::of(blocks, sectors);
    sizes.home(DIRECTORY_PAGES) <= sectors && first_of(files, LISTED_FILES) <= sizes.homes
}
