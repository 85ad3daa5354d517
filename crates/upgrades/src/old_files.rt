//! The files of the store that is upgraded.
ghost use Rattle.std.specs.Prelude.{◌≡◌, ℕ};
ghost use Rattle.upgrades.specs.NewPool.{files_in};
ghost use Rattle.upgrades.specs.Old.{files_of};

use file_store::{LISTED_FILES, OldStore};
use vm_types::FileInfo;

/// The facts of all files, by their numbers.
pub(crate) fn list_files(store: &OldStore) -> [Option<FileInfo>; LISTED_FILES]
    ensures { (f : ℕ) → files_in result f ≡ files_of store.now f }
{
    let mut files = [None; LISTED_FILES];
    for f in 0..LISTED_FILES {
        files[f] = store.entry(f).map(|entry| entry.info);
    }
    files
}
