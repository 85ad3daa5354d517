//! The lengths that are asked of the store.
ghost use Rattle.std.specs.Prelude.{◌≡◌, ◌≤◌, ◌<◌, ℕ, length, get_or, map, vec_capacity};
ghost use Rattle.sized_stores.specs.Commit.{size_asked};

use crate::sizes::Size;
use pool_growth::FileSize;

/// Lists the lengths that these files have now.
pub(crate) fn list_sizes(asked: &mut Vec<FileSize>, sizes: &[Size], files: &[u16])
    requires room { length files.now ≤ vec_capacity asked.old }
    requires there { (i : ℕ) → i < length files.now → get_or files.now i 0 < length sizes.now }
    ensures items { asked.new.items ≡ map (size_asked sizes.now) files.now }
    ensures room { vec_capacity asked.new ≡ vec_capacity asked.old }
{
    asked.clear();
    for file in files {
        asked.push_reserved(FileSize {
            file: u32::from(*file),
            is_there: 1,
            length: sizes[usize::from(*file)].length,
        });
    }
}
