//! Lengths after their commit.
ghost use Rattle.std.specs.Prelude.{◌≡◌, ◌<◌, ℕ, length, get_or};
ghost use Rattle.sized_stores.specs.Commit.{AreSettled};

use crate::sizes::Size;

/// The lengths that these files have are durable.
pub(crate) fn settle(sizes: &mut [Size], files: &[u16])
    requires { (i : ℕ) → i < length files.now → get_or files.now i 0 < length sizes.old }
    ensures { AreSettled files.now sizes.old sizes.new }
{
    for file in files {
        let size = &mut sizes[usize::from(*file)];
        size.shortest = size.length;
        size.resized = false;
    }
}
