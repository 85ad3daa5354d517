//! How long a file is now, and durably.
ghost use Rattle.std.specs.Prelude.{◌≡◌};
ghost use Rattle.pool_store.specs.Store.{info_by};
ghost use Rattle.sized_stores.specs.Store.{length_of};

use pool_store::Directory;

/// The length of a file, beside the one that it has durably.
#[derive(Clone, Copy, Debug, PartialEq, Eq)]
pub struct Size {
    /// In bytes, 2^42 at most.
    pub length: u64,
    /// How short the file has been, in bytes, since its length was made durable. Of what it had from there on nothing is left: those bytes of it are zeros, unless they
    /// were stored to since.
    pub shortest: u64,
    /// Whether it has got another length since then.
    pub resized: bool,
}

/// How long a file of any number is durably, in bytes: 0 where there is none.
pub(crate) fn durable_length(directory: &Directory, file: usize) -> u64
    ensures { result ≡ length_of (info_by directory.now file) }
{
    match directory.info(file) {
        Some(info) => info.length,
        None => 0,
    }
}
