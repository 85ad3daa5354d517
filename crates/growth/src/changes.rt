//! Changes of the directory.
use directories::Entry;

/// What a commit makes of a file.
#[derive(Clone, Copy, Debug, PartialEq, Eq)]
pub struct Change {
    /// The file's number.
    pub file: u32,
    /// Its entry from then on; `None` where it is removed.
    pub entry: Option<Entry>,
}
