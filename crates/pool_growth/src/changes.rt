//! What is asked of a commit.
use growth::Change;
use vm_types::FilePage;

/// What a commit changes.
#[derive(Clone, Copy)]
pub struct FileChanges<'a> {
    /// What becomes of files, in the order of their numbers.
    pub changes: &'a [Change],
    /// New pages, those behind the last one that their file had, that are more than zeros, and are given. Each other new page becomes zeros.
    pub fresh: &'a [FilePage],
    /// Pages that their files had before and have afterwards, and that are written too.
    pub pages: &'a [FilePage],
}
