//! Files, and what an msync takes of them.
use crate::pages::{CommonPage, Page, Range};
use vm_types::{Backing, FilePage, PageKey};

/// A file: how long it is, and how long after a stop.
#[derive(Clone, Copy)]
pub(crate) struct File {
    pub length: u64,
    pub durable: u64,
    /// It got another length, which was not made durable since.
    pub is_resized: bool,
}

impl File {
    /// A file of so many zeros.
    pub(crate) fn new(length: u64) -> File {
        File {
            length,
            durable: length,
            is_resized: false,
        }
    }

    /// Gives it another length.
    pub(crate) fn resize(&mut self, length: u64) {
        self.length = length;
        self.is_resized = true;
    }

    /// Makes its length durable.
    pub(crate) fn commit(&mut self) {
        self.durable = self.length;
        self.is_resized = false;
    }
}

/// Where in its file a page begins.
pub(crate) fn first_byte(page: FilePage) -> u64 {
    u64::from(page.page).saturating_mul(4096)
}

/// A page of a file.
pub(crate) fn page_of(file: u64, page: u64) -> FilePage {
    FilePage {
        file: (file % 64) as u16,
        page: (page % (1 << 32)) as u32,
    }
}

/// How long the file of a page is: of none it is 0.
pub(crate) fn length_of(files: &[File], page: FilePage) -> u64 {
    match files.get(usize::from(page.file)) {
        Some(file) => file.length,
        None => 0,
    }
}

/// Whether one of those pages is a shared page of that file.
fn shows(pages: &[Page], range: Range, file: u64) -> bool {
    let mut pages = pages.iter();
    pages.any(|page| {
        range.has(page) && matches!(page.backing, Backing::Shared(at) if u64::from(at.file) == file)
    })
}

/// Whether an msync of those pages takes a file whole, which has that number: it has another length, and one of them shows it.
pub(crate) fn is_whole(pages: &[Page], range: Range, number: u64, file: &File) -> bool {
    file.is_resized && shows(pages, range, number)
}

/// The same of the file of a page.
fn is_of_whole(pages: &[Page], files: &[File], range: Range, page: FilePage) -> bool {
    match files.get(usize::from(page.file)) {
        Some(file) => is_whole(pages, range, u64::from(page.file), file),
        None => false,
    }
}

/// Whether an msync of those pages takes that one as a touched one.
pub(crate) fn is_due(pages: &[Page], files: &[File], range: Range, common: &CommonPage) -> bool {
    let PageKey::File(at) = common.key else {
        return false;
    };
    let mut shared = pages.iter();
    common.is_touched
        && (shared.any(|page| range.has(page) && page.backing == Backing::Shared(at))
            || is_of_whole(pages, files, range, at))
}

/// What lies within its file of what an msync of those pages makes durable of that one, if it does: it is touched, or of a file that is taken whole.
pub(crate) fn taken(
    pages: &[Page],
    files: &[File],
    range: Range,
    common: &CommonPage,
) -> Option<u64> {
    let PageKey::File(at) = common.key else {
        return None;
    };
    if is_due(pages, files, range, common) || is_of_whole(pages, files, range, at) {
        Some(length_of(files, at))
    } else {
        None
    }
}
