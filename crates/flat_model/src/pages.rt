//! Pages of processes, and pages that all processes see alike.
use crate::files::{first_byte, page_of};
use vm_types::{Backing, FilePage, MapSource, ObjectPage, PageKey};

/// The bytes of a page.
pub(crate) type Bytes = [u8; 4096];

/// A page that a process has mapped, with the bytes of its own copy where it has one.
#[derive(Clone, Copy)]
pub(crate) struct Page {
    pub pid: u64,
    pub number: u64,
    pub backing: Backing,
    pub own: Option<Bytes>,
}

/// A page of a file or of an object that was stored to. Others are zeros.
#[derive(Clone, Copy)]
pub(crate) struct CommonPage {
    pub key: PageKey,
    pub shown: Bytes,
    pub durable: Bytes,
    /// It was stored to, and not made durable since.
    pub is_touched: bool,
}

impl CommonPage {
    /// A page of zeros.
    pub(crate) fn new(key: PageKey) -> CommonPage {
        CommonPage {
            key,
            shown: [0; 4096],
            durable: [0; 4096],
            is_touched: false,
        }
    }

    /// Makes it durable. What lies past the end of its file, of so many bytes, becomes zeros.
    pub(crate) fn commit(&mut self, length: u64) {
        self.cut(length);
        self.durable = self.shown;
        self.is_touched = false;
    }

    /// Puts zeros in place of what lies past so many bytes of its file. It is touched no more where nothing lies before.
    pub(crate) fn cut(&mut self, length: u64) {
        let inside = self.bytes_inside(length);
        for byte in self.shown.iter_mut().skip(inside) {
            *byte = 0;
        }
        if inside == 0 {
            self.is_touched = false;
        }
    }

    /// How many of its bytes lie within so many bytes of its file.
    fn bytes_inside(&self, length: u64) -> usize {
        match self.key {
            PageKey::File(at) => length.saturating_sub(first_byte(at)).min(4096) as usize,
            PageKey::Object(_) => 4096,
        }
    }

    /// Whether it is of that file.
    pub(crate) fn is_of(&self, file: u64) -> bool {
        matches!(self.key, PageKey::File(at) if u64::from(at.file) == file)
    }
}

/// Neighbouring pages of a process: those from one number on, up to another.
#[derive(Clone, Copy)]
pub(crate) struct Range {
    pub pid: u64,
    pub first: u64,
    pub end: u64,
}

impl Range {
    /// The pages of so many bytes.
    pub(crate) fn new(pid: u64, addr: u64, len: u64) -> Range {
        Range {
            pid,
            first: addr / 4096,
            end: addr.saturating_add(len).div_ceil(4096),
        }
    }

    /// As many pages, from another number on.
    pub(crate) fn moved(self, first: u64, count: u64) -> Range {
        Range {
            pid: self.pid,
            first,
            end: first.saturating_add(count),
        }
    }

    pub(crate) fn has(self, page: &Page) -> bool {
        page.pid == self.pid && self.first <= page.number && page.number < self.end
    }
}

/// The page of a file or of an object that stands behind a page.
pub(crate) fn behind(backing: Backing) -> Option<PageKey> {
    match backing {
        Backing::Anon => None,
        Backing::Private(page) | Backing::Shared(page) => Some(PageKey::File(page)),
        Backing::Common(page) => Some(PageKey::Object(page)),
    }
}

/// The page of a file that lies so many pages behind an offset.
fn file_page(file: u64, offset: u64, page: u64) -> FilePage {
    page_of(file, (offset / 4096).wrapping_add(page))
}

/// What stands behind a page of a mapping, whose object, where it takes one, has that number.
pub(crate) fn backing(source: MapSource, object: u16, page: u64) -> Backing {
    match source {
        MapSource::Anon => Backing::Anon,
        MapSource::Private { file, offset } => Backing::Private(file_page(file, offset, page)),
        MapSource::Shared { file, offset } => Backing::Shared(file_page(file, offset, page)),
        MapSource::Common => Backing::Common(ObjectPage { object, page }),
    }
}

/// Whether that is a private page of that file which begins at or past so many bytes.
pub(crate) fn is_cut_off(backing: Backing, file: u64, length: u64) -> bool {
    matches!(backing, Backing::Private(at) if u64::from(at.file) == file && first_byte(at) >= length)
}
