//! Attributes of pages that follow one another.
ghost use Rattle.std.specs.Prelude.{◌≡◌, ◌+◌, ◌<◌, ◌^◌};
ghost use Rattle.vm_types.specs.Attributes.{attr_after, attr_eq, backing_after, backing_eq, backing_fits, file_page_after, file_page_eq, object_page_after, object_page_eq};
ghost use Rattle.regions.specs.Search.{pages_between};

use vm_types::{Attr, Backing, FilePage, ObjectPage, PageKey};

/// The file page `count` pages further on.
fn file_page_after(page: FilePage, count: u64) -> FilePage
    requires { page.page + count < 2 ^ 32 }
    ensures { result ≡ file_page_after page count }
{
    FilePage {
        file: page.file,
        page: page.page + count as u32,
    }
}

/// The page of an object `count` pages further on.
fn object_page_after(page: ObjectPage, count: u64) -> ObjectPage
    requires { page.page + count < 2 ^ 36 }
    ensures { result ≡ object_page_after page count }
{
    ObjectPage {
        object: page.object,
        page: page.page + count,
    }
}

/// What the page `count` pages further on is.
pub(crate) fn attr_after(attr: Attr, count: u64) -> Attr
    requires { backing_fits attr.backing (count + 1) }
    ensures { result ≡ attr_after attr count }
{
    let backing = match attr.backing {
        Backing::Anon => Backing::Anon,
        Backing::Private(page) => Backing::Private(file_page_after(page, count)),
        Backing::Shared(page) => Backing::Shared(file_page_after(page, count)),
        Backing::Common(page) => Backing::Common(object_page_after(page, count)),
    };
    Attr {
        prot: attr.prot,
        backing,
    }
}

/// Whether `next` is the file page `count` pages further on than `page`.
fn file_page_follows(page: FilePage, count: u64, next: FilePage) -> bool
    ensures { result ≡ file_page_eq (file_page_after page count) next }
{
    page.file == next.file && page.page <= next.page && u64::from(next.page - page.page) == count
}

/// Whether `next` is the page of an object `count` pages further on than `page`.
fn object_page_follows(page: ObjectPage, count: u64, next: ObjectPage) -> bool
    ensures { result ≡ object_page_eq (object_page_after page count) next }
{
    page.object == next.object && page.page <= next.page && next.page - page.page == count
}

/// Whether `next` stands behind the page `count` pages further on than `backing`'s.
fn backing_follows(backing: Backing, count: u64, next: Backing) -> bool
    ensures { result ≡ backing_eq (backing_after backing count) next }
{
    match (backing, next) {
        (Backing::Anon, Backing::Anon) => true,
        (Backing::Private(page), Backing::Private(next)) => file_page_follows(page, count, next),
        (Backing::Shared(page), Backing::Shared(next)) => file_page_follows(page, count, next),
        (Backing::Common(page), Backing::Common(next)) => object_page_follows(page, count, next),
        _ => false,
    }
}

/// Whether `next` is what the page `count` pages further on than `attr`'s would be.
pub(crate) fn attr_follows(attr: Attr, count: u64, next: Attr) -> bool
    ensures { result ≡ attr_eq (attr_after attr count) next }
{
    attr.prot == next.prot && backing_follows(attr.backing, count, next.backing)
}

/// How many pages further on than `first` the page `key` is, of the same file or object; `None` where it isn't.
pub(crate) fn pages_between(first: PageKey, key: PageKey) -> Option<u64>
    ensures { result ≡ pages_between first key }
{
    match (first, key) {
        (PageKey::File(first), PageKey::File(page)) => {
            if first.file == page.file && first.page <= page.page {
                Some(u64::from(page.page - first.page))
            } else {
                None
            }
        }
        (PageKey::Object(first), PageKey::Object(page)) => {
            if first.object == page.object && first.page <= page.page {
                Some(page.page - first.page)
            } else {
                None
            }
        }
        _ => None,
    }
}
