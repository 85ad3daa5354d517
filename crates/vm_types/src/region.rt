//! What a mapped page is: its permission and what stands behind it.
ghost use Rattle.std.specs.Prelude.{◌≡◌};
ghost use Rattle.vm_types.specs.Attributes.{backed_by, is_shared, stands_on};

use crate::file::FilePage;
use crate::object::{ObjectPage, PageKey};
use crate::permission::Prot;

/// What stands behind a mapped page (mmap(2), MAP_ANONYMOUS, MAP_PRIVATE and MAP_SHARED). `Common` is MAP_ANONYMOUS with
/// MAP_SHARED: a page of an object, which has zeros until it is stored to.
#[derive(Clone, Copy, Debug, PartialEq, Eq)]
pub enum Backing {
    Anon,
    Private(FilePage),
    Shared(FilePage),
    Common(ObjectPage),
}

impl Backing {
    /// Whether a store goes to what stands behind the page, so that the process needs no copy of its own (MAP_SHARED).
    pub fn is_shared(self) -> bool
        ensures { result ≡ is_shared self }
    {
        matches!(self, Backing::Shared(_) | Backing::Common(_))
    }

    /// The file page that stands behind the page, whether stores go to it or not; `None` for an anonymous page, shared or not.
    pub fn file_page(self) -> Option<FilePage>
        ensures { result ≡ backed_by self }
    {
        match self {
            Backing::Anon | Backing::Common(_) => None,
            Backing::Private(page) | Backing::Shared(page) => Some(page),
        }
    }

    /// The page of a file or of an object that stands behind the page, whether stores go to it or not; `None` for an
    /// anonymous page that isn't shared.
    pub fn stands_on(self) -> Option<PageKey>
        ensures { result ≡ stands_on self }
    {
        match self {
            Backing::Anon => None,
            Backing::Private(page) | Backing::Shared(page) => Some(PageKey::File(page)),
            Backing::Common(page) => Some(PageKey::Object(page)),
        }
    }
}

/// What a process may do with a page, and what stands behind it.
#[derive(Clone, Copy, Debug, PartialEq, Eq)]
pub struct Attr {
    pub prot: Prot,
    pub backing: Backing,
}
