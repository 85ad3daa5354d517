//! One run, and its part between two pages.
ghost use Rattle.std.specs.Prelude.{◌≡◌, ◌≤◌};

use crate::attributes::{attr_after, attr_follows, pages_between};
use vm_types::{Attr, Levels, PageKey, Prot};

/// The pages from `first` up to, not including, `end`. The first one's attributes are `attr`; file pages follow one
/// another.
#[derive(Clone, Copy)]
pub struct Run {
    pub first: u64,
    pub end: u64,
    pub attr: Attr,
}

impl Run {
    ghost use Rattle.regions.specs.Run.{IsRun, run_between, joins, attr_in};
    ghost use Rattle.regions.specs.Search.{page_on};

    /// What the page is; `None` where it isn't of this run.
    pub(crate) fn at<M: Levels>(&self, page: u64) -> Option<Attr>
        requires { IsRun M.mode self.now }
        ensures { result ≡ attr_in self.now page }
    {
        if self.first <= page && page < self.end {
            Some(attr_after(self.attr, page - self.first))
        } else {
            None
        }
    }

    /// Whether `next` begins where this run ends, and goes on with it.
    pub(crate) fn joins(&self, next: Run) -> bool
        requires { self.now.first ≤ self.now.end }
        ensures { result ≡ joins self.now next }
    {
        self.end == next.first && attr_follows(self.attr, self.end - self.first, next.attr)
    }

    /// The page that stands on that page of a file or an object; `None` where none of the run does.
    pub(crate) fn page_on(&self, key: PageKey) -> Option<u64>
        requires { self.now.first ≤ self.now.end }
        ensures { result ≡ page_on key self.now }
    {
        let pages = pages_between(self.attr.backing.stands_on()?, key)?;
        if pages < self.end - self.first {
            Some(self.first + pages)
        } else {
            None
        }
    }

    /// The part between `low` and `high`, with the permission `prot` where one is given; `None` where that is empty.
    pub(crate) fn part<M: Levels>(&self, low: u64, high: u64, prot: Option<Prot>) -> Option<Run>
        requires { IsRun M.mode self.now }
        ensures { result ≡ run_between low high prot self.now }
    {
        let first = self.first.max(low);
        let end = self.end.min(high);
        if first >= end {
            return None;
        }
        let attr = attr_after(self.attr, first - self.first);
        Some(Run {
            first,
            end,
            attr: Attr {
                prot: prot.unwrap_or(attr.prot),
                backing: attr.backing,
            },
        })
    }
}
