//! Where the pages of a file are.
ghost use Rattle.std.specs.Prelude.{◌≡◌, ◌≤◌, ◌<◌, ◌*◌, ◌^◌, length, slice_get};
ghost use Rattle.directories.specs.Homes.{extents_of, homes_of, home_of_page, pages_of_length};

use crate::EXTENTS;
use crate::entry::{Entry, Extent};

impl Entry {
    /// Its extents, in their order.
    pub fn extents(&self) -> &[Extent]
        ensures extents { result.now ≡ extents_of self.now }
        ensures few { length result.now ≤ 30 }
    {
        &self.extents[..(self.extent_count as usize).min(EXTENTS)]
    }

    /// The home of a page of the file, counted from 0; `None` exactly where its extents have no more homes.
    pub fn home_of_page(&self, page: u64) -> Option<u64>
        ensures { result ≡ home_of_page self.now page }
    {
        home_among(self.extents(), page)
    }

    /// How many pages the file has.
    pub fn pages(&self) -> u64
        ensures { result ≡ pages_of_length self.now.length }
    {
        self.length.div_ceil(vm_types::PAGE_BYTES as u64)
    }

    /// How many homes its extents have.
    pub fn homes(&self) -> u64
        ensures { result ≡ length (homes_of (extents_of self.now)) }
    {
        count_homes(self.extents())
    }
}

/// The home at a place among those of these extents.
fn home_among(extents: &[Extent], place: u64) -> Option<u64>
    ensures { result ≡ slice_get (homes_of extents.now) place }
{
    let mut left = place;
    for extent in extents {
        let count = u64::from(extent.count);
        if left < count {
            return Some(u64::from(extent.first) + left);
        }
        left -= count;
    }
    None
}

/// How many homes these extents have.
fn count_homes(extents: &[Extent]) -> u64
    requires { length extents.now ≤ 30 }
    ensures { result ≡ length (homes_of extents.now) }
{
    let mut count = 0;
    for extent in extents {
        count += u64::from(extent.count);
    }
    count
}
