//! The entries of pages that get another permission.
ghost use Rattle.std.specs.Prelude.{◌≡◌, ◌<◌, ◌^◌, ◌||◌, ◌&&◌, true};
ghost use Rattle.vm_types.specs.Permission.{can_write};
ghost use Rattle.sv39_walk.specs.Entry.{frame_of, is_valid, is_dirty};
ghost use Rattle.page_tables.specs.Entry.{IsEntry, number_of};
ghost use Rattle.regions.specs.Permission.{ReadsToo};
ghost use Rattle.residency.specs.Picture.{is_private};
ghost use Rattle.ranges.specs.Leaves.{IsPermittedEntry};

use page_tables::{Entry, Grant, entry_over};
use sv39_walk::Pte;
use vm_types::Prot;

/// The entry of a page in the frame that `number` names, with that permission. Stores go through where `writable` says so,
/// and D is set where they need no further mark: over a frame of the process's own, and where it was set.
pub(crate) fn permitted(number: Pte, prot: Prot, writable: bool) -> Entry
    requires frame { frame_of number.0 < 2 ^ 32 }
    requires reads { ReadsToo prot }
    requires writes { writable ≡ true → can_write prot ≡ true }
    ensures form { IsEntry result }
    ensures permitted { IsPermittedEntry prot writable number.0 (number_of result) }
{
    let grant = Grant {
        frame: number.frame_number(),
        private: number.is_private(),
        write: writable,
        dirty: is_marked(number),
    };
    entry_over(prot, grant)
}

/// Whether stores to the frame that an entry names need no further mark: it is the process's own, or D is set.
fn is_marked(number: Pte) -> bool
    ensures { result ≡ (is_private number.0 || (is_valid number.0 && is_dirty number.0)) }
{
    number.is_private() || number.is_valid() && number.is_dirty()
}
