//! What is known of a page of a live process.
ghost use Rattle.std.specs.Prelude.{◌≡◌, true};
ghost use Rattle.residency.specs.Picture.{picture_of, is_live};

use residency::Core;
use vm_types::{Attr, Levels, Pid, Vpn};

/// What a page of a live process is.
pub(crate) fn attr_at<D, E, M: Levels>(core: &Core<D, E, M>, pid: Pid, page: Vpn) -> Option<Attr>
    requires lives { is_live (picture_of core.now) pid ≡ true }
    ensures { result ≡ (picture_of core.now).at pid page }
{
    core.regions(pid).at(page)
}
