//! Numbers of processes.
ghost use Rattle.std.specs.Prelude.{◌≡◌, false, IfSome};
ghost use Rattle.vm_types.specs.Processes.{least_free_from, process_limit};
ghost use Rattle.residency.specs.Picture.{picture_of, is_live};

use residency::Core;
use vm_types::{Levels, Pid};

/// The least number of 1 to 64 that no live process has; `None` exactly where 64 processes live (our choice, as fork(2) has
/// it with EAGAIN).
pub fn free_pid<D, E, M: Levels>(core: &Core<D, E, M>) -> Option<Pid>
    ensures least { result ≡ least_free_from (is_live (picture_of core.now)) 1 process_limit }
    ensures free { IfSome result (λ pid. is_live (picture_of core.now) pid ≡ false) }
{
    let mut number = 1;
    while let Some(pid) = Pid::new(number) {
        if core.root(pid).is_none() {
            return Some(pid);
        }
        number += 1;
    }
    None
}
