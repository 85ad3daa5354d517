//! A process goes.
ghost use Rattle.std.specs.Prelude.{◌≡◌, true};
ghost use Rattle.residency.specs.Picture.{picture_of, is_live};
ghost use Rattle.residency.specs.Parts.{IsFit};
ghost use Rattle.lifecycle.specs.Lifetimes.{EndsProcess};

use ranges::{clear_row, forget_row};
use residency::Core;
use vm_types::{Levels, Pid};

/// Ends a live process: its own copies are lost, in frames and in slots, its tables are free, and so is its number (exit(2)).
/// File pages that it stored to stay touched, with their bytes (mmap(2), `MAP_SHARED`), and so do pages of objects that another
/// process names. No device is asked.
pub fn exit<D, E, M: Levels>(core: &mut Core<D, E, M>, pid: Pid)
    requires fit { IsFit (picture_of core.old) }
    requires live { is_live (picture_of core.old) pid ≡ true }
    ensures { EndsProcess core.old core.new pid }
{
    let end = M::user_end();
    clear_row(core, pid, 0, end);
    forget_row(core, pid, 0, end);
    core.remove_process(pid);
}
