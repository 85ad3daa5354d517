//! Which pages have a frame, told to those who change nothing.
ghost use Rattle.std.specs.Prelude.{◌≡◌, ◌≢◌, ◌≤◌, ℕ, true, None, Some, IfSome, IfNone};
ghost use Rattle.vm_types.specs.Limits.{top_level};
ghost use Rattle.frames.specs.FrameTable.{IsFrame, role_of};
ghost use Rattle.page_tables.specs.Tree.{IsPage};
ghost use Rattle.residency.specs.Picture.{picture_of, is_data};
ghost use Rattle.residency.specs.Parts.{IsFit};
ghost use Rattle.residency.specs.declared.leaves.Change.TheVariants as Kinds;
ghost use Rattle.residency.specs.Leaves.{IsOver, IsFirstOver};

use crate::contents::content_of;
use crate::kernel::Core;
use crate::leaves::{Change, find_in};
use crate::searches::{LeafSearch, LiveProcess};
use vm_types::{FrameNo, Levels, Pid, Vpn};

/// The root table of a live process.
pub fn root_of<D, E, M: Levels>(core: &Core<D, E, M>, pid: Pid) -> FrameNo
    requires live { (picture_of core.now).root pid ≢ None }
    ensures { (picture_of core.now).root pid ≡ Some result.0 }
{
    match core.root(pid) {
        Some(root) => root,
        None => unreachable!(),
    }
}

/// The first page of a process from page number `low` on that has an entry over a frame of data; `None` exactly where none has.
pub fn next_over<D, E, M: Levels>(
    core: &Core<D, E, M>,
    pid: Pid,
    low: u64,
    frame: FrameNo,
) -> Option<Vpn>
    requires fit { IsFit (picture_of core.now) }
    requires inside { IsFrame core.now.frames frame.0 }
    requires data { is_data (role_of core.now.frames frame.0) ≡ true }
    ensures some { IfSome result (λ k. IsFirstOver (picture_of core.now) Kinds.Forget frame.0 pid low k) }
    ensures none { IfNone result ((k : ℕ) → low ≤ k → IsPage (top_level M.mode) k → IsOver (picture_of core.now) Kinds.Forget frame.0 pid k → ⊥) }
{
    let search = LeafSearch {
        frame,
        content: content_of(core, frame),
        change: Change::Forget,
    };
    match core.root(pid) {
        Some(root) => {
            let process = LiveProcess {
                pid: usize::from(pid.get()),
                root,
            };
            find_in(core, process, low, &search)
        }
        None => None,
    }
}
