//! Processes that come and go.
ghost use Rattle.std.specs.Prelude.{None};
ghost use Rattle.disk_model.specs.Moments.{Nothing};
ghost use Rattle.vm_types.specs.Limits.{user_end};
ghost use Rattle.vm_types.specs.Replies.{reply_of};
ghost use Rattle.vm_types.specs.declared.command.Command.TheVariants.{Spawn, Fork, Exit};
ghost use Rattle.fault.specs.Asking.{AsksIfFull, AsksSlots};
ghost use Rattle.msync.specs.Shows.{IsSoundCore};
ghost use Rattle.residency.specs.Picture.{picture_of};
ghost use Rattle.spaces.specs.Processes.{ForkTakes, SpawnTakes};
ghost use Rattle.spaces.specs.Calls.{Carries, LeavesStore};
ghost use Rattle.spaces.specs.Ranges.{GivesPagesBack};

use disk_model::SectorDisk;
use lifecycle::free_pid;
use residency::Core;
use vm_types::{Answer, Errno, Levels};

/// Starts a process with an empty space, and returns its number, the least that is free.
///
/// `EAGAIN` where 64 processes live (fork(2)). It may stall for a frame: `NoFrames` where the tables of all processes, its own
/// included, and two more frames fill memory, `NoSwap` where slots are fewer than own copies and touched file pages, `SwapDevice`
/// where that device failed as a frame was given up; then there is no such process, and nobody sees a change.
pub fn spawn<D: SectorDisk, E: SectorDisk, M: Levels>(core: &mut Core<D, E, M>) -> Answer
    requires sound { IsSoundCore D.SectorDisk E.SectorDisk core.old }
    ensures comes { Carries D.SectorDisk E.SectorDisk core.old core.new Spawn (reply_of result) }
    ensures keeps { LeavesStore D.SectorDisk E.SectorDisk core.old core.new (reply_of result) }
    ensures takes { SpawnTakes (picture_of core.old) (picture_of core.new) (reply_of result) }
    ensures asks { AsksIfFull E.SectorDisk core.old core.new None Nothing }
{
    let Some(pid) = free_pid(core) else {
        return Answer::Refused(Errno::EAGAIN);
    };
    match lifecycle::spawn(core, pid) {
        Ok(()) => Answer::Process(pid),
        Err(stall) => Answer::Stalled(stall),
    }
}

/// Starts a process with the pages of another, own copies included (fork(2)), and returns its number, the least that is
/// free. Each of the two sees its own later stores alone, but for those through shared pages.
///
/// In this order: `ESRCH` where there is no such parent, `EAGAIN` where 64 processes live. It may stall as a
/// spawn does, for the child's tables; then there is no child.
pub fn fork<D: SectorDisk, E: SectorDisk, M: Levels>(core: &mut Core<D, E, M>, pid: u64) -> Answer
    requires sound { IsSoundCore D.SectorDisk E.SectorDisk core.old }
    ensures comes { Carries D.SectorDisk E.SectorDisk core.old core.new (Fork pid) (reply_of result) }
    ensures keeps { LeavesStore D.SectorDisk E.SectorDisk core.old core.new (reply_of result) }
    ensures takes { ForkTakes (picture_of core.old) (picture_of core.new) pid (reply_of result) }
    ensures asks { AsksSlots E.SectorDisk core.old core.new None Nothing }
{
    let Some(parent) = core.live(pid) else {
        return Answer::Refused(Errno::ESRCH);
    };
    let Some(child) = free_pid(core) else {
        return Answer::Refused(Errno::EAGAIN);
    };
    match lifecycle::fork(core, parent, child) {
        Ok(()) => Answer::Process(child),
        Err(stall) => Answer::Stalled(stall),
    }
}

/// Ends a process (_exit(2)): its space is gone and its number free. What it stored to files through shared pages stays, and of
/// objects what another process has.
///
/// `ESRCH` where there is no such process.
#[tactic(auto, using(crate::proofs::Returning::takes_none))]
pub fn exit<D: SectorDisk, E: SectorDisk, M: Levels>(core: &mut Core<D, E, M>, pid: u64) -> Answer
    requires sound { IsSoundCore D.SectorDisk E.SectorDisk core.old }
    ensures comes { Carries D.SectorDisk E.SectorDisk core.old core.new (Exit pid) (reply_of result) }
    ensures keeps { GivesPagesBack D.SectorDisk E.SectorDisk core.old core.new pid 0 (user_end M.mode) (reply_of result) }
{
    let Some(pid) = core.live(pid) else {
        return Answer::Refused(Errno::ESRCH);
    };
    lifecycle::exit(core, pid);
    Answer::Done
}
