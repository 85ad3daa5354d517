//! Pages of processes over pages of a file past a length: their entries and own copies go.
ghost use Rattle.std.specs.Prelude.{◌≡◌, true};
ghost use Rattle.vm_types.specs.Limits.{user_start, user_end};
ghost use Rattle.residency.specs.Picture.{picture_of, is_live};
ghost use Rattle.residency.specs.Parts.{IsFit};
ghost use Rattle.truncation.specs.Steps.{ClearsIn, ClearsPast, IsRunOf};

use crate::runs::first_past;
use ranges::clear_row;
use regions::Run;
use residency::{Core, PLACES};
use vm_types::{Levels, Pid, USER_START};

/// Takes the entries, with the own copies that they name, of all pages of processes over a page of file `file` that begins at or past
/// `length` bytes. The pages stay mapped.
pub(crate) fn clear_past<D, E, M: Levels>(core: &mut Core<D, E, M>, file: u16, length: u64)
    requires { IsFit (picture_of core.old) }
    ensures { ClearsPast core.old core.new file length }
{
    for number in 1..PLACES {
        clear_number(core, number as u64, file, length);
    }
}

/// The same of the process of that number, where it lives.
fn clear_number<D, E, M: Levels>(core: &mut Core<D, E, M>, number: u64, file: u16, length: u64)
    requires { IsFit (picture_of core.old) }
    ensures { ClearsIn core.old core.new file length number user_start (user_end M.mode) }
{
    if let Some(pid) = core.live(number) {
        clear_process(core, pid, file, length);
    }
}

/// The same of a live process, run by run.
fn clear_process<D, E, M: Levels>(core: &mut Core<D, E, M>, pid: Pid, file: u16, length: u64)
    requires fit { IsFit (picture_of core.old) }
    requires live { is_live (picture_of core.old) pid ≡ true }
    ensures { ClearsIn core.old core.new file length pid user_start (user_end M.mode) }
{
    let mut page = USER_START;
    while let Some(run) = core.regions(pid).next_run(page) {
        clear_run(core, pid, run, file, length);
        page = run.end;
    }
}

/// The same of one run of a live process.
fn clear_run<D, E, M: Levels>(core: &mut Core<D, E, M>, pid: Pid, run: Run, file: u16, length: u64)
    requires { IsRunOf (picture_of core.old) pid run }
    ensures { ClearsIn core.old core.new file length pid run.first run.end }
{
    if let Some(first) = first_past(run, file, length) {
        clear_row(core, pid, first, run.end - first);
    }
}
