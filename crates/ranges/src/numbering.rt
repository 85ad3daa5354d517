//! The number of a new object.
ghost use Rattle.std.specs.Prelude.{◌≡◌, ◌+◌, ◌≤◌, ◌<◌, false, true, get_or, length};
ghost use Rattle.vm_types.specs.Limits.{named_limit, user_end};
ghost use Rattle.vm_types.specs.Objects.{free_object, is_of_object, least_from};
ghost use Rattle.residency.specs.Picture.{picture_of, is_live};
ghost use Rattle.residency.specs.Parts.{IsFit};
ghost use Rattle.ranges.specs.Numbers.{Marks, IsUsedBetween, IsUsedBy};
ghost use Rattle.ranges.specs.Rows.{without_maps};

use residency::{Core, PLACES};
use vm_types::{Backing, Levels, NAMED_OBJECTS, Pid, WIDEST_END};

/// Pages of a process that are left out: the `pages` ones from `first` on.
#[derive(Clone, Copy)]
struct LeftOut {
    pid: Pid,
    first: u64,
    pages: u64,
}

/// The least number of an object of which no page is, once the `pages` pages from `first` on of the process are mapped no more. Its
/// time is that of the runs of all processes and of the numbers.
pub fn free_object<D, E, M: Levels>(core: &Core<D, E, M>, pid: Pid, first: u64, pages: u64) -> u16
    requires fit { IsFit (picture_of core.now) }
    requires row { first + pages ≤ user_end M.mode }
    ensures { result ≡ free_object (without_maps (picture_of core.now).at pid first pages) }
{
    let left_out = LeftOut { pid, first, pages };
    let mut used = [false; NAMED_OBJECTS];
    for number in 1..PLACES {
        mark_process(core, number as u64, &left_out, &mut used);
    }
    first_free(&used)
}

/// Marks the objects of the process of that number, where it lives, but for the pages that are left out.
fn mark_process<D, E, M: Levels>(
    core: &Core<D, E, M>,
    number: u64,
    left_out: &LeftOut,
    used: &mut [bool; NAMED_OBJECTS],
)
    requires fit { IsFit (picture_of core.now) }
    requires row { left_out.now.first + left_out.now.pages ≤ user_end M.mode }
    requires room { length used.old ≡ named_limit }
    ensures marks { Marks (IsUsedBy (without_maps (picture_of core.now).at left_out.now.pid left_out.now.first left_out.now.pages) number) used.old used.new }
{
    let Some(process) = core.live(number) else {
        return;
    };
    if process.get() == left_out.pid.get() {
        let first = left_out.first;
        let pages = left_out.pages;
        mark(core, process, 0, first, used);
        mark(core, process, first + pages, WIDEST_END, used);
    } else {
        mark(core, process, 0, WIDEST_END, used);
    }
}

/// Marks the objects of the pages from `from` up to, not including, `end`.
fn mark<D, E, M: Levels>(
    core: &Core<D, E, M>,
    pid: Pid,
    from: u64,
    end: u64,
    used: &mut [bool; NAMED_OBJECTS],
)
    requires live { is_live (picture_of core.now) pid ≡ true }
    requires room { length used.old ≡ named_limit }
    ensures marks { Marks (IsUsedBetween ((picture_of core.now).at pid) from end) used.old used.new }
{
    let mut at = from;
    while let Some(run) = core.regions(pid).next_run(at) {
        if run.first >= end {
            return;
        }
        mark_backing(run.attr.backing, used);
        at = run.end;
    }
}

/// Marks the object of a page.
fn mark_backing(backing: Backing, used: &mut [bool; NAMED_OBJECTS])
    requires room { length used.old ≡ named_limit }
    ensures marks { Marks (λ o. is_of_object backing o ≡ true) used.old used.new }
{
    if let Backing::Common(page) = backing {
        if (page.object as usize) < NAMED_OBJECTS {
            used[page.object as usize] = true;
        }
    }
}

/// The first number that isn't marked.
fn first_free(used: &[bool; NAMED_OBJECTS]) -> u16
    requires room { length used.now ≡ named_limit }
    ensures { result ≡ least_from (λ o. get_or used.now o false) 0 named_limit }
{
    for n in 0..NAMED_OBJECTS {
        if !used[n] {
            return n as u16;
        }
    }
    NAMED_OBJECTS as u16
}
