//! How an msync is judged, and what it takes: the touched file pages behind the shared pages of its range, and the whole of each file of
//! another length that those show.
ghost use Rattle.std.specs.Prelude.{◌≡◌, ◌≤◌, length, IfOk, OnErr};
ghost use Rattle.vm_types.specs.Attributes.{backing_fits};
ghost use Rattle.vm_types.specs.State.{State};
ghost use Rattle.vm_types.specs.declared.region.Backing.TheVariants.{Shared};
ghost use Rattle.regions.specs.RunList.{attr_at};
ghost use Rattle.page_cache.specs.CacheTable.{is_touched};
ghost use Rattle.page_cache.specs.Gathering.{IsGathering};
ghost use Rattle.residency.specs.Picture.{picture_of};
ghost use Rattle.msync.specs.Choice.{of_files, AreInFiles, Appends, OverflowsRow, ListsFiles, IsNextFile, IsRulingOn, RulesSame, AreListed, AreTaken, IsNoDeviceFault};
ghost use Rattle.msync.specs.Judging.{is_resized_by, is_chosen_by, is_whole_by, is_taken_by, AreNumbered, CoversPages, IsLesser, MayChoose, MayJudge};
ghost use Rattle.msync.specs.Rooms.{size_of};
ghost use Rattle.msync.specs.Shows.{CoreShows};

use crate::chosen::{PageRow, Ruling, SyncCall, Taken};
use crate::room::TakenLists;
use disk_model::SectorDisk;
use page_cache::{FileRow, TooMany};
use regions::Regions;
use residency::Core;
use vm_types::{Backing, Errno, FilePage, Levels, MsyncMode, PAGE_BYTES};

/// Bytes of a page, as a number of addresses.
const PAGE: u64 = PAGE_BYTES as u64;

/// As many pages as a file may have.
const FILE_PAGES: u32 = 1 << 30;

/// Judges an msync: the checks of msync(2) in our order, `ESRCH`, `EINVAL`, `ENOMEM` and `ENOSPC`. What it takes is at the front of the
/// lists.
pub(crate) fn rule<D: SectorDisk, E, M: Levels>(
    core: &Core<D, E, M>,
    call: SyncCall,
    lists: &mut TakenLists,
) -> Ruling
    requires { MayJudge core.now lists.old }
    ensures same { (s : State) → CoreShows D.SectorDisk core.now s → s.most ≡ length lists.old.pages.items
        → RulesSame s call.pid call.addr call.len call.mode lists.new.pages.items lists.new.files.items result }
    ensures listed { AreListed (picture_of core.now) (is_resized_by core.now) lists.new.pages.items lists.new.files.items result }
    ensures taken { AreTaken (picture_of core.now) core.now.store.sizes.items call.pid call.addr call.len lists.new.pages.items lists.new.files.items result }
    ensures no_fault { IsNoDeviceFault result }
    ensures size { size_of lists.new ≡ size_of lists.old }
{
    let SyncCall {
        pid,
        addr,
        len,
        mode,
    } = call;
    let Some(process) = core.live(pid) else {
        return Ruling::Refuses(Errno::ESRCH);
    };
    if addr % PAGE != 0 {
        return Ruling::Refuses(Errno::EINVAL);
    }
    if len == 0 {
        return Ruling::Passes;
    }
    let first = addr / PAGE;
    let count = len.div_ceil(PAGE);
    let regions = core.regions(process);
    if !regions.covers(first, count) {
        return Ruling::Refuses(Errno::ENOMEM);
    }
    let end = first + count;
    match mode {
        MsyncMode::Async => Ruling::Passes,
        MsyncMode::Sync => choose(core, regions, PageRow { first, end }, lists),
    }
}

/// What an msync of the row takes: `ENOSPC` where there are more pages than the list has room for.
fn choose<D: SectorDisk, E, M: Levels>(
    core: &Core<D, E, M>,
    regions: &Regions<M>,
    row: PageRow,
    lists: &mut TakenLists,
) -> Ruling
    requires { MayChoose core.now (attr_at regions.now) row lists.old }
    ensures ruling { IsRulingOn (is_chosen_by core.now (attr_at regions.now) row) (is_whole_by core.now (attr_at regions.now) row) lists.new.pages.items lists.new.files.items result }
    ensures size { size_of lists.new ≡ size_of lists.old }
{
    let Ok(pages) = choose_between(core, regions, row, lists) else {
        return Ruling::Refuses(Errno::ENOSPC);
    };
    let files = list_files(core, regions, row, &mut lists.files);
    if pages == 0 && files == 0 {
        return Ruling::Passes;
    }
    Ruling::Takes(Taken { pages, files })
}

/// Lists the touched pages that an msync of the row takes, run by run, and returns how many there are; `TooMany` exactly where
/// those are more than the list has room for.
fn choose_between<D: SectorDisk, E, M: Levels>(
    core: &Core<D, E, M>,
    regions: &Regions<M>,
    row: PageRow,
    lists: &mut TakenLists,
) -> Result<usize, TooMany>
    requires { MayChoose core.now (attr_at regions.now) row lists.old }
    ensures ok { IfOk result (Appends (is_chosen_by core.now (attr_at regions.now) row) lists.old.pages.items lists.new.pages.items 0) }
    ensures too_many { OnErr result (OverflowsRow (is_chosen_by core.now (attr_at regions.now) row) lists.old.pages.items 0) }
    ensures size { size_of lists.new ≡ size_of lists.old }
{
    let mut count = 0;
    let mut page = row.first;
    while page < row.end {
        let Some(run) = regions.next_run(page) else {
            return Ok(count);
        };
        let stop = run.end.min(row.end);
        let pages = stop.saturating_sub(run.first);
        count = choose_behind(core, run.attr.backing, pages, lists, count)?;
        page = stop;
    }
    Ok(count)
}

/// Appends the touched pages behind `count` pages, the first of which has this backing, or all touched pages of their file, where that has
/// got another length. Shared pages of files alone count. Returns how many entries there are then.
///
/// # Errors
/// `TooMany` exactly where there would be more entries than the list has room for.
fn choose_behind<D: SectorDisk, E, M: Levels>(
    core: &Core<D, E, M>,
    backing: Backing,
    count: u64,
    lists: &mut TakenLists,
    used: usize,
) -> Result<usize, TooMany>
    requires row { backing_fits backing count }
    requires inside { AreInFiles (of_files (is_touched core.now.cache)) }
    requires gathering { IsGathering core.now.cache lists.old.pages.items lists.old.ranks.items used }
    ensures ok { IfOk result (Appends (is_taken_by core.now backing count) lists.old.pages.items lists.new.pages.items used) }
    ensures next { IfOk result (IsGathering core.now.cache lists.new.pages.items lists.new.ranks.items) }
    ensures too_many { OnErr result (OverflowsRow (is_taken_by core.now backing count) lists.old.pages.items used) }
    ensures size { size_of lists.new ≡ size_of lists.old }
{
    match backing {
        Backing::Anon | Backing::Private(_) | Backing::Common(_) => Ok(used),
        Backing::Shared(first) => {
            let row = row_behind(core, first, count);
            core.cache
                .dirty_in(row, &mut lists.pages, &mut lists.ranks, used)
        }
    }
}

/// The pages of a file that are looked through for `count` shared ones, the first of which is this: those behind them, or all pages of a
/// file that has got another length.
fn row_behind<D: SectorDisk, E, M: Levels>(
    core: &Core<D, E, M>,
    first: FilePage,
    count: u64,
) -> FileRow
    requires { backing_fits (Shared first) count }
    ensures { CoversPages (is_resized_by core.now) first count result }
{
    if count > 0 && core.store.is_resized(first.file) {
        return FileRow {
            first: FilePage {
                file: first.file,
                page: 0,
            },
            count: FILE_PAGES,
        };
    }
    // A row may have 2 ^ 32 pages, one more than a u32 tells. No file is long enough for the last of them.
    let count = count.min(u64::from(u32::MAX)) as u32;
    FileRow { first, count }
}

/// Lists the files that an msync of the row takes whole, by rising numbers, and returns how many there are.
fn list_files<D: SectorDisk, E, M: Levels>(
    core: &Core<D, E, M>,
    regions: &Regions<M>,
    row: PageRow,
    files: &mut [u16],
) -> usize
    requires order { row.first ≤ row.end }
    requires numbers { AreNumbered core.now }
    requires room { length core.now.store.sizes.items ≤ length files.old }
    ensures listed { ListsFiles (is_whole_by core.now (attr_at regions.now) row) files.new result }
    ensures few { result ≤ length files.new }
    ensures size { length files.new ≡ length files.old }
{
    let mut count = 0;
    let mut from = 0;
    while let Some(file) = next_file(core, regions, row, from) {
        files[count] = file;
        count += 1;
        from = u32::from(file) + 1;
    }
    count
}

/// The least file from a number on that an msync of the row takes whole, if there is one.
fn next_file<D: SectorDisk, E, M: Levels>(
    core: &Core<D, E, M>,
    regions: &Regions<M>,
    row: PageRow,
    from: u32,
) -> Option<u16>
    requires { row.first ≤ row.end }
    ensures { IsNextFile (is_whole_by core.now (attr_at regions.now) row) from result }
{
    let mut least = None;
    let mut page = row.first;
    while page < row.end {
        let Some(run) = regions.next_run(page) else {
            return least;
        };
        let stop = run.end.min(row.end);
        let pages = stop.saturating_sub(run.first);
        least = lesser(core, run.attr.backing, pages, from, least);
        page = stop;
    }
    least
}

/// The lesser of a file, if there is one, and the one behind `count` pages, the first of which has this backing, if that has a number from
/// `from` on and has got another length.
fn lesser<D: SectorDisk, E, M: Levels>(
    core: &Core<D, E, M>,
    backing: Backing,
    count: u64,
    from: u32,
    least: Option<u16>,
) -> Option<u16>
    ensures { IsLesser (is_resized_by core.now) backing count from least result }
{
    let Backing::Shared(first) = backing else {
        return least;
    };
    if count == 0 || u32::from(first.file) < from || !core.store.is_resized(first.file) {
        return least;
    }
    match least {
        Some(file) if file < first.file => least,
        _ => Some(first.file),
    }
}
