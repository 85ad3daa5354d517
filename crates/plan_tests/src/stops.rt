//! Plans that are stopped before each of their calls, with torn sectors, and opened again.
use super::client::{
    Client, NO_FILE, Plan, Request, SMALL, Seen, carry_out, equal, expect, file_of, lent_of,
    new_store, rows_of,
};
use disk_model::{SectorDisk, SimDisk};
use std::process::Abort;
use stores::NewStore;
use sync_plans::PageBytes;
use vm_types::FilePage;

/// The pages of the files of a new store.
const PLACES: [FilePage; 4] = [
    FilePage { file: 0, page: 0 },
    FilePage { file: 0, page: 1 },
    FilePage { file: 1, page: 0 },
    FilePage { file: 2, page: 0 },
];

/// What is seen of its files where these bytes fill the pages.
fn filled([first, second, locked, last]: [u8; 4]) -> [Seen; 4] {
    [
        file_of(5000, &[first, second, 0, 0, 0]),
        file_of(1, &[locked, 0, 0, 0, 0]),
        file_of(4096, &[last, 0, 0, 0, 0]),
        NO_FILE,
    ]
}

/// The bytes of that number: zeros, ones, half of the words that open the gate, or all of them.
fn filling_of(number: usize) -> [u8; 512] {
    if number == 2 {
        return [0xff; 512];
    }
    let words = match number {
        1 => 0,
        3 => 256,
        _ => 512,
    };
    let mut filling = [0; 512];
    for i in 0..words {
        filling[i] = b"GATEOPEN"[i % 8];
    }
    filling
}

/// The device after a stop within a plan. What each unsynced sector holds goes by the number: the old bytes, zeros, ones,
/// the words that open the gate, half of them or all, or what was written to it.
fn left_with(
    rt: &(impl AllocGlobal + Abort),
    disk: &SimDisk,
    plan: &Plan,
    number: usize,
) -> SimDisk {
    let mut filling = filling_of(number);
    let mut chosen = Vec::new(rt.alloc());
    if number > 0 {
        for call in plan.calls.iter().take(plan.used) {
            for i in 0..8 {
                let sector = call.sector.saturating_add(i);
                if number == WRITTEN && sector < disk.sectors() {
                    filling = *disk.sector(sector);
                }
                chosen.push((sector, filling)).expect(rt, "memory");
            }
        }
    }
    disk.left(rt.alloc(), chosen.as_slice())
        .expect(rt, "memory")
}

/// The last of these numbers.
const WRITTEN: usize = 5;

/// Stops a plan before each of its calls and at its end, with so many fillings of the unsynced sectors at least, and with all six where the gate is
/// unsynced. The files are then seen as they were before or after: at the beginning as before, at the end as after.
pub(crate) fn stopped_everywhere(
    rt: &(impl AllocGlobal + Abort),
    disk: &SimDisk,
    plan: &Plan,
    lent: &[PageBytes<'_>],
    [before, after]: [[Seen; 4]; 2],
    least: usize,
) {
    let mut looker = Client::new(rt, SMALL);
    let mut stopped = left_with(rt, disk, plan, 0);
    let mut fillings = least;
    for count in 0..=plan.used {
        for further in 0..fillings {
            let number = (count % 6 + further % 6) % 6;
            let mut left = left_with(rt, &stopped, plan, number);
            let files = looker.opened(rt, &mut left);
            let is_old = count < plan.used && files == before;
            let is_new = count > 0 && files == after;
            assert!(rt; is_old || is_new, "filling {number} before call {count}");
        }
        let is_made = carry_out(&mut stopped, plan, lent, count, 1);
        expect(rt, is_made, "a call that can't be made");
        // The gate is sector 2, or 8 where there is a pool.
        fillings = match plan.calls.get(count) {
            Some(call) if call.kind == 1 && [2, 8].contains(&call.sector) => 6,
            _ => least,
        };
    }
}

/// Commits the pages whose byte changes, of which those past a file's end are not to be seen: stops the plan everywhere, and then
/// carries it out. So many of its calls write a row, sync, write a page that is lent, and copy one.
fn committed(
    rt: &(impl AllocGlobal + Abort),
    disk: &mut SimDisk,
    before: [u8; 4],
    after: [u8; 4],
    wanted: [usize; 4],
) {
    let (mut pages, mut bytes) = (Vec::new(rt.alloc()), Vec::new(rt.alloc()));
    for i in 0..4 {
        if before[i] != after[i] {
            pages.push(PLACES[i]).expect(rt, "memory");
            bytes.push([after[i]; 4096]).expect(rt, "memory");
        }
    }
    let lent = lent_of(rt, bytes.as_slice());
    let image = rows_of(rt, disk);
    let request = Request::Commit(pages.as_slice(), lent.as_slice());
    let mut client = Client::new(rt, SMALL);
    let answer = client.ask(image.as_slice(), request);
    let plan = &client.plan;
    equal(rt, (answer, plan.counts()), (Ok(plan.used), wanted));
    let seen = [filled(before), filled(after)];
    stopped_everywhere(rt, disk, plan, lent.as_slice(), seen, 1);
    let is_done = carry_out(disk, plan, lent.as_slice(), 0, plan.used);
    expect(rt, is_done, "a plan that can't be carried out");
}

/// Commits, each by what fills the pages after it and by its calls of each kind. First one page, whose bytes past its file's end make
/// it eight sectors of the body, and the map's, and the gate, with a sync behind each; then three pages of two files, two of them each
/// in one call. With a journal the home of the page before and the gate come first, with a sync behind each. Of a pool it is two syncs whichever map is
/// written, and no page goes home.
const JOURNAL: &[([u8; 4], [usize; 4])] = &[
    ([0, 7, 0, 0], [17, 2, 0, 0]),
    ([5, 6, 0, 8], [18, 4, 2, 1]),
];

const POOL: &[([u8; 4], [usize; 4])] = &[
    ([0, 7, 0, 0], [17, 2, 0, 0]),
    ([5, 6, 0, 8], [17, 2, 2, 0]),
    ([4, 6, 0, 8], [9, 2, 1, 0]),
    ([4, 6, 0, 9], [9, 2, 1, 0]),
];

// Each of the commits to a new store is stopped, and at the end its opening, and that its pages are brought home, each of so many calls of each kind. An open journal is
// carried out whichever is asked: three pages, the gate, and a sync behind each of both.
#[test]
fn a_plan_is_whole_or_nothing(rt: HostRuntime) {
    for (store, commits, [open, tidy]) in [
        (NewStore::Journal, JOURNAL, [[1, 2, 0, 3]; 2]),
        (NewStore::Pool(1), POOL, [[9, 2, 0, 0], [9, 2, 0, 3]]),
    ] {
        let mut disk = new_store(&rt, store);
        let mut files = [0; 4];
        for (after, wanted) in commits {
            committed(&rt, &mut disk, files, *after, *wanted);
            files = *after;
        }
        let mut client = Client::new(&rt, SMALL);
        let image = rows_of(&rt, &disk);
        for (request, wanted) in [(Request::Open, open), (Request::Tidy, tidy)] {
            let answer = client.ask(image.as_slice(), request);
            let plan = &client.plan;
            equal(&rt, (answer, plan.counts()), (Ok(plan.used), wanted));
            stopped_everywhere(&rt, &disk, plan, &[], [filled(files); 2], 1);
        }
    }
}
