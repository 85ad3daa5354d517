//! Plans of commits and resizes of many pages, and of homes at idle, for stores of layout 4.
ghost use Rattle.directories.specs.Kinds.{IsMapSize};

use super::client::{
    Client, LARGE, Request, carry_out, equal, expect, lent_of, long, made, pages_between, rows_of,
    zeros,
};
use disk_model::SimDisk;
use pool_growth::FileSize;
use std::process::Abort;
use stores::NewStore;
use sync_plans::{PageBytes, Refusal, ResizeRefusal, SizeUpdates};
use vm_types::FilePage;

/// How many pages the file has. It ends with the last of them.
const PAGES: u32 = 1100;

/// A device with a store of a file, and who asks for plans.
#[derive(Drop)]
struct Bench {
    disk: SimDisk,
    client: Client,
}

impl Bench {
    /// A new store with maps of so many blocks.
    fn new(rt: &(impl AllocGlobal + Abort), blocks: u32) -> Bench
        requires { IsMapSize blocks }
    {
        let mut files = [zeros(PAGES * 4096, false)];
        Bench {
            disk: made(rt, NewStore::Pool(blocks), &mut files, 0),
            client: Client::new(rt, LARGE),
        }
    }

    /// Plans a commit of these pages, and carries it out. So many of its calls write a row, sync, write a page that is lent, and copy one.
    fn commit(
        &mut self,
        rt: &(impl AllocGlobal + Abort),
        pages: &[FilePage],
        bytes: &[[u8; 4096]],
        wanted: [usize; 4],
    ) {
        let lent = lent_of(rt, bytes);
        let request = Request::Commit(pages, lent.as_slice());
        self.carry(rt, request, lent.as_slice(), wanted);
    }

    /// Plans what is asked, for which these pages are lent, and carries it out.
    fn carry(
        &mut self,
        rt: &(impl AllocGlobal + Abort),
        request: Request<'_>,
        lent: &[PageBytes<'_>],
        wanted: [usize; 4],
    ) {
        let image = rows_of(rt, &self.disk);
        let answer = self.client.ask(image.as_slice(), request);
        self.carry_plan(rt, answer.ok(), lent, wanted);
    }

    /// Carries out a plan, which has so many calls.
    fn carry_plan(
        &mut self,
        rt: &impl Abort,
        calls: Option<usize>,
        lent: &[PageBytes<'_>],
        wanted: [usize; 4],
    ) {
        let plan = &self.client.plan;
        equal(rt, (calls, plan.counts()), (Some(plan.used), wanted));
        let is_done = carry_out(&mut self.disk, plan, lent, 0, plan.used);
        expect(rt, is_done, "a plan that can't be carried out");
    }

    /// Plans that files get sizes, with pages of theirs, and carries it out. So many of its calls write a row, sync, write a page that is lent, and copy one.
    fn resized(
        &mut self,
        rt: &(impl AllocGlobal + Abort),
        updates: SizeUpdates<'_>,
        wanted: [usize; 4],
    ) {
        let image = rows_of(rt, &self.disk);
        let answer = self.client.resize(image.as_slice(), updates);
        self.carry_plan(rt, answer.ok(), updates.bytes, wanted);
    }

    /// The byte that fills a page of file 0.
    fn byte_of(&mut self, rt: &(impl AllocGlobal + Abort), page: u32) -> u8 {
        let image = rows_of(rt, &self.disk);
        self.client
            .byte(rt, image.as_slice(), FilePage { file: 0, page }, 4096)
    }
}

/// These sizes, with these new pages.
fn grown<'a>(
    sizes: &'a [FileSize],
    fresh: &'a [FilePage],
    bytes: &'a [PageBytes<'a>],
) -> SizeUpdates<'a> {
    SizeUpdates {
        sizes,
        fresh,
        pages: &[],
        bytes,
    }
}

/// So many pages of this byte, but that each third one, from the second on, is of the byte 1.
fn pages_of(rt: &(impl AllocGlobal + Abort), byte: u8, count: u32) -> Vec<[u8; 4096]> {
    let mut pages = Vec::new(rt.alloc());
    for page in 0..count {
        let byte = if page % 3 == 1 { 1 } else { byte };
        pages.push([byte; 4096]).expect(rt, "memory");
    }
    pages
}

/// So many pages, each of a byte of its own.
fn numbered_pages(rt: &(impl AllocGlobal + Abort), count: u8) -> Vec<[u8; 4096]> {
    let mut pages = Vec::new(rt.alloc());
    for byte in 1..=count {
        pages.push([byte; 4096]).expect(rt, "memory");
    }
    pages
}

// Maps have three blocks, and 1,100 slots are named in the third one too. A block takes eight rows, and the gate one.
#[test]
fn each_page_in_rising_order_takes_a_call(rt: HostRuntime) {
    let mut bench = Bench::new(&rt, 3);
    bench.carry(&rt, Request::Open, &[], [0; 4]);
    let pages = pages_between(&rt, 0, PAGES);
    let bytes = Vec::from_elem(rt.alloc(), [9; 4096], pages.len()).expect(&rt, "memory");
    bench.commit(&rt, pages.as_slice(), bytes.as_slice(), [25, 2, 1100, 0]);
    equal(&rt, bench.byte_of(&rt, 1099), 9);
    // An opening writes the map anew.
    bench.carry(&rt, Request::Open, &[], [25, 2, 0, 0]);
    let page = FilePage { file: 0, page: 555 };
    bench.commit(&rt, &[page], &[[8; 4096]], [25, 2, 1, 0]);
    equal(&rt, bench.byte_of(&rt, 555), 8);
    equal(&rt, bench.byte_of(&rt, 1099), 9);
}

// Pages are written in the order of their homes: the second of these first.
#[test]
fn a_page_out_of_order_takes_a_call(rt: HostRuntime) {
    let mut bench = Bench::new(&rt, 1);
    let [low, high] = [3, 5].map(|page| FilePage { file: 0, page });
    bench.commit(&rt, &[high, low], &[[5; 4096], [3; 4096]], [9, 2, 2, 0]);
    equal(&rt, bench.byte_of(&rt, 3), 3);
    equal(&rt, bench.byte_of(&rt, 5), 5);
}

// Of two files of ten pages the first gets ten more, whose homes lie behind those of the second: so these are the last that a commit of all 30 writes. A growth takes
// a page of the directory too, of eight rows.
#[test]
fn pages_of_a_file_that_grew_take_a_call_each(rt: HostRuntime) {
    let mut files = [zeros(40960, false), zeros(40960, false)];
    let mut bench = Bench {
        disk: made(&rt, NewStore::Pool(1), &mut files, 10),
        client: Client::new(&rt, LARGE),
    };
    let bytes = numbered_pages(&rt, 10);
    let lent = lent_of(&rt, bytes.as_slice());
    let new = pages_between(&rt, 10, 20);
    let sizes = [long(0, 20 * 4096)];
    let updates = grown(&sizes, new.as_slice(), lent.as_slice());
    bench.resized(&rt, updates, [17, 2, 10, 0]);
    let mut pages = pages_between(&rt, 0, 20);
    for page in 0..10 {
        pages.push(FilePage { file: 1, page }).expect(&rt, "memory");
    }
    let bytes = numbered_pages(&rt, 30);
    bench.commit(&rt, pages.as_slice(), bytes.as_slice(), [9, 2, 30, 0]);
    let image = rows_of(&rt, &bench.disk);
    for (page, bytes) in pages.iter().zip(&bytes) {
        let byte = bench.client.byte(&rt, image.as_slice(), *page, 4096);
        equal(&rt, byte, bytes[0]);
    }
}

// A body has 504 slots: after 1,000 pages the next commit has all others of them copied home. Maps have one block of slots.
#[test]
fn pages_go_home_in_a_call_each(rt: HostRuntime) {
    let mut bench = Bench::new(&rt, 1);
    let pages = pages_between(&rt, 0, 1000);
    let bytes = Vec::from_elem(rt.alloc(), [7; 4096], 1000).expect(&rt, "memory");
    bench.commit(&rt, pages.as_slice(), bytes.as_slice(), [9, 2, 1000, 0]);
    let first = pages_between(&rt, 0, 2);
    bench.commit(
        &rt,
        first.as_slice(),
        &[[0; 4096], [6; 4096]],
        [9, 2, 2, 998],
    );
    for (page, byte) in [(0, 0), (1, 6), (2, 7), (999, 7), (1000, 0)] {
        equal(&rt, bench.byte_of(&rt, page), byte);
    }
}

// It copies each page, and writes a map, in which no page has a slot, and the gate.
#[test]
fn a_tidy_brings_all_pages_home_in_two_syncs(rt: HostRuntime) {
    let mut bench = Bench::new(&rt, 1);
    bench.carry(&rt, Request::Tidy, &[], [0; 4]);
    let pages = pages_between(&rt, 0, 3);
    let bytes = [[1; 4096], [2; 4096], [3; 4096]];
    bench.commit(&rt, pages.as_slice(), &bytes, [9, 2, 3, 0]);
    bench.carry(&rt, Request::Tidy, &[], [9, 2, 0, 3]);
    bench.carry(&rt, Request::Tidy, &[], [0; 4]);
    bench.carry(&rt, Request::Open, &[], [0; 4]);
    for (page, byte) in [(0, 1), (1, 2), (2, 3), (3, 0)] {
        equal(&rt, bench.byte_of(&rt, page), byte);
    }
}

// Maps have one block, and both bodies together 1,008 slots. A commit of as many pages has those of the one before brought home first, in two syncs more.
// Each page is still lent, though a map was written before.
#[test]
fn a_commit_of_all_slots_makes_room_itself(rt: HostRuntime) {
    let mut bench = Bench::new(&rt, 1);
    let pages = pages_between(&rt, 0, 1008);
    for (byte, wanted) in [(7, [9, 2, 1008, 0]), (8, [18, 4, 1008, 1008])] {
        let bytes = pages_of(&rt, byte, 1008);
        bench.commit(&rt, pages.as_slice(), bytes.as_slice(), wanted);
        for (page, byte) in [(0, byte), (1006, 1), (1007, byte), (1008, 0)] {
            equal(&rt, bench.byte_of(&rt, page), byte);
        }
    }
    let more = pages_between(&rt, 0, 1009);
    let bytes = pages_of(&rt, 9, 1009);
    let lent = lent_of(&rt, bytes.as_slice());
    let image = rows_of(&rt, &bench.disk);
    let request = Request::Commit(more.as_slice(), lent.as_slice());
    let answer = bench.client.ask(image.as_slice(), request);
    equal(&rt, answer, Err(Refusal::BadPages));
}

// A page of the directory takes a slot too. Where eight are free, a resize with eight pages has all of before brought home first, in two syncs more.
// Each of the eight is still lent then.
#[test]
fn a_resize_makes_room_itself(rt: HostRuntime) {
    let mut bench = Bench::new(&rt, 1);
    let pages = pages_between(&rt, 0, 1000);
    let bytes = Vec::from_elem(rt.alloc(), [7; 4096], 1000).expect(&rt, "memory");
    bench.commit(&rt, pages.as_slice(), bytes.as_slice(), [9, 2, 1000, 0]);
    let pages = pages_between(&rt, 0, 8);
    let bytes = pages_of(&rt, 8, 8);
    let lent = lent_of(&rt, bytes.as_slice());
    let updates = SizeUpdates {
        sizes: &[long(0, 1050 * 4096)],
        fresh: &[],
        pages: pages.as_slice(),
        bytes: lent.as_slice(),
    };
    bench.resized(&rt, updates, [26, 4, 8, 1000]);
    for (page, byte) in [(0, 8), (1, 1), (7, 1), (8, 7), (999, 7), (1000, 0)] {
        equal(&rt, bench.byte_of(&rt, page), byte);
    }
    let more = pages_between(&rt, 0, 1008);
    let bytes = pages_of(&rt, 9, 1008);
    let lent = lent_of(&rt, bytes.as_slice());
    let updates = SizeUpdates {
        sizes: &[long(0, 1049 * 4096)],
        fresh: &[],
        pages: more.as_slice(),
        bytes: lent.as_slice(),
    };
    let image = rows_of(&rt, &bench.disk);
    let answer = bench.client.resize(image.as_slice(), updates);
    equal(&rt, answer, Err(ResizeRefusal::BadPages));
}

// A file of ten pages gets 1,000 more, all of them given: a call writes each. They are cut away, and come again, of which one is given: a call makes all of them zeros,
// one writes that one, and the others bring a page of the directory, of eight rows, the map and the gate.
#[test]
fn new_pages_that_are_not_given_take_one_call(rt: HostRuntime) {
    let mut files = [zeros(40960, false)];
    let mut bench = Bench {
        disk: made(&rt, NewStore::Pool(1), &mut files, 1000),
        client: Client::new(&rt, LARGE),
    };
    let all = pages_between(&rt, 10, 1010);
    let bytes = Vec::from_elem(rt.alloc(), [7; 4096], 1000).expect(&rt, "memory");
    let lent = lent_of(&rt, bytes.as_slice());
    let sizes = [long(0, 1010 * 4096)];
    let updates = grown(&sizes, all.as_slice(), lent.as_slice());
    bench.resized(&rt, updates, [17, 3, 1000, 0]);
    equal(&rt, bench.byte_of(&rt, 1009), 7);
    bench.resized(&rt, grown(&[long(0, 10 * 4096)], &[], &[]), [17, 2, 0, 0]);
    let bytes = [[8; 4096]];
    let lent = lent_of(&rt, &bytes);
    let one = [FilePage { file: 0, page: 555 }];
    bench.resized(&rt, grown(&sizes, &one, lent.as_slice()), [17, 3, 1, 0]);
    equal(&rt, bench.client.plan.zeroed(), (1, 1000));
    let image = rows_of(&rt, &bench.disk);
    for page in all.iter() {
        let wanted = if page.page == 555 { 8 } else { 0 };
        let byte = bench.client.byte(&rt, image.as_slice(), *page, 4096);
        equal(&rt, byte, wanted);
    }
}
