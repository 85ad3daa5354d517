//! How many runs a sequence of changes leaves, and what a map tells of its pages.
ghost use Rattle.std.specs.Prelude.{◌≤◌};
ghost use Rattle.vm_types.specs.Attributes.{backing_fits};

use crate::bench::equal;
use regions::Regions;
use std::process::Abort;
use vm_types::{Attr, Backing, FilePage, Levels, PageKey, Prot, Sv39, Sv48, TooManyRuns, Vpn};

/// What is done with a row of pages; what is mapped are zeros, or shared pages of file 0 from one on.
#[derive(Clone, Copy)]
enum Change {
    Map(Prot, Option<u16>),
    Protect(Prot),
    Remove,
}

fn backing(page: Option<u16>, pages: u64) -> Backing
    requires { pages ≤ 1000 }
    ensures { backing_fits result pages }
{
    match page {
        Some(page) => Backing::Shared(FilePage {
            file: 0,
            page: u32::from(page),
        }),
        None => Backing::Anon,
    }
}

/// Changes so many pages from the first one on; how many runs there are then.
fn runs_after<M: Levels>(
    rt: &impl Abort,
    regions: &mut Regions<M>,
    first: u64,
    pages: u64,
    change: Change,
) -> Result<usize, TooManyRuns> {
    assert!(rt; 16 <= first);
    assert!(rt; first <= 0x10000);
    assert!(rt; 0 < pages);
    assert!(rt; pages <= 1000);
    let mut next = Regions::<M>::new();
    match change {
        Change::Map(prot, page) => {
            let backing = backing(page, pages);
            regions.replace_into(first, pages, Attr { prot, backing }, &mut next)?;
        }
        Change::Protect(prot) => regions.protect_into(first, pages, prot, &mut next)?,
        Change::Remove => regions.remove_into(first, pages, &mut next)?,
    }
    regions.assign(&next);
    Ok(regions.runs())
}

fn split_and_merge<M: Levels>(rt: &impl Abort) {
    let read_write = Prot::READ | Prot::WRITE;
    let mut regions = Regions::<M>::new();
    for (first, pages, change, runs) in [
        (0x20, 5, Change::Map(read_write, None), 1),
        (0x22, 1, Change::Map(Prot::READ, None), 3),
        (0x21, 3, Change::Remove, 2),
        (0x21, 3, Change::Map(read_write, None), 1),
        // pages of a file, that follow one another in one run
        (0x20, 5, Change::Map(read_write, Some(0)), 1),
        (0x22, 1, Change::Map(Prot::READ, Some(2)), 3),
        (0x22, 1, Change::Protect(read_write), 1),
        (0x23, 1, Change::Map(read_write, Some(0)), 3),
        (0x21, 2, Change::Remove, 3),
    ] {
        let got = runs_after(rt, &mut regions, first, pages, change);
        equal(rt, (first, pages, got), (first, pages, Ok(runs)));
    }
    equal(
        rt,
        [regions.covers(0x23, 2), regions.covers(0x20, 4)],
        [true, false],
    );
}

#[test]
fn pages_split_and_merge_up_to_the_last_page_of_the_mode(rt: HostRuntime) {
    split_and_merge::<Sv39>(&rt);
    split_and_merge::<Sv48>(&rt);
    // The first address that Sv39 has no page for, and the last page of Sv48.
    let (small, large) = (Regions::<Sv39>::new(), Regions::<Sv48>::new());
    for (addr, pages, first, second) in [
        (0x3f_ffff_f000, 1, 0x3ff_ffff, 0x3ff_ffff),
        (0x3f_ffff_f000, 2, 0x10, 0x3ff_ffff),
        (0x40_0000_0000, 1, 0x10, 0x400_0000),
        (0x7fff_ffff_f000, 1, 0x10, 0x7_ffff_ffff),
        (0x7fff_ffff_f000, 2, 0x10, 0x10),
        (0x8000_0000_0000, 1, 0x10, 0x10),
    ] {
        let places = (small.place(addr, pages), large.place(addr, pages));
        equal(
            &rt,
            (addr, places),
            (addr, (Vpn::new::<Sv39>(first), Vpn::new::<Sv48>(second))),
        );
    }
}

#[test]
fn a_map_has_256_runs_and_tells_what_its_pages_are(rt: HostRuntime) {
    let mut regions = Regions::<Sv39>::new();
    let mapped = Change::Map(Prot::READ | Prot::WRITE, Some(0));
    equal(&rt, runs_after(&rt, &mut regions, 0x10, 511, mapped), Ok(1));
    let barred = Change::Protect(Prot::READ);
    for k in 0..127u64 {
        let runs = runs_after(&rt, &mut regions, 0x11 + 2 * k, 1, barred);
        equal(&rt, runs, Ok(2 * k as usize + 3));
    }
    equal(&rt, regions.runs(), 255);
    equal(
        &rt,
        runs_after(&rt, &mut regions, 0x10f, 1, barred),
        Err(TooManyRuns),
    );
    equal(
        &rt,
        runs_after(&rt, &mut regions, 0x20e, 1, barred),
        Ok(256),
    );
    regions.clear();
    let mapped = Change::Map(Prot::READ, Some(0));
    equal(&rt, runs_after(&rt, &mut regions, 0x20, 5, mapped), Ok(1));
    let copy = regions.copied();
    regions.clear();
    equal(&rt, [copy.runs(), regions.runs()], [1, 0]);
    // free where it was asked for, and the lowest page where that is taken
    equal(
        &rt,
        [copy.place(0x25000, 3), copy.place(0x24000, 1)],
        [Vpn::new::<Sv39>(0x25), Vpn::new::<Sv39>(0x10)],
    );
    let page = Vpn::new::<Sv39>(0x22).expect(&rt, "a user page");
    let third = Attr {
        prot: Prot::READ,
        backing: Backing::Shared(FilePage { file: 0, page: 2 }),
    };
    equal(&rt, copy.at(page), Some(third));
    let next = copy.next_run(0x21).expect(&rt, "a mapped page");
    equal(&rt, (next.first, next.end), (0x21, 0x25));
    let key = PageKey::File(FilePage { file: 0, page: 2 });
    equal(
        &rt,
        [copy.first_on(0x10, key), copy.first_on(0x23, key)],
        [Some(page), None],
    );
}
