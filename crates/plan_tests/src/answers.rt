//! What is refused, and how long plans are.
use super::client::{
    Client, LARGE, Request, carry_out, equal, expect, lent_of, made, new_store, pages_between,
    rows_of, zeros,
};
use std::process::Abort;
use stores::NewStore;
use sync_plans::Refusal;
use vm_types::FilePage;

const FIRST: FilePage = FilePage { file: 0, page: 0 };

#[test]
fn no_store_and_bad_pages_are_refused(rt: HostRuntime) {
    let mut client = Client::new(&rt, LARGE);
    for request in [Request::Open, Request::Tidy] {
        equal(&rt, client.ask(&[], request), Err(Refusal::BadLayout));
    }
    let lent = lent_of(&rt, &[[9; 4096]; 2]);
    for store in [NewStore::Journal, NewStore::Pool(1)] {
        let image = rows_of(&rt, &new_store(&rt, store));
        for (file, page, wanted) in [
            (0, 2, Refusal::BadPages),
            (0, 0, Refusal::BadPages),
            (3, 0, Refusal::BadPages),
            (1, 0, Refusal::ReadOnly),
        ] {
            let pages = [FIRST, FilePage { file, page }];
            let request = Request::Commit(&pages, lent.as_slice());
            equal(&rt, client.ask(image.as_slice(), request), Err(wanted));
        }
    }
}

// A commit of a page to a pool takes 12 calls: the page, eight rows of the map and one of the gate, with two syncs.
#[test]
fn the_shortest_list_is_the_room(rt: HostRuntime) {
    let image = rows_of(&rt, &new_store(&rt, NewStore::Pool(1)));
    let lent = lent_of(&rt, &[[9; 4096]]);
    for (scratch, plan, wanted) in [
        ([12, 12], [12, 12], Ok(12)),
        ([11, 13], [13, 13], Err(Refusal::Device)),
        ([13, 11], [13, 13], Err(Refusal::Device)),
        ([13, 13], [11, 13], Err(Refusal::Device)),
        ([13, 13], [13, 0], Err(Refusal::Device)),
    ] {
        let mut client = Client::new(&rt, [scratch, plan]);
        let request = Request::Commit(&[FIRST], lent.as_slice());
        equal(&rt, client.ask(image.as_slice(), request), wanted);
    }
}

/// So many calls take 1,023 pages, and 1,023 more.
#[test]
fn the_largest_plan_of_a_journal_is_short(rt: HostRuntime) {
    let mut files = [zeros(1023 * 4096, false)];
    let mut disk = made(&rt, NewStore::Journal, &mut files, 0);
    let mut client = Client::new(&rt, LARGE);
    let pages = pages_between(&rt, 0, 1023);
    let bytes = Vec::from_elem(rt.alloc(), [9; 4096], 1023).expect(&rt, "memory");
    let lent = lent_of(&rt, bytes.as_slice());
    for calls in [1034, 2060] {
        let image = rows_of(&rt, &disk);
        let request = Request::Commit(pages.as_slice(), lent.as_slice());
        equal(&rt, client.ask(image.as_slice(), request), Ok(calls));
        let is_done = carry_out(&mut disk, &client.plan, lent.as_slice(), 0, calls);
        expect(&rt, is_done, "a plan that can't be carried out");
    }
}
