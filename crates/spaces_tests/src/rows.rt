//! Each row of steps comes to what is wanted.
use crate::bench::follow;
use crate::{calls, evictions, lengths, sharing, wants};
use std::test::Fail;
use vm_types::{Sv39, Sv48};

#[test]
fn calls_return_what_is_wanted(rt: HostRuntime) -> Result<(), Fail> {
    follow::<Sv39>(&rt, &calls::ROWS)?;
    follow::<Sv39>(&rt, &sharing::ROWS)?;
    follow::<Sv39>(&rt, &wants::ROWS)?;
    follow::<Sv48>(&rt, &[calls::FOUR_LEVELS])
}

#[test]
fn pages_go_and_come_back_in_both_modes(rt: HostRuntime) -> Result<(), Fail> {
    let rows = &evictions::ROWS;
    follow::<Sv39>(&rt, rows)?;
    follow::<Sv48>(&rt, rows)
}

#[test]
fn files_get_other_lengths_in_both_modes(rt: HostRuntime) -> Result<(), Fail> {
    let rows = &lengths::ROWS;
    follow::<Sv39>(&rt, rows)?;
    follow::<Sv48>(&rt, rows)
}
