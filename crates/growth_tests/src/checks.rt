//! What a commit may change.
use crate::bench::equal;
use crate::files::{file, files, with_third};
use directories::{Entry, check};
use growth::{Change, ChangeFault, are_changes, check_changes};
use std::alloc::Global;

/// What is said of these entries of files 0 and 1; `None` where the directory is bad, or they are no changes of it.
fn said(alloc: Global, zero: Option<Entry>, one: Option<Entry>) -> Option<Result<(), ChangeFault>> {
    let changes = [
        Change {
            file: 0,
            entry: zero,
        },
        Change {
            file: 1,
            entry: one,
        },
    ];
    said_of(alloc, &changes)
}

/// The same of any changes.
fn said_of(alloc: Global, changes: &[Change]) -> Option<Result<(), ChangeFault>> {
    let before = files();
    match check(alloc, &before, 4, 100) {
        Ok(()) if are_changes(&before, changes) => Some(check_changes(&before, changes, 4, 100)),
        _ => None,
    }
}

// File 0 stays, or gets a third extent; it goes, while file 1 comes; it has fewer pages than homes.
#[test]
fn good_changes_are_taken(rt: HostRuntime) {
    let zero = files()[0];
    for (zero, one) in [
        (zero, None),
        (with_third(15, (20, 10)), file(2, (50, 1), (60, 1))),
        (None, file(2, (10, 1), (91, 9))),
        (file(1, (4, 4), (90, 1)), None),
        (file(4, (4, 4), (0, 0)), None),
    ] {
        equal(&rt, said(rt.alloc(), zero, one), Some(Ok(())));
    }
}

#[test]
fn bad_changes_are_told(rt: HostRuntime) {
    let zero = files()[0];
    for (zero, one, fault) in [
        (zero, file(0, (3, 1), (50, 1)), ChangeFault::Outside(1)),
        (zero, file(0, (50, 1), (99, 2)), ChangeFault::Outside(1)),
        (file(6, (4, 4), (90, 1)), None, ChangeFault::Short(0)),
        // Two new extents of one file, and of two.
        (zero, file(0, (50, 2), (51, 1)), ChangeFault::Shared(1, 1)),
        (
            with_third(5, (50, 2)),
            file(0, (60, 1), (51, 1)),
            ChangeFault::Shared(0, 1),
        ),
        // Homes of a file that stays, and of one that goes; a second extent that was the file's behind another first one, and half of a first one.
        (zero, file(0, (9, 1), (50, 1)), ChangeFault::Taken(1, 2)),
        (None, file(0, (50, 1), (7, 2)), ChangeFault::Taken(1, 0)),
        (file(0, (50, 4), (90, 1)), None, ChangeFault::Taken(0, 0)),
        (file(0, (4, 2), (90, 1)), None, ChangeFault::Taken(0, 0)),
    ] {
        equal(&rt, said(rt.alloc(), zero, one), Some(Err(fault)));
    }
}

// Files that do not rise, and one past the directory.
#[test]
fn changes_have_a_form(rt: HostRuntime) {
    for (first, second, said) in [(0, 2, true), (2, 0, false), (1, 1, false), (0, 3, false)] {
        let changes = [
            Change {
                file: first,
                entry: None,
            },
            Change {
                file: second,
                entry: None,
            },
        ];
        equal(&rt, are_changes(&files(), &changes), said);
    }
}
