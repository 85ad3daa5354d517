//! Stores of layouts 2 and 3 of three files whose numbers have gaps, each with a page in its journal, and how they are made anew in layout 4. The bytes are worked out
//! by hand.
use crate::bench::{
    Part, byte, commit, equal, expect, holds, image, left, opened, refusal, repeated, sector_with,
};
use disk_model::{SectorDisk, SimDisk};
use file_store::UpgradeFault;
use std::process::Abort;
use sync_journal::CommitFault;
use upgrades::upgrade;
use vm_types::{FileInfo, FilePage};

/// The first home of the new store, with maps of one block, as the format has it; then its sectors, with a directory of 4 pages and 3 pages of files.
const HOMES: u64 = 16 + 8080;

const SECTORS: u64 = HOMES + 8 * (4 + 3);

/// How many writes an upgrade makes: a block of a map, the gate, the directory, the pages, the kind, and the mark.
const WRITES: u64 = 8 + 1 + 32 + 24 + 1 + 1;

/// The words of the marks.
const TWO: &[u8; 8] = b"FAMSYNC2";

const FOUR: &[u8; 8] = b"FAMSYNC4";

/// The pages of file 0, of a byte more than a page, and of file 5, of three bytes, which may only be read. File 63 is empty.
const FIRST: FilePage = FilePage { file: 0, page: 0 };

const LAST: FilePage = FilePage { file: 0, page: 1 };

const LOCKED: FilePage = FilePage { file: 5, page: 0 };

/// The directory: file 0 in homes 1 and 2, file 5 in home 0.
const DIRECTORY: [(usize, u8); 7] = [
    (0, 1),
    (3, 0x80),
    (4, 1),
    (5, 0x10),
    (43, 0xc0),
    (44, 3),
    (507, 0x80),
];

/// Where an old store has its parts, as its format has it: its mark, its directory, its gate and the word of that, the map that counts then, of layout 3
/// the map that does not, and the first sector of its homes.
#[derive(Clone, Copy)]
struct Place {
    mark: &'static [u8; 8],
    directory: u64,
    gate: u64,
    gate_word: &'static [u8; 8],
    map: u64,
    stale_map: Option<u64>,
    homes: u64,
}

/// Layout 2, and layout 3 where the first of its journals counts and where the second one does.
const PLACES: [Place; 3] = [
    Place {
        mark: b"FAMSYNC2",
        directory: 1,
        gate: 2,
        gate_word: b"GATEOPEN",
        map: 3,
        stale_map: None,
        homes: 8195,
    },
    Place {
        mark: b"FAMSYNC3",
        directory: 9,
        gate: 16,
        gate_word: &[0; 8],
        map: 24,
        stale_map: Some(8216),
        homes: 16_408,
    },
    Place {
        mark: b"FAMSYNC3",
        directory: 9,
        gate: 16,
        gate_word: b"GATEOPEN",
        map: 8216,
        stale_map: Some(24),
        homes: 16_408,
    },
];

/// A device with an old store, whose homes have bytes behind their files' ends too, and with these parts.
fn old_store(rt: &(impl AllocGlobal + Abort), place: &Place, changes: &[Part]) -> SimDisk {
    let homes = place.homes.min(20_000);
    let mark = repeated(place.mark);
    let locked = sector_with(&[(0, b'c'), (1, b'c'), (2, b'c'), (3, 0x77)]);
    let last = sector_with(&[(0, b'b'), (1, 0x77)]);
    let store = [
        Part::Sector(0, mark),
        Part::Sector(1, mark),
        Part::Sector(place.directory, sector_with(&DIRECTORY)),
        Part::Sector(homes, locked),
        Part::Page(homes + 8, b'a'),
        Part::Sector(homes + 16, last),
    ];
    let mut parts = Vec::new(rt.alloc());
    parts.extend_from_slice(&store).expect(rt, "memory");
    parts.extend_from_slice(changes).expect(rt, "memory");
    image(rt, homes + 24, parts.as_slice())
}

/// A store with `x` for the first page in its journal, while the last one stands in its home.
fn with_journal(rt: &(impl AllocGlobal + Abort), place: &Place) -> SimDisk {
    if let Some(stale) = place.stale_map {
        // Of layout 3 the map that does not count names the last page's home.
        let journals = [
            Part::Sector(place.gate, repeated(place.gate_word)),
            Part::Sector(place.map, sector_with(&[(0, 1), (4, 1)])),
            Part::Page(place.map.saturating_add(8), b'x'),
            Part::Sector(stale, sector_with(&[(0, 1), (4, 2)])),
            Part::Page(stale.saturating_add(8), b'z'),
        ];
        return old_store(rt, place, &journals);
    }
    // What a stop leaves of one of layout 2 after a commit of the first page, at the first write of another one of the last page. A body, a map and the gate are 17
    // writes.
    let mut disk = old_store(rt, place, &[]);
    disk.stop_at(18);
    let mut store = opened(rt, disk);
    commit(rt, &mut store, &[FIRST], b"x").expect(rt, "the first commit");
    let done = commit(rt, &mut store, &[LAST], b"y");
    equal(rt, done, Err(CommitFault::Device));
    left(rt, &store.into_disk(), None)
}

/// Upgrades a store with a page in its journal: what it tells, and the new device. The old one is not written.
fn upgraded(
    rt: &(impl AllocGlobal + Abort),
    place: &Place,
    old_call: u64,
    new_write: u64,
) -> (Result<(), UpgradeFault>, SimDisk) {
    let mut old = with_journal(rt, place);
    old.fail_at(old_call);
    let mut new = SimDisk::new(rt.alloc(), SECTORS).expect(rt, "memory");
    new.stop_at(new_write);
    let told = upgrade(&mut old, &mut new, 1);
    equal(rt, old.writes(), 0);
    (told, new)
}

/// What the new store tells of files by their numbers.
const INFOS: [(u16, Option<FileInfo>); 5] = [
    (
        0,
        Some(FileInfo {
            length: 4097,
            read_only: false,
        }),
    ),
    (1, None),
    (
        5,
        Some(FileInfo {
            length: 3,
            read_only: true,
        }),
    ),
    (62, None),
    (
        63,
        Some(FileInfo {
            length: 0,
            read_only: false,
        }),
    ),
];

#[test]
fn a_new_store_is_the_old_one_byte_for_byte(rt: HostRuntime) {
    // Of files 0, 5 and 63 flags, extents, length, and the one extent.
    let first = [(0, 1), (4, 1), (8, 1), (9, 0x10), (16, 4), (20, 2)];
    let locked = [(256, 3), (260, 1), (264, 3), (272, 6), (276, 1)];
    let wanted = [
        (0, repeated(FOUR)),
        (8, [0; 512]),
        (HOMES, sector_with(&first)),
        (HOMES + 2, sector_with(&locked)),
        (HOMES + 31, sector_with(&[(256, 1)])),
        (HOMES + 32, [b'x'; 512]),
        (HOMES + 39, [b'x'; 512]),
        (HOMES + 40, sector_with(&[(0, b'b')])),
        (HOMES + 48, sector_with(&[(0, b'c'), (1, b'c'), (2, b'c')])),
    ];
    for place in PLACES {
        let (told, new) = upgraded(&rt, &place, 0, 0);
        equal(&rt, told, Ok(()));
        equal(&rt, (new.writes(), new.syncs()), (WRITES, 3));
        expect(&rt, holds(&new, &wanted), "the new device");
        let mut store = opened(&rt, left(&rt, &new, None));
        for (n, info) in INFOS {
            equal(&rt, store.file(n), info);
        }
        equal(&rt, byte(&rt, &mut store, FIRST, 4096), b'x');
        equal(&rt, byte(&rt, &mut store, LAST, 1), b'b');
        equal(&rt, byte(&rt, &mut store, LOCKED, 3), b'c');
    }
}

/// What an old store is like that cannot be upgraded, or the device of the new one: parts of the old one, how many sectors the new one has, the word of its
/// mark, and the fault.
type Refusal = ((Part, Part, Part), u64, &'static [u8; 8], UpgradeFault);

/// Each has what the faults behind its own ask for too: the first of them is to be told.
fn refusals(place: &Place) -> [Refusal; 11] {
    let (one, three) = (b"FAMSYNC1", b"FAMSYNC3");
    let head = |word| Part::Sector(0, word);
    // The map names home 0 twice.
    let gate = Part::Sector(place.gate, repeated(place.gate_word));
    let twice = Part::Sector(place.map, sector_with(&[(0, 2)]));
    let past_the_last = sector_with(&[(0, 3), (3, 0x80), (4, 1)]);
    let directory = Part::Sector(place.directory, past_the_last);
    let same = Part::Sector(place.homes, [0; 512]);
    let (few, fewer) = (SECTORS - 8, HOMES + 31);
    let (old_layout, new_small) = (UpgradeFault::OldLayout, UpgradeFault::NewSmall);
    [
        // No mark, that of layout 1 and of layout 4, and a file in a home that the device hasn't.
        ((gate, twice, head([0; 512])), few, one, old_layout),
        ((gate, twice, head(repeated(one))), few, one, old_layout),
        ((gate, twice, head(repeated(FOUR))), few, one, old_layout),
        ((gate, twice, directory), few, one, old_layout),
        ((gate, twice, same), few, one, UpgradeFault::OldJournal),
        // No room for the last page, and none for the directory.
        ((same, same, same), few, one, new_small),
        ((same, same, same), fewer, one, new_small),
        ((same, same, same), SECTORS, one, UpgradeFault::Formatted),
        ((same, same, same), SECTORS, TWO, UpgradeFault::Formatted),
        ((same, same, same), SECTORS, three, UpgradeFault::Formatted),
        ((same, same, same), SECTORS, FOUR, UpgradeFault::Formatted),
    ]
}

#[test]
fn refuses_what_cannot_be_upgraded(rt: HostRuntime) {
    for place in PLACES {
        for ((first, second, third), sectors, word, fault) in refusals(&place) {
            let mut old = old_store(&rt, &place, &[first, second, third]);
            let mut new = image(&rt, sectors, &[Part::Sector(0, repeated(word))]);
            let told = upgrade(&mut old, &mut new, 1);
            equal(&rt, told, Err(fault));
            equal(&rt, (old.writes(), new.writes()), (0, 0));
        }
    }
}

#[test]
fn a_stopped_upgrade_leaves_no_mark_or_the_whole_store(rt: HostRuntime) {
    let pool = repeated(FOUR);
    // The first and the last of block, gate, directory and pages, the kind and the mark.
    for write in [1, 9, 41, 65, 66, WRITES] {
        let (told, new) = upgraded(&rt, &PLACES[0], 0, write);
        equal(&rt, told, Err(UpgradeFault::NewDevice));
        let fills = [None, Some([0; 512]), Some(pool), Some(repeated(TWO))];
        for fill in fills {
            let image = left(&rt, &new, fill);
            let marked = write == WRITES && fill == Some(pool);
            equal(&rt, holds(&image, &[(0, pool)]), marked);
            equal(&rt, refusal(&rt, image).0.is_none(), marked);
        }
    }
}

#[test]
fn a_fault_names_the_device_that_failed(rt: HostRuntime) {
    for place in PLACES {
        // Kind, mark, directory, gate, map and three pages are read.
        let calls = 1 + 2 + 1 + 8 + 24;
        for call in [1, 2, 3, 4, 5, 6, 12, 13, calls] {
            let (told, _) = upgraded(&rt, &place, call, 0);
            equal(&rt, told, Err(UpgradeFault::OldDevice));
        }
        let (told, _) = upgraded(&rt, &place, calls + 1, 0);
        equal(&rt, told, Ok(()));
    }
}
