//! Walks over tables, fields of addresses, and bits of entries.
use crate::bench::equal;
use byteorder::{ByteOrder, LittleEndian};
use frames::{Frames, Role};
use std::alloc::Global;
use sv39_walk::WalkFault::{
    Denied, Invalid, Misaligned, NonCanonical, NotAccessed, NotDirty, Outside, Reserved, TooDeep,
};
use sv39_walk::{Pte, WalkFault, table_index, walk};
use vm_types::Access::{Fetch, Load, Store};
use vm_types::{Access, FrameNo, Levels, Phys, Sv39, Sv48};

// Walks from this root over tables in the frames from 1 on, with these numbers at their first entry and at byte 136. `None` is want of
// memory.
fn walk_over<M: Levels>(
    alloc: Global,
    tables: &[(u64, u64)],
    root: FrameNo,
    addr: u64,
    access: Access,
) -> Option<Result<Phys, WalkFault>> {
    let mut frames = Frames::new(alloc, 8).ok()?;
    for (first, at_136) in tables {
        let table = frames.take(Role::Table).ok()?;
        let bytes = frames.bytes_mut(table);
        LittleEndian::write_u64(&mut bytes[0..], *first);
        LittleEndian::write_u64(&mut bytes[136..], *at_136);
    }
    Some(walk::<M>(&frames, root, addr, access))
}

// Table 1 is a root of three levels and leads to table 2; table 4 is one of four levels and leads to table 1.
#[test]
fn walks_end_in_places_and_reasons(rt: HostRuntime) {
    for (second, last, addr, access, want) in [
        (0xc01, 0x15d7, 0x11387, Load, Ok(Phys(21383))),
        (0xc01, 0x15d7, 0x11387, Fetch, Err(Denied)),
        (0xc01, 0x15d5, 0x11387, Load, Err(Reserved)),
        (0xc01, 0x400000000015d7, 0x11387, Load, Err(Reserved)),
        (0xc01, 0x15c7, 0x11387, Load, Err(Denied)),
        (0xc01, 0x1597, 0x11387, Load, Err(NotAccessed)),
        (0xc01, 0x1557, 0x11387, Store, Err(NotDirty)),
        (0xc01, 0x1557, 0x11387, Load, Ok(Phys(21383))),
        (0xc01, 0x21d7, 0x11387, Load, Err(Outside)),
        (0xc01, 0x1401, 0x11387, Load, Err(TooDeep)),
        (0xc01, 0, 0x11387, Load, Err(Invalid)),
        (0x15d7, 0, 0x11387, Load, Err(Misaligned)),
        (0x1d7, 0, 0x5387, Load, Ok(Phys(21383))),
        (0x1d7, 0, 0x11387, Load, Err(Outside)),
    ] {
        let tables = [(0x801, 0), (second, 0), (0, last), (0x401, 0)];
        let in_sv39 = walk_over::<Sv39>(rt.alloc(), &tables, FrameNo(1), addr, access);
        let in_sv48 = walk_over::<Sv48>(rt.alloc(), &tables, FrameNo(4), addr, access);
        // The numbers are there to be told where a test fails.
        equal(
            &rt,
            (second, last, addr, in_sv39, in_sv48),
            (second, last, addr, Some(want), Some(want)),
        );
    }
    // Tables 1 to 3 have one entry each, the first. A leaf above the last level maps 512, 512^2 or 512^3 pages, and its frame is a multiple
    // of as many; an address is canonical where its highest bits are all alike (RISC-V Privileged Specification, "Virtual Address
    // Translation Process", and "Sv39", "Sv48").
    for (entries, addr, three_levels, four_levels) in [
        ([0x1d7, 0, 0], 0, Ok(Phys(0)), Ok(Phys(0))),
        ([0x15d7, 0, 0], 0, Err(Misaligned), Err(Misaligned)),
        ([0x801d7, 0, 0], 0, Err(Misaligned), Err(Misaligned)),
        ([0x100001d7, 0, 0], 0, Err(Outside), Err(Misaligned)),
        ([0x801, 0x1d7, 0], 0, Ok(Phys(0)), Ok(Phys(0))),
        ([0x801, 0x15d7, 0], 0, Err(Misaligned), Err(Misaligned)),
        ([0x801, 0x801d7, 0], 0, Err(Outside), Err(Misaligned)),
        ([0x801, 0x100001d7, 0], 0, Err(Outside), Err(Outside)),
        ([0x801, 0xc01, 0x1d7], 0, Ok(Phys(0)), Ok(Phys(0))),
        ([0x801, 0xc01, 0x21d7], 0, Err(Outside), Err(Misaligned)),
        ([0x801, 0xc01, 0x801d7], 0, Err(Outside), Err(Outside)),
        ([0; 3], 0x3f_ffff_ffff, Err(Invalid), Err(Invalid)),
        ([0; 3], 1 << 38, Err(NonCanonical), Err(Invalid)),
        ([0; 3], (1 << 47) - 1, Err(NonCanonical), Err(Invalid)),
        ([0; 3], 1 << 47, Err(NonCanonical), Err(NonCanonical)),
        ([0; 3], !0 << 48, Err(NonCanonical), Err(NonCanonical)),
        ([0; 3], !0 << 47, Err(NonCanonical), Err(Invalid)),
        ([0; 3], !0 << 39, Err(NonCanonical), Err(Invalid)),
        ([0; 3], !0 << 38, Err(Invalid), Err(Invalid)),
    ] {
        let [root, second, third] = entries;
        let tables = [(root, 0), (second, 0), (third, 0)];
        let in_sv39 = walk_over::<Sv39>(rt.alloc(), &tables, FrameNo(1), addr, Load);
        let in_sv48 = walk_over::<Sv48>(rt.alloc(), &tables, FrameNo(1), addr, Load);
        equal(
            &rt,
            (entries, addr, in_sv39, in_sv48),
            (entries, addr, Some(three_levels), Some(four_levels)),
        );
    }
}

#[test]
fn fields_of_addresses_and_bits_of_entries(rt: HostRuntime) {
    for (addr, places, offset) in [
        (0x11387, [0, 0, 0, 17], 903),
        (0x3f_ffff_ffff, [0, 255, 511, 511], 4095),
        (0x7fff_ffff_ffff, [255, 511, 511, 511], 4095),
    ] {
        let page = addr / 4096;
        let found = [
            table_index(page, 3),
            table_index(page, 2),
            table_index(page, 1),
            table_index(page, 0),
        ];
        equal(&rt, (found, addr % 4096), (places, offset));
    }
    for (number, bits, frame) in [
        (0xc01, [true, true, false, false], 3),
        (0x15d7, [true, false, true, false], 5),
        (0x1c02, [false, false, false, true], 7),
        (0x2404, [false; 4], 9),
        (0x2504, [false, false, true, false], 9),
    ] {
        let entry = Pte::from_u64(number);
        let found = [
            entry.is_valid(),
            entry.is_pointer(),
            entry.is_private(),
            entry.is_swapped(),
        ];
        equal(&rt, (number, found, entry.frame()), (number, bits, frame));
    }
    let leaf = Pte::from_u64(0x15d7);
    assert!(rt; leaf.is_writable());
    assert!(rt; leaf.is_accessed());
    assert!(rt; leaf.is_dirty());
    equal(
        &rt,
        [
            leaf.without_write(),
            leaf.without_accessed(),
            leaf.without_dirty(),
        ],
        [Pte(0x15d3), Pte(0x1597), Pte(0x1557)],
    );
}
