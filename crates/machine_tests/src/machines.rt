//! Each call of a machine over devices in memory.
use crate::bench::{Act, CONFIG, Call, Contents, End, equal, image, lived, with_swap};
use disk_model::SimDisk;
use machine::{BootFault, Config};
use std::process::Abort;
use vm_types::Mode;

/// Maps a page and stores a byte to it.
const STORES: Act = Act::Runs(
    [
        Call::Spawn,
        Call::MapFile,
        Call::Store(0x5a),
        Call::Protect,
        Call::Store(0x5a),
    ],
    [End::Spawned, End::Mapped, End::Denied, End::Done, End::Done],
);

const IS_SYNCED: Act = Act::Steps(Call::Sync, End::Done);

/// What is done once that byte was synced.
const STORES_ANOTHER: [Act; 6] = [
    STORES,
    IS_SYNCED,
    Act::Steps(Call::Store(0x6b), End::Done),
    Act::Steps(Call::Load, End::Byte(0x6b)),
    Act::Steps(Call::Unmap, End::Done),
    Act::Steps(Call::Load, End::Unmapped),
];

/// What is done where the msync fails.
const HALTS: [Act; 6] = [
    STORES,
    Act::Is(0, false),
    Act::Steps(Call::Sync, End::Failed),
    Act::Steps(Call::Load, End::Halted),
    Act::Steps(Call::Spawn, End::Halted),
    Act::Is(0, true),
];

/// The store's own access keeps its translation, so each of the loads finds it. A buffer that keeps nothing, and a count that is always
/// 0, would meet every contract: this refuses both, in each mode.
const TEN_LOADS_ARE_TEN_HITS: [Act; 7] = [
    Act::Steps(Call::Spawn, End::Spawned),
    Act::Steps(Call::MapOwn, End::Mapped),
    Act::Steps(Call::Store(1), End::Done),
    Act::Is(0, false),
    Act::Runs([Call::Load; 5], [End::Byte(1); 5]),
    Act::Runs([Call::Load; 5], [End::Byte(1); 5]),
    Act::Is(10, false),
];

const A_FAULT_IS_KEPT: [Act; 4] = [
    Act::Steps(Call::Spawn, End::Spawned),
    Act::Steps(Call::Load, End::Unmapped),
    Act::KeepsUnmapped,
    Act::CarriesOut(Call::Load, End::Unmapped),
];

/// The store as it is given back by a machine of the fewest frames on which that was done.
fn after(rt: &(impl AllocGlobal + Abort), store: SimDisk, acts: &[Act]) -> SimDisk {
    let (fault, store) = lived(rt, CONFIG, with_swap(rt, store, 128), acts);
    equal(rt, fault, None);
    store
}

/// What a new process finds where the byte was stored, in a machine that starts on that store.
fn find(rt: &(impl AllocGlobal + Abort), store: SimDisk, byte: u64) {
    let acts = [
        Act::Steps(Call::Spawn, End::Spawned),
        Act::Steps(Call::MapFile, End::Mapped),
        Act::Steps(Call::Load, End::Byte(byte)),
    ];
    after(rt, store, &acts);
}

/// What was synced stands in the next machine over the store, and what was only stored doesn't.
#[test]
fn commands_are_carried_out(rt: HostRuntime) {
    let at_boot = after(&rt, image(&rt, Contents::Store), &[]).syncs();
    // The map and the page's body, and the gate opened: the page's home is written with a later msync.
    let synced = after(&rt, image(&rt, Contents::Store), &[STORES, IS_SYNCED]);
    equal(
        &rt,
        (synced.writes(), synced.syncs()),
        (17, at_boot.saturating_add(2)),
    );
    find(
        &rt,
        after(&rt, image(&rt, Contents::Store), &STORES_ANOTHER),
        0x5a,
    );
}

/// The store has unsynced writes then; it is handed on all the same.
#[test]
fn a_failed_msync_halts(rt: HostRuntime) {
    let before = after(&rt, image(&rt, Contents::Store), &[STORES]);
    let mut store = image(&rt, Contents::Store);
    store.fail_at(before.calls().saturating_add(1));
    find(&rt, after(&rt, store, &HALTS), 0);
}

/// The first fault in the order of their numbers; the store is handed back with no write.
#[test]
fn boots_are_refused(rt: HostRuntime) {
    for (held, frames, slots, failing, fault, number) in [
        (Contents::Nothing, 7, 17, 1, BootFault::Frames, 1),
        (Contents::Nothing, 65537, 17, 1, BootFault::Frames, 1),
        (Contents::Nothing, 8, 17, 1, BootFault::Slots, 2),
        (Contents::Nothing, 8, 16, 1, BootFault::Device, 4),
        (Contents::Nothing, 8, 16, 0, BootFault::BadLayout, 5),
    ] {
        let config = Config {
            frames,
            slots,
            ..CONFIG
        };
        let mut store = image(&rt, held);
        store.fail_at(failing);
        let (told, store) = lived(&rt, config, with_swap(&rt, store, 135), &[]);
        let asked = store.calls() > 0;
        equal(
            &rt,
            (told, fault.number(), asked, store.writes()),
            (Some(fault), number, number > 2, 0),
        );
    }
}

#[test]
fn translations_and_faults_are_kept(rt: HostRuntime) {
    for mode in [Mode::Sv39, Mode::Sv48] {
        let config = Config {
            frames: 64,
            mode,
            ..CONFIG
        };
        let devices = with_swap(&rt, image(&rt, Contents::Store), 128);
        let (fault, _store) = lived(&rt, config, devices, &TEN_LOADS_ARE_TEN_HITS);
        equal(&rt, fault, None);
    }
    after(&rt, image(&rt, Contents::Store), &A_FAULT_IS_KEPT);
}
