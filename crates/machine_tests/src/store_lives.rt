//! Two lives of a store on a device in memory, the second of which is stopped in the gate of its msync.
use crate::bench::{Call, Contents, End, command, equal, image, left, reply, with_swap};
use disk_model::{SectorDisk, SimDisk, WriteZeros};
use lives::{
    boot_after_lives, flat_run, formatted_lives, hardware_life, live, lives_boot, lives_in_a_row,
    new_store, one_content, one_more_life, trace_life, two_lives, upgraded_lives, upgraded_store,
};
use machine::{
    Config, hardware_access, hardware_chance, hardware_fence, hardware_goes_on, hardware_run,
    hardware_store, hardware_tells,
};
use runner::Devices;
use std::process::Abort;
use vm_types::{Mode, Reply};

/// A process stores this byte and makes it durable.
fn storing(byte: u64) -> [Call; 4] {
    [
        Call::Spawn,
        Call::MapFileFixed,
        Call::Store(byte),
        Call::Sync,
    ]
}

const LOADING: [Call; 4] = [Call::Spawn, Call::MapFileFixed, Call::Load, Call::Load];

/// A life on that store: its last reply, unless it did not start, and the store as it is handed on.
fn lived<D: WriteZeros, E: SectorDisk + Drop>(
    rt: &(impl AllocGlobal + Abort),
    mode: Mode,
    devices: Devices<D, E>,
    calls: [Call; 4],
) -> (Option<Reply>, D) {
    let config = Config {
        frames: 8,
        slots: 0,
        mode,
    };
    let commands = calls.map(|call| command(rt, call));
    let mut replies = [Reply::Halted; 4];
    match live(rt.alloc(), config, devices, &commands, &mut replies) {
        Ok(machine) => (Some(replies[3]), machine.into_store()),
        Err((_, store)) => (None, store),
    }
}

/// The store that such a life hands on, the last reply of which has to be that.
fn after(
    rt: &(impl AllocGlobal + Abort),
    mode: Mode,
    store: SimDisk,
    calls: [Call; 4],
    end: End,
) -> SimDisk {
    let (last, store) = lived(rt, mode, with_swap(rt, store, 0), calls);
    equal(rt, last, Some(reply(rt, end)));
    store
}

/// Either the msync of the first life counts, or both do: the gate has the bytes of before, those of neither, or those of after.
#[test]
fn the_second_life_stops_in_its_gate(rt: HostRuntime) {
    // A life, of three levels of page tables, makes a byte durable.
    let store = after(
        &rt,
        Mode::Sv39,
        image(&rt, Contents::Store),
        storing(0x11),
        End::Done,
    );
    after(
        &rt,
        Mode::Sv39,
        left(&rt, &store, &[]),
        LOADING,
        End::Byte(0x11),
    );
    // A second one, of four levels, makes another byte durable. The last sector that its msync writes is the gate.
    let whole = after(
        &rt,
        Mode::Sv48,
        left(&rt, &store, &[]),
        storing(0x22),
        End::Done,
    );
    let mut second = left(&rt, &store, &[]);
    second.stop_at(whole.writes());
    let stopped = after(&rt, Mode::Sv48, second, storing(0x22), End::Failed);
    after(
        &rt,
        Mode::Sv39,
        left(&rt, &stopped, &[]),
        LOADING,
        End::Byte(0x11),
    );
    let mut open = [0; 512];
    for i in 0..512_usize {
        open[i] = b"GATEOPEN"[i % 8];
    }
    for (gate, byte) in [([0x5a; 512], 0x11), (open, 0x22)] {
        let store = left(&rt, &stopped, &[(2, gate)]);
        after(&rt, Mode::Sv39, store, LOADING, End::Byte(byte));
    }
}

/// The laws of that store.
#[test]
fn laws_hold(rt: HostRuntime) {
    let store = image(&rt, Contents::Store);
    let reader: &[u8] = &[];
    new_store(&reader);
    lives_in_a_row(&store, &store);
    one_more_life(&store, &store);
    lives_boot(&store, &store);
    boot_after_lives(&store, &store);
    formatted_lives(&reader, &store, &store);
    upgraded_store();
    upgraded_lives(&store, &store);
    trace_life(&store, &store);
    flat_run(&store, &store);
    hardware_access(&store, &store);
    hardware_tells(&store, &store);
    hardware_goes_on(&store, &store);
    hardware_chance(&store, &store);
    hardware_fence(&store, &store);
    hardware_store(&store, &store);
    hardware_run(&store, &store);
    hardware_life(&store, &store);
    one_content();
    two_lives();
}
