//! A machine is looked into once a byte was stored to one of two pages.
ghost use Rattle.machine.specs.Machine.{IsSoundMachine};

use crate::bench::{Act, CONFIG, Call, Contents, End, carry_out, equal, first, image, with_swap};
use disk_model::{SectorDisk, WriteZeros};
use inspection::{FrameView, Holding, PageView, Place, SlotHolding, SlotView, Step, TablePlace};
use machine::{Config, Machine};
use runner::Devices;
use std::process::Abort;
use vm_types::{FilePage, FrameNo, Mode, PageKey, Pid, SlotNo};

/// Stores a byte to the first of two pages that a new process has from 0x10000 on.
const STORES: [Act; 3] = [
    Act::Steps(Call::Spawn, End::Spawned),
    Act::Steps(Call::MapTwo, End::Mapped),
    Act::Steps(Call::Store(0x5a), End::Done),
];

/// The step of the lowest table on the way to a page.
fn leaf_of<D: SectorDisk, E: SectorDisk>(
    machine: &Machine<D, E>,
    pid: Pid,
    page: u64,
) -> Option<Step>
    requires sound { IsSoundMachine D.SectorDisk E.SectorDisk machine.now }
{
    let mut step = inspection::root_step(machine, pid, page)?;
    while step.level > 0 {
        step = inspection::next_step(machine, page, step)?;
    }
    Some(step)
}

/// Looks at the tables on the way to the page that was stored to, and at what has its entry.
fn look_at_tables<D: SectorDisk, E: SectorDisk>(
    rt: &impl Abort,
    machine: &Machine<D, E>,
    pid: Pid,
    leaf: Step,
)
    requires sound { IsSoundMachine D.SectorDisk E.SectorDisk machine.now }
{
    let root = inspection::root_step(machine, pid, 0);
    let places = [
        root.and_then(|step| inspection::place_of_table(machine, step.table)),
        inspection::place_of_table(machine, leaf.table),
        inspection::place_of_table(machine, FrameNo(0)),
    ];
    let level = match root {
        Some(step) => step.level,
        None => 0,
    };
    let first = 0;
    equal(
        rt,
        places,
        [
            Some(TablePlace { pid, level, first }),
            Some(TablePlace {
                pid,
                level: 0,
                first,
            }),
            None,
        ],
    );
    let found = inspection::next_entry(machine, pid, 0);
    equal(
        rt,
        found.map(|e| (e.page.get(), e.entry)),
        Some((16, leaf.entry)),
    );
    equal(rt, inspection::next_entry(machine, pid, 17), None);
    let run = inspection::next_run(machine, pid, 0);
    equal(rt, run.map(|run| (run.first, run.end)), Some((16, 18)));
    let line = inspection::line(machine, 16);
    equal(
        rt,
        line.map(|line| (line.page.get(), line.leaf)),
        Some((16, leaf.entry)),
    );
    equal(rt, inspection::line(machine, 64), None);
}

/// Looks at the frame of the page that was stored to, at a slot, at a page of the file and at the clock's hand.
fn look_at_frames<D: SectorDisk, E: SectorDisk>(
    rt: &impl Abort,
    machine: &Machine<D, E>,
    own: FrameNo,
)
    requires sound { IsSoundMachine D.SectorDisk E.SectorDisk machine.now }
{
    let copy = FrameView {
        holding: Holding::Own(16),
        shares: 1,
    };
    equal(
        rt,
        [
            inspection::frame_view(machine, own),
            inspection::frame_view(machine, FrameNo(16)),
        ],
        [Some(copy), None],
    );
    let mapper = inspection::next_mapper(machine, own, 1, 0);
    equal(
        rt,
        mapper.map(|m| (m.pid.get(), m.page.get())),
        Some((1, 16)),
    );
    equal(rt, inspection::next_mapper(machine, own, 1, 17), None);
    let free = SlotView {
        holding: SlotHolding::Nothing,
        shares: 0,
    };
    equal(
        rt,
        [
            inspection::slot_view(machine, SlotNo(15)),
            inspection::slot_view(machine, SlotNo(16)),
        ],
        [Some(free), None],
    );
    let home = PageView {
        place: Place::Home,
        is_touched: false,
    };
    equal(
        rt,
        inspection::page_view(machine, PageKey::File(FilePage { file: 0, page: 0 })),
        Some(home),
    );
    equal(rt, inspection::hand(machine), Some(FrameNo(0)));
}

/// Stores a byte on a machine, and looks into it.
fn look_after_a_store<D: WriteZeros + Drop, E: SectorDisk + Drop>(
    rt: &(impl AllocGlobal + Abort),
    config: Config,
    devices: Devices<D, E>,
) {
    let Devices { store, swap } = devices;
    match Machine::boot(rt.alloc(), config, store, swap) {
        Ok(mut machine) => {
            carry_out(rt, &mut machine, &STORES);
            let leaf = leaf_of(&machine, first(rt), 16).expect(rt, "a leaf");
            look_at_tables(rt, &machine, first(rt), leaf);
            let own = u32::try_from(leaf.entry.frame()).ok().expect(rt, "a frame");
            look_at_frames(rt, &machine, FrameNo(own));
            let _store = machine.into_store();
        }
        Err((fault, _store)) => equal(rt, Some(fault), None),
    }
}

/// Each look finds the page that was stored to, in both modes.
#[test]
fn a_stored_page_is_found(rt: HostRuntime) {
    for mode in [Mode::Sv39, Mode::Sv48] {
        let config = Config {
            frames: 16,
            mode,
            ..CONFIG
        };
        look_after_a_store(
            &rt,
            config,
            with_swap(&rt, image(&rt, Contents::Store), 128),
        );
    }
}
