//! Machines of 8 to 12 frames under random commands.
ghost use Rattle.machine.specs.Machine.{IsSoundMachine};

use crate::draws::{Draws, FILE_PAGES};
use crate::standing::{compare, image};
use disk_model::{SectorDisk, SimDisk, WriteZeros};
use flat_model::Flat;
use machine::{Config, Machine};
use std::process::Abort;
use sync_journal::PAGE_LIMIT;
use vm_types::{Command, Mode, Reply, Stall};

/// Commands of a run.
const COMMANDS: usize = 400;

/// A machine over an image of a file, whose devices are such.
fn booted(rt: &(impl AllocGlobal + Abort), setting: Setting) -> Machine<SimDisk, SimDisk>
    ensures { IsSoundMachine ⟦<SimDisk as SectorDisk>⟧ ⟦<SimDisk as SectorDisk>⟧ result }
{
    let config = setting.config;
    let mut swap = SimDisk::new(rt.alloc(), 8 * u64::from(config.slots)).expect(rt, "memory");
    if let Some(call) = setting.failing {
        swap.fail_at(call);
    }
    match Machine::boot(rt.alloc(), config, image(rt, setting.resizes), swap) {
        Ok(machine) => machine,
        Err((fault, _)) => panic!(rt; "boot: {fault:?}"),
    }
}

/// Whether the command that leads from one model to the other may stall so: memory is short of the tables of the later one and three
/// frames more, or the slots of what the earlier one has that only memory or swap can hold, or the swap device may fail.
fn may_stall(setting: Setting, before: &Flat, after: &Flat, stall: Stall) -> bool {
    match stall {
        Stall::NoFrames => after.tables().saturating_add(3) > setting.config.frames as usize,
        Stall::NoSwap => before.held() > setting.config.slots as usize,
        Stall::SwapDevice => setting.failing.is_some(),
        Stall::StoreDevice => false,
    }
}

fn is_success(reply: Reply) -> bool {
    match reply {
        Reply::Process(_) | Reply::Address(_) | Reply::Done | Reply::Value { .. } => true,
        Reply::Faulted(_)
        | Reply::Refused(_)
        | Reply::Stalled(_)
        | Reply::Halted
        | Reply::Past(_) => false,
    }
}

/// What a run is made in.
#[derive(Clone, Copy, Debug)]
struct Setting {
    config: Config,
    /// The store can give files other lengths.
    resizes: bool,
    /// The call of the swap device that fails, from 1 on.
    failing: Option<u64>,
}

/// Whether a command may stall so on a machine that shows what the model does: it would succeed.
fn is_due(rt: &impl Abort, setting: Setting, flat: &Flat, command: Command, stall: Stall) -> bool {
    let mut after = flat.clone().expect(rt, "memory");
    let reply = after.step(command).expect(rt, "memory");
    is_success(reply) && may_stall(setting, flat, &after, stall)
}

/// Carries out a command, and has its reply be the model's, or a stall that may be, which is returned.
fn go_on<D: WriteZeros, E: SectorDisk>(
    rt: &impl Abort,
    machine: &mut Machine<D, E>,
    setting: Setting,
    flat: &mut Flat,
    command: Command,
) -> Option<Stall>
    requires sound { IsSoundMachine D.SectorDisk E.SectorDisk machine.old }
    ensures sound { IsSoundMachine D.SectorDisk E.SectorDisk machine.new }
{
    let reply = machine.step(command);
    match reply {
        Reply::Stalled(stall) if is_due(rt, setting, flat, command, stall) => return Some(stall),
        _ => {}
    }
    let wanted = flat.step(command).expect(rt, "memory");
    assert!(rt;
        reply == wanted,
        "{command:?} in {setting:?}: {reply:?} where {wanted:?} is wanted"
    );
    None
}

/// How many commands of a run stalled, and how many of them for the swap device.
#[derive(Clone, Copy, Debug)]
struct Told {
    stalls: u64,
    swap_device: u64,
}

/// A run of random commands, which leaves the file as the model says.
fn run(rt: &(impl AllocGlobal + Abort), setting: Setting, seed: u64) -> Told {
    let mode = setting.config.mode;
    let lengths = [4096 * FILE_PAGES];
    let flat = Flat::new(rt.alloc(), mode, PAGE_LIMIT, setting.resizes, &lengths);
    let mut flat = flat.expect(rt, "memory");
    let mut machine = booted(rt, setting);
    let told = carry_out(rt, &mut machine, setting, &mut flat, seed);
    compare(rt, machine.into_store(), &flat);
    told
}

/// Carries out random commands one after another.
fn carry_out<D: WriteZeros, E: SectorDisk>(
    rt: &impl Abort,
    machine: &mut Machine<D, E>,
    setting: Setting,
    flat: &mut Flat,
    seed: u64,
) -> Told
    requires sound { IsSoundMachine D.SectorDisk E.SectorDisk machine.old }
    ensures sound { IsSoundMachine D.SectorDisk E.SectorDisk machine.new }
{
    let mut draws = Draws::new(setting.config.mode, seed);
    let mut told = Told {
        stalls: 0,
        swap_device: 0,
    };
    for _ in 0..COMMANDS {
        let Some(command) = draws.command(flat.processes()) else {
            continue;
        };
        if let Some(stall) = go_on(rt, machine, setting, flat, command) {
            told.stalls = told.stalls.wrapping_add(1);
            if stall == Stall::SwapDevice {
                told.swap_device = told.swap_device.wrapping_add(1);
            }
        }
    }
    told
}

/// Memory for all tables, but not for all pages, and slots for them.
fn enough(mode: Mode) -> Config {
    let frames = match mode {
        Mode::Sv39 => 18,
        Mode::Sv48 => 27,
    };
    Config {
        frames,
        slots: 48,
        mode,
    }
}

/// Every reply is the flat model's, or a stall that memory or slots are short for: runs in 8 to 12 frames with few slots and with many.
fn few_frames(rt: &(impl AllocGlobal + Abort), mode: Mode) {
    for seed in 0..6 {
        for frames in 8..13 {
            for slots in [0, 3, 16] {
                let setting = Setting {
                    config: Config {
                        frames,
                        slots,
                        mode,
                    },
                    resizes: seed % 2 == 1,
                    failing: None,
                };
                run(rt, setting, 100 * seed + u64::from(frames));
            }
        }
    }
}

#[test]
fn few_frames_and_random_commands(rt: HostRuntime) {
    few_frames(&rt, Mode::Sv39);
}

#[test]
fn few_frames_in_four_levels(rt: HostRuntime) {
    few_frames(&rt, Mode::Sv48);
}

/// Where there is enough no command stalls.
#[test]
fn nothing_stalls_where_there_is_enough(rt: HostRuntime) {
    for mode in [Mode::Sv39, Mode::Sv48] {
        for seed in 0..10 {
            let setting = Setting {
                config: enough(mode),
                resizes: seed % 2 == 1,
                failing: None,
            };
            let told = run(&rt, setting, seed);
            assert!(rt; told.stalls == 0, "{mode:?}, seed {seed}: {told:?}");
        }
    }
}

/// A swap device that fails one call stalls one command at most, which has changed nothing.
fn failing_once(rt: &(impl AllocGlobal + Abort), mode: Mode) {
    let mut told = 0_u64;
    for call in 1..30 {
        let setting = Setting {
            config: enough(mode),
            resizes: call % 2 == 1,
            failing: Some(11 * call),
        };
        let stalls = run(rt, setting, call);
        let is_one = stalls.stalls == stalls.swap_device && stalls.swap_device <= 1;
        assert!(rt; is_one, "{mode:?}, call {call}: {stalls:?}");
        told = told.wrapping_add(stalls.swap_device);
    }
    assert!(rt; told > 0, "{mode:?}: no call of the swap device failed");
}

#[test]
fn a_swap_device_that_fails_once(rt: HostRuntime) {
    failing_once(&rt, Mode::Sv39);
    failing_once(&rt, Mode::Sv48);
}
