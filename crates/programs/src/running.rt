//! The program that runs traces.
ghost use Rattle.std.specs.Prelude.{◌≡◌, ◌≤◌, IfErr, IfOk};
ghost use Rattle.machine.specs.Boot.{HasRoom};
ghost use Rattle.machine.specs.Machine.{halted_of, IsSoundMachine};
ghost use Rattle.programs.specs.Disks.{IsJustOpened};
ghost use Rattle.programs.specs.Faults.{IsEndFault, IsOneUnopened, end_status};
ghost use Rattle.programs.specs.Running.{boot_told, config_of, BootsOnOpened, ComesTo, EndsRun, ExitsWith, IsUnstarted};
ghost use Rattle.runner.specs.Trace.{streams};

use crate::faults::{ProgramFault, report};
use crate::files::{disk_in, settled};
use crate::places::held_places;
use command_words::{RunWords, run_words};
use disk_model::{FileContents, FileDisk, SectorDisk, Unknown};
use host_files::{Opening, open_alone, open_lengthened};
use machine::{BootFault, Config, MAX_SLOTS, Machine};
use runner::{Devices, RunEnd, run_on};
use std::alloc::Global;
use std::fs::{File, Files};
use std::io::{Read, Write};
use vm_types::PAGE_BYTES;

/// The status of a trace that was read to its end by a machine that halted on the way.
const HALTED: u8 = 3;

/// `pagerun IMAGE SWAP [FRAMES SLOTS [sv39|sv48]]`: makes SWAP where it is missing, lengthens it to
/// `4096 * SLOTS` bytes where SLOTS is at most 65,536, boots a machine on the image and runs the trace of `reader`, whose
/// replies go to `writer`. FRAMES is 64, SLOTS 16 and the mode of address spaces Sv39 where they are not given. Both files are
/// opened before the sizes are looked at, and these before the image is, which has to be synced for that.
///
/// Returns the exit status: 0 done; 1 a fault; 2 other words; 3 the end of the trace with a halted machine. For 1 and 2
/// one line on `errors` says why.
pub fn pagerun<R: Files<File = File> + AllocGlobal, I: Read, O: Write, X: Write>(
    rt: &R,
    words: &[String],
    reader: &mut I,
    writer: &mut O,
    errors: &mut X,
) -> u8
    ensures statuses { result ≤ 3 }
    ensures ends { ExitsWith ⟦<FileDisk<Unknown> as SectorDisk>⟧ ⟦<FileDisk<Unknown> as SectorDisk>⟧ (λ d. d.settled)
        (streams (I.remaining reader.old) (O.contents writer.old)) (streams (I.remaining reader.new) (O.contents writer.new)) result }
{
    let outcome = run_image::<Unknown, Unknown, R, I, O>(rt, words, reader, writer);
    report("pagerun", outcome, errors)
}

fn run_image<
    'a,
    C: FileContents,
    K: FileContents,
    R: Files<File = File> + AllocGlobal,
    I: Read,
    O: Write,
>(rt: &R, words: &'a [String], reader: &mut I, writer: &mut O) -> Result<u8, ProgramFault<'a>>
    ensures statuses { IfOk result (λ status. status ≤ 3) }
    ensures ends { EndsRun ⟦<FileDisk<C> as SectorDisk>⟧ ⟦<FileDisk<K> as SectorDisk>⟧ (λ d. d.settled)
        (streams (I.remaining reader.old) (O.contents writer.old)) (streams (I.remaining reader.new) (O.contents writer.new)) result }
{
    let words = run_words(rt.alloc(), words)?;
    let _places = held_places(rt)?;
    let devices = devices_of::<C, K, R>(rt, &words)?;
    run_over(rt.alloc(), config_of(&words), devices, reader, writer)
}

/// Runs the trace of `reader` over these devices, on a machine of that size, whose replies go to `writer`.
fn run_over<'a, C: FileContents, K: FileContents, I: Read, O: Write>(
    alloc: Global,
    config: Config,
    devices: Devices<FileDisk<C>, FileDisk<K>>,
    reader: &mut I,
    writer: &mut O,
) -> Result<u8, ProgramFault<'a>>
    ensures { ComesTo ⟦<FileDisk<C> as SectorDisk>⟧ ⟦<FileDisk<K> as SectorDisk>⟧ (λ d. d.settled) config devices.store devices.swap
        (streams (I.remaining reader.old) (O.contents writer.old)) (streams (I.remaining reader.new) (O.contents writer.new)) result }
{
    match run_on(alloc, config, devices, reader, writer) {
        Ok((end, machine)) => {
            let outcome = status_of(end, &machine);
            let _store = machine.into_store();
            outcome
        }
        Err((fault, store)) => Err(ProgramFault::Boot(told(fault, store.is_settled()))),
    }
}

/// The size and the mode of the machine that these words ask for.
fn config_of(words: &RunWords<'_>) -> Config
    ensures { result ≡ config_of words.now }
{
    Config {
        frames: words.frames,
        slots: words.slots,
        mode: words.mode,
    }
}

/// The devices in the files of these words, of which IMAGE is opened first, and SWAP is made where it is missing and lengthened.
///
/// # Errors
///
/// `CannotOpen` of the file that can't be had, or of a SWAP that can't be synced.
fn devices_of<'a, C: FileContents, K: FileContents, R: Files<File = File> + AllocGlobal>(
    rt: &R,
    words: &RunWords<'a>,
) -> Result<Devices<FileDisk<C>, FileDisk<K>>, ProgramFault<'a>>
    ensures store { IfOk result (λ devices. IsJustOpened ⟦<FileDisk<C> as SectorDisk>⟧ devices.store) }
    ensures swap { IfOk result (λ devices. IsJustOpened ⟦<FileDisk<K> as SectorDisk>⟧ devices.swap) }
    ensures told { IfErr result (IsOneUnopened words.now.image.now words.now.swap.now) }
{
    let store = disk_in::<C>(words.image, open_alone(rt, words.image, Opening::Write))?;
    let length = swap_bytes(words.slots);
    let swap = disk_in::<K>(words.swap, open_lengthened(rt, words.swap, length))?;
    let swap = settled(swap, ProgramFault::CannotOpen(words.swap))?;
    Ok(Devices { store, swap })
}

/// Opens the files of these words, IMAGE first, makes SWAP where it is missing and lengthens it, and boots a machine on them. The standard streams
/// have their numbers by then (`held_places`).
///
/// # Errors
///
/// `CannotOpen` of the file that can't be had, or of a SWAP that can't be synced, and `Boot` where no machine starts.
pub fn boot_image<'a, C: FileContents, K: FileContents, R: Files<File = File> + AllocGlobal>(
    rt: &R,
    words: &RunWords<'a>,
) -> Result<Machine<FileDisk<C>, FileDisk<K>>, ProgramFault<'a>>
    ensures sound { IfOk result (λ m. IsSoundMachine ⟦<FileDisk<C> as SectorDisk>⟧ ⟦<FileDisk<K> as SectorDisk>⟧ m) }
    ensures room { IfOk result (λ m. HasRoom m (record { frames = words.now.frames; slots = words.now.slots; mode = words.now.mode })) }
    ensures boots { IfOk result (BootsOnOpened ⟦<FileDisk<C> as SectorDisk>⟧ ⟦<FileDisk<K> as SectorDisk>⟧ (λ d. d.settled)) }
    ensures told { IfErr result (IsUnstarted ⟦<FileDisk<C> as SectorDisk>⟧ ⟦<FileDisk<K> as SectorDisk>⟧ (λ d. d.settled) words.now) }
{
    let devices = devices_of::<C, K, R>(rt, words)?;
    let Devices { store, swap } = devices;
    match Machine::boot(rt.alloc(), config_of(words), store, swap) {
        Ok(machine) => Ok(machine),
        Err((fault, store)) => Err(ProgramFault::Boot(told(fault, store.is_settled()))),
    }
}

/// The fault that is told where no machine started. An image that could not be synced is the fault of its device, whatever its
/// length is.
fn told(fault: BootFault, is_settled: bool) -> BootFault
    ensures { result ≡ boot_told is_settled fault }
{
    match fault {
        BootFault::BadLayout if !is_settled => BootFault::Device,
        _ => fault,
    }
}

/// The exit status at the end of a run: of a trace that ran to its end 3 where the machine has halted, else 0.
///
/// # Errors
///
/// `ReadFailed` and `WriteFailed` where the run ended so.
pub fn status_of<'a, D: SectorDisk, E: SectorDisk>(
    end: RunEnd,
    machine: &Machine<D, E>,
) -> Result<u8, ProgramFault<'a>>
    ensures status { IfOk result (λ status. (end ≡ RunEnd.Done) × (status ≡ end_status (halted_of machine.now))) }
    ensures told { IfErr result (IsEndFault end) }
{
    match end {
        RunEnd::Done if machine.is_halted() => Ok(HALTED),
        RunEnd::Done => Ok(0),
        RunEnd::ReadFault => Err(ProgramFault::ReadFailed),
        RunEnd::WriteFault => Err(ProgramFault::WriteFailed),
    }
}

/// The bytes that a swap device is to have at least.
fn swap_bytes(slots: u32) -> u64 {
    if slots <= MAX_SLOTS {
        PAGE_BYTES as u64 * u64::from(slots)
    } else {
        0
    }
}
