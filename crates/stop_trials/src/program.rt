//! The program that tries stops.
ghost use Rattle.std.specs.Prelude.{◌≡◌, ◌≤◌, IfOk, map};
ghost use Rattle.stores.specs.NewStores.{IsSizedNew};
ghost use Rattle.stop_trials.specs.Ends.{EndsTrials, ExitsAfterTrials, HoldsNewStore};
ghost use Rattle.stop_trials.specs.Lines.{AreCommandsOf, IsReadWhole, split_lines};

use crate::runs::Setting;
use crate::stopping::StoppingDisk;
use command_words::{StopWords, stop_words};
use disk_model::{SECTOR_BYTES, SectorDisk, SimDisk};
use machine::Config;
use programs::{ProgramFault, held_places, open_sources, report};
use std::alloc::{AllocError, Global};
use std::fs::{File, Files};
use std::io::{ErrorKind, Read, Write};
use stores::{format, image_bytes};
use trace_lang::parse_line;
use vm_types::{Command, Mode};

/// `pagestops [--every K] [--drop K] [--layout 2|4] [--frames N] [--slots N] SPEC...`: formats a store of layout 2, or of
/// layout 4 where that is asked for, with a pool of 4,032 pages, in memory for the specs, as `pagefmt` does an image,
/// and runs the trace of `reader` on it. The run is stopped in each event of the store's device, a write of a sector or a
/// sync, or in each Kth; what is left is recovered with five fillings of the sectors that were not synced (`Filling`), and
/// a line on `writer` says after how many msyncs the files stand. The last line counts the stops, the recoveries and the bad
/// stops: those that leave anything but the files as after some of the msyncs, each acknowledged one among them. The machine has
/// N frames and N slots, 64 and 16 where they are not given.
///
/// `--drop K` is a control: of the runs that are stopped the device drops the sync that is event K, which succeeds and syncs
/// nothing, so that later stops have to be found bad.
///
/// Returns the exit status: 0 done, and no stop was bad; 1 a bad stop, or a fault; 2 other words, or a K of 0. For a fault and for 2
/// one line on `errors` says why.
pub fn pagestops<R: Files<File = File> + AllocGlobal, I: Read, O: Write, X: Write>(
    rt: &R,
    words: &[String],
    reader: &mut I,
    writer: &mut O,
    errors: &mut X,
) -> u8
    ensures statuses { result ≤ 2 }
    ensures ends { ExitsAfterTrials ⟦<StoppingDisk as SectorDisk>⟧ ⟦<SimDisk as SectorDisk>⟧ (I.remaining reader.old) (I.remaining reader.new) result }
{
    report("pagestops", tried(rt, words, reader, writer), errors)
}

/// Does what `pagestops` says.
fn tried<'a, R: Files<File = File> + AllocGlobal, I: Read, O: Write>(
    rt: &R,
    words: &'a [String],
    reader: &mut I,
    writer: &mut O,
) -> Result<u8, ProgramFault<'a>>
    ensures statuses { IfOk result (λ status. status ≤ 1) }
    ensures ends { IfOk result (EndsTrials ⟦<StoppingDisk as SectorDisk>⟧ ⟦<SimDisk as SectorDisk>⟧ (I.remaining reader.old) (I.remaining reader.new)) }
{
    let words = stop_words(rt.alloc(), words)?;
    let _places = held_places(rt)?;
    let image = new_image(rt, &words)?;
    let trace = whole_trace(rt.alloc(), reader)?;
    let lines = lines_of(rt.alloc(), trace.as_slice())?;
    let commands = commands_of(rt.alloc(), lines.as_slice())?;
    let config = Config {
        frames: words.frames,
        slots: words.slots,
        mode: Mode::Sv39,
    };
    let setting = Setting {
        alloc: rt.alloc(),
        image: &image,
        store: words.store,
        config,
        commands: commands.as_slice(),
        drops: words.drop.map(u64::from),
    };
    match setting.try_stops(u64::from(words.every), writer) {
        Ok(summary) => Ok(summary.status()),
        Err(fault) => Err(fault.told()),
    }
}

/// A device with a new store of the files that the words name.
fn new_image<'a, R: Files<File = File> + AllocGlobal>(
    rt: &R,
    words: &StopWords<'a>,
) -> Result<SimDisk, ProgramFault<'a>>
    requires { IsSizedNew words.now.store }
    ensures { IfOk result (HoldsNewStore words.now.store (map (λ spec. spec.now) words.now.specs.items)) }
{
    let mut sources = open_sources(rt.alloc(), rt, words.specs.as_slice())?;
    let sectors = image_bytes(words.store, sources.as_slice()) / SECTOR_BYTES as u64;
    let mut image = SimDisk::new(rt.alloc(), sectors)?;
    match format(&mut image, words.store, sources.as_mut_slice()) {
        Ok(()) => Ok(image),
        Err(fault) => Err(ProgramFault::Format(fault)),
    }
}

/// The lines of a trace, without the newlines that end them.
fn lines_of(alloc: Global, trace: &[u8]) -> Result<Vec<&[u8]>, AllocError>
    ensures { IfOk result (λ lines. map (λ line. line.now) lines.items ≡ split_lines trace.now) }
{
    trace.split(|byte| *byte == b'\n').collect(alloc)
}

/// The commands that these lines stand for. A line that stands for none is passed over, since it changes nothing.
fn commands_of(alloc: Global, lines: &[&[u8]]) -> Result<Vec<Command>, AllocError>
    ensures { IfOk result (λ commands. AreCommandsOf (map (λ line. line.now) lines.now) commands.items) }
{
    let mut commands = Vec::new(alloc);
    for line in lines {
        if let Ok(command) = parse_line(line) {
            commands.push(command)?;
        }
    }
    Ok(commands)
}

/// All bytes of the reader.
fn whole_trace<'a, I: Read>(alloc: Global, reader: &mut I) -> Result<Vec<u8>, ProgramFault<'a>>
    ensures { IfOk result (λ trace. IsReadWhole (I.remaining reader.old) (I.remaining reader.new) trace.items) }
{
    let mut trace = Vec::new(alloc);
    match reader.read_to_end(&mut trace) {
        Ok(_) => Ok(trace),
        Err(error) if error.kind() == ErrorKind::OutOfMemory => Err(ProgramFault::OutOfMemory),
        Err(_) => Err(ProgramFault::ReadFailed),
    }
}
