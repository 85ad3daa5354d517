//! The program that runs traces and shows what lies inside.
ghost use Rattle.std.specs.Prelude.{◌≤◌, IfOk};
ghost use Rattle.machine.specs.Machine.{IsSoundMachine};

use crate::viewer::Viewer;
use command_words::run_words;
use disk_model::{FileContents, SectorDisk, Unknown, WriteZeros};
use machine::Machine;
use programs::{ProgramFault, boot_image, held_places, report, status_of};
use std::alloc::Global;
use std::fs::{File, Files};
use std::io::{BufWriter, Read, Write};

/// The bytes that are kept until they are written: 32 KiB.
const WRITE_BYTES: usize = 32768;

/// `pagelook IMAGE SWAP [FRAMES SLOTS [sv39|sv48]]`: boots a machine on the image as `pagerun` does, and runs the trace of `reader`, in which two
/// more kinds of lines stand: those that begin with `#` are written as they come, and those that begin with `?` ask what the machine holds and
/// what was counted. What `writer` gets is the replies of `pagerun` to the other lines, with lines between them that begin with `#`, `?` or a space.
///
/// Returns the exit status, as `pagerun` does: 0 done; 1 a fault; 2 other words; 3 the end of the trace with a halted machine. For 1 and 2
/// one line on `errors` says why.
pub fn pagelook<R: Files<File = File> + AllocGlobal, I: Read, O: Write, X: Write>(
    rt: &R,
    words: &[String],
    reader: &mut I,
    writer: &mut O,
    errors: &mut X,
) -> u8
    ensures statuses { result ≤ 3 }
{
    let outcome = look_image::<Unknown, Unknown, R, I, O>(rt, words, reader, writer);
    report("pagelook", outcome, errors)
}

fn look_image<
    'a,
    C: FileContents,
    K: FileContents,
    R: Files<File = File> + AllocGlobal,
    I: Read,
    O: Write,
>(rt: &R, words: &'a [String], reader: &mut I, writer: &mut O) -> Result<u8, ProgramFault<'a>>
    ensures { IfOk result (λ status. status ≤ 3) }
{
    let words = run_words(rt.alloc(), words)?;
    let _places = held_places(rt)?;
    let mut machine = boot_image::<C, K, R>(rt, &words)?;
    let outcome = look_over(rt.alloc(), &mut machine, reader, writer);
    let _store = machine.into_store();
    outcome
}

/// Runs the trace on a machine that has just started.
fn look_over<'a, D: WriteZeros, E: SectorDisk, I: Read, O: Write>(
    alloc: Global,
    machine: &mut Machine<D, E>,
    reader: &mut I,
    writer: &mut O,
) -> Result<u8, ProgramFault<'a>>
    requires { IsSoundMachine D.SectorDisk E.SectorDisk machine.old }
    ensures { IfOk result (λ status. status ≤ 3) }
{
    let mut viewer = Viewer::new(alloc, machine)?;
    let mut out = match BufWriter::with_capacity(alloc, WRITE_BYTES, writer) {
        Ok(out) => out,
        Err(_) => return Err(ProgramFault::OutOfMemory),
    };
    let end = viewer.take_all(reader, machine, &mut out);
    status_of(end, machine)
}
