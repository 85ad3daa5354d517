//! The program that serves a kernel.
ghost use Rattle.std.specs.Prelude.{◌≤◌, IfOk};
ghost use Rattle.runner.specs.Trace.{streams};
ghost use Rattle.serving.specs.Program.{EndsServing, EndsWithStatus};

use crate::serving::serve;
use command_words::run_words;
use disk_model::{FileContents, FileDisk, SectorDisk, Unknown};
use programs::{ProgramFault, boot_image, held_places, report, status_of};
use std::fs::{File, Files};
use std::io::{Read, Write};

/// `pagemmu IMAGE SWAP [FRAMES SLOTS [sv39|sv48]]`: boots a machine on the image as `pagerun` does, and serves the requests of `reader`: 72 bytes each,
/// to each of which `writer` gets 40 bytes before the next is read (`serve`).
///
/// Returns the exit status, as `pagerun` does: 0 done; 1 a fault, of the reader too; 2 other words; 3 the end of the requests with a halted machine.
/// For 1 and 2 one line on `errors` says why.
pub fn pagemmu<R: Files<File = File> + AllocGlobal, I: Read, O: Write, X: Write>(
    rt: &R,
    words: &[String],
    reader: &mut I,
    writer: &mut O,
    errors: &mut X,
) -> u8
    ensures statuses { result ≤ 3 }
    ensures ends { EndsWithStatus ⟦<FileDisk<Unknown> as SectorDisk>⟧ ⟦<FileDisk<Unknown> as SectorDisk>⟧ (λ d. d.settled)
        (streams (I.remaining reader.old) (O.contents writer.old)) (streams (I.remaining reader.new) (O.contents writer.new)) result }
{
    let outcome = serve_image::<Unknown, Unknown, R, I, O>(rt, words, reader, writer);
    report("pagemmu", outcome, errors)
}

fn serve_image<
    'a,
    C: FileContents,
    K: FileContents,
    R: Files<File = File> + AllocGlobal,
    I: Read,
    O: Write,
>(rt: &R, words: &'a [String], reader: &mut I, writer: &mut O) -> Result<u8, ProgramFault<'a>>
    ensures statuses { IfOk result (λ status. status ≤ 3) }
    ensures ends { EndsServing ⟦<FileDisk<C> as SectorDisk>⟧ ⟦<FileDisk<K> as SectorDisk>⟧ (λ d. d.settled)
        (streams (I.remaining reader.old) (O.contents writer.old)) (streams (I.remaining reader.new) (O.contents writer.new)) result }
{
    let words = run_words(rt.alloc(), words)?;
    let _places = held_places(rt)?;
    let mut machine = boot_image::<C, K, R>(rt, &words)?;
    let end = serve(&mut machine, reader, writer);
    let outcome = status_of(end, &machine);
    let _store = machine.into_store();
    outcome
}
