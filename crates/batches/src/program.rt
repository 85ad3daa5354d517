//! The program that makes batches durable.
ghost use Rattle.std.specs.Prelude.{◌≡◌, ◌≤◌, IfErr};

use crate::serving::{ServeEnd, serve};
use disk_model::{DiskFault, FileDisk, Unknown};
use host_files::{Opening, held_places, open_alone};
use std::fs::{File, Files};
use std::io::{BufReader, Read, Write};
use stores::{OpenFault, Store};
use thiserror::Error;

/// Why the program gives up.
#[derive(Clone, Copy, Debug, PartialEq, Eq, Error)]
enum ProgramFault {
    #[error("usage")]
    Usage,
    #[error("out of memory")]
    OutOfMemory,
    #[error("cannot open the image")]
    CannotOpen,
    #[error("the image has no layout of a store")]
    BadLayout,
    #[error("the image has a bad journal")]
    BadJournal,
    #[error("{}", DiskFault)]
    Device,
    #[error("{0}")]
    Served(ServeEnd),
}

/// `pagesync IMAGE`: opens and locks an image, and carries out the requests of `reader`, whose replies go to `writer`. An image
/// that can't be synced at first is the fault of its device.
///
/// Returns the exit status: 0 where the input ended between two batches; 1 a fault; 2 other words. For 1 and 2 one line on
/// `errors` says why.
pub fn pagesync<R: Files<File = File> + AllocGlobal, I: Read + Drop, O: Write, X: Write>(
    rt: &R,
    words: &[String],
    reader: I,
    writer: &mut O,
    errors: &mut X,
) -> u8
    ensures { result ≤ 2 }
{
    let Err(fault) = run(rt, words, reader, writer) else {
        return 0;
    };
    // Where this stream fails too, the status alone says so.
    let _ = writeln!(errors, "pagesync: {fault}");
    if fault == ProgramFault::Usage { 2 } else { 1 }
}

fn run<R: Files<File = File> + AllocGlobal, I: Read + Drop, O: Write>(
    rt: &R,
    words: &[String],
    reader: I,
    writer: &mut O,
) -> Result<(), ProgramFault> {
    let [image] = words else {
        return Err(ProgramFault::Usage);
    };
    let Ok(places) = held_places(rt) else {
        return Err(ProgramFault::CannotOpen);
    };
    let Ok(file) = open_alone(rt, image.as_str(), Opening::Write) else {
        return Err(ProgramFault::CannotOpen);
    };
    let disk = synced_disk(file)?;
    let mut store = match Store::open(rt.alloc(), disk) {
        Ok(store) => store,
        Err((fault, _)) => return Err(unopened(fault)),
    };
    let Ok(mut input) = BufReader::new(rt.alloc(), reader) else {
        return Err(ProgramFault::OutOfMemory);
    };
    let served = serve(rt.alloc(), &mut store, &mut input, writer);
    drop(places);
    match served {
        Ok(ServeEnd::Done) => Ok(()),
        Ok(end) => Err(ProgramFault::Served(end)),
        Err(_) => Err(ProgramFault::OutOfMemory),
    }
}

/// The device in a file, which is synced first, as a call of the device: where that fails the fault is the device's.
fn synced_disk(file: File) -> Result<FileDisk<Unknown>, ProgramFault>
    ensures told { IfErr result (λ fault. fault ≡ ProgramFault.Device) }
{
    match FileDisk::<Unknown>::new(file) {
        Ok(disk) if disk.is_settled() => Ok(disk),
        _ => Err(ProgramFault::Device),
    }
}

/// Why the program gives up where the store could not be opened.
fn unopened(fault: OpenFault) -> ProgramFault {
    match fault {
        OpenFault::Device => ProgramFault::Device,
        OpenFault::BadLayout => ProgramFault::BadLayout,
        OpenFault::BadJournal => ProgramFault::BadJournal,
        OpenFault::Memory => ProgramFault::OutOfMemory,
    }
}
