//! The files that a program works on, as devices.
ghost use Rattle.std.specs.Prelude.{◌≡◌, IfOk, IfErr};
ghost use Rattle.programs.specs.Disks.{OpensDisk};

use crate::faults::ProgramFault;
use disk_model::{FileContents, FileDisk, SectorDisk};
use file_store::is_any_mark;
use std::fs::{File, Files};
use std::io;
use std::os::unix::fs::FileExt;

/// The device in the file of that path that was opened so. No other program of ours has the file until the device is dropped.
///
/// # Errors
///
/// `CannotOpen` where the file can't be had so. One that can't be synced is had: its device fails.
pub(crate) fn disk_in<'a, C: FileContents>(
    path: &'a str,
    opened: io::Result<File>,
) -> Result<FileDisk<C>, ProgramFault<'a>>
    ensures { OpensDisk ⟦<FileDisk<C> as SectorDisk>⟧ path.now result }
{
    let Ok(file) = opened else {
        return Err(ProgramFault::CannotOpen(path));
    };
    match FileDisk::<C>::new(file) {
        Ok(disk) => Ok(disk),
        Err(_) => Err(ProgramFault::CannotOpen(path)),
    }
}

/// The device, unless its file could not be synced as it was opened: that is this fault.
pub(crate) fn settled<'a, C: FileContents>(
    disk: FileDisk<C>,
    unsynced: ProgramFault<'a>,
) -> Result<FileDisk<C>, ProgramFault<'a>>
    ensures same { IfOk result (λ given. given ≡ disk) }
    ensures told { IfErr result (λ fault. fault ≡ unsynced.entry) }
{
    if disk.is_settled() {
        Ok(disk)
    } else {
        Err(unsynced)
    }
}

/// The host file of that path, which is only read, and how many bytes it has now (`host_files::open_to_read`).
///
/// # Errors
///
/// `CannotOpen` where it can't be had so.
pub(crate) fn open_to_read<'a, R: Files<File = File>>(
    rt: &R,
    path: &'a str,
) -> Result<(File, u64), ProgramFault<'a>> {
    match host_files::open_to_read(rt, path) {
        Ok(opened) => Ok(opened),
        Err(_) => Err(ProgramFault::CannotOpen(path)),
    }
}

/// Whether a file begins as an image of any layout does.
pub(crate) fn has_mark(file: &File) -> io::Result<bool> {
    let mut sector = [0; 512];
    if file.metadata()?.len() < sector.len() as u64 {
        return Ok(false);
    }
    file.read_exact_at(&mut sector, 0)?;
    Ok(is_any_mark(&sector))
}
