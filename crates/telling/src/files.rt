//! Answers about files.
ghost use Rattle.machine.specs.Machine.{IsSoundMachine};

use disk_model::SectorDisk;
use inspection::FileView;
use machine::Machine;
use std::io::{self, Write};
use vm_types::FILES;

/// `?files`: a line for each file.
pub(crate) fn tell_files<W: Write, D: SectorDisk, E: SectorDisk>(
    machine: &Machine<D, E>,
    out: &mut W,
) -> io::Result<()>
    requires { IsSoundMachine D.SectorDisk E.SectorDisk machine.now }
{
    for number in 0..FILES as u16 {
        if let Some(file) = inspection::file_view(machine, number) {
            tell_file(number, &file, out)?;
        }
    }
    Ok(())
}

/// A file: its length, and where that is not durable yet, how short the file has been since the last that was.
fn tell_file<W: Write>(number: u16, file: &FileView, out: &mut W) -> io::Result<()> {
    write!(out, "    file {number}  length {}", file.length)?;
    if file.is_read_only {
        write!(out, ", read only")?;
    }
    if file.is_resized {
        write!(out, ", not durable yet, shortest {}", file.shortest)?;
    }
    writeln!(out, "")
}
