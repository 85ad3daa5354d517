//! The numbers of the standard streams.
ghost use Rattle.std.specs.Prelude.{IfErr};
ghost use Rattle.programs.specs.Faults.{IsUnopened};

use crate::faults::ProgramFault;
use host_files::NOTHING;
use std::fs::{File, Files};

/// Gives the numbers of the standard streams that the program was started without to a file that has no bytes and takes
/// none, until the result is dropped (`host_files::held_places`).
///
/// # Errors
///
/// `CannotOpen` of `/dev/null`, where this can't be opened.
pub fn held_places<'a, R: Files<File = File>>(rt: &R) -> Result<[Option<File>; 3], ProgramFault<'a>>
    ensures { IfErr result (IsUnopened NOTHING.now) }
{
    match host_files::held_places(rt) {
        Ok(places) => Ok(places),
        Err(_) => Err(ProgramFault::CannotOpen(NOTHING)),
    }
}
