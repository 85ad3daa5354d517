//! How a program comes to its words.
ghost use Rattle.std.specs.Prelude.{◌≤◌, IfErr};

use crate::faults::{ProgramFault, report};
use host_files::words_after_name;
use std::env::Env;
use std::io::{ErrorKind, Write};

/// The words after the program's name; else the exit status with which the program ends, the fault being reported on `errors`: 1
/// where memory is wanting, 2 where a word is no UTF-8 and so none that a program takes.
pub fn given_words<R: Env + AllocGlobal, X: Write>(
    rt: &R,
    program: &str,
    errors: &mut X,
) -> Result<Vec<String>, u8>
    ensures { IfErr result (λ status. (1 ≤ status) × (status ≤ 2)) }
{
    match words_after_name(rt) {
        Ok(words) => Ok(words),
        Err(error) if error.kind() == ErrorKind::OutOfMemory => {
            Err(report(program, Err(ProgramFault::OutOfMemory), errors))
        }
        Err(_) => Err(report(program, Err(ProgramFault::Usage), errors)),
    }
}
