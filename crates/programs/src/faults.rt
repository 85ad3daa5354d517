//! Why a program gives up, and how it says so.
ghost use Rattle.std.specs.Prelude.{◌≡◌, IfOk, IfErr};
ghost use Rattle.programs.specs.Faults.{fault_status, words_fault};

use crate::showing::ShowFault;
use command_words::WordsFault;
use file_store::{FormatFault, UpgradeFault};
use machine::BootFault;
use std::alloc::AllocError;
use std::fmt::{self, Display, Formatter, Write as _};
use std::io::Write;
use stores::OpenFault;
use thiserror::Error;

/// Why a program gives up. A path or a spec is the word that named it. `Display` gives it in one line, as the programs tell it.
#[derive(Debug, Drop, Error)]
pub enum ProgramFault<'a> {
    /// Other words than the program takes.
    #[error("usage")]
    Usage,
    /// The host has no memory.
    #[error("out of memory")]
    OutOfMemory,
    /// A spec that asks for no file, or for one of 2^32 bytes or more.
    #[error("bad spec {}", OneLine(*.0))]
    BadSpec(&'a str),
    /// A file that can't be opened as the program has to.
    #[error("cannot open {}", OneLine(*.0))]
    CannotOpen(&'a str),
    /// No store was made.
    #[error("format {} {}", *.0 as u8, *.0)]
    Format(FormatFault),
    /// No store was made of an older one.
    #[error("upgrade {} {}", *.0 as u8, *.0)]
    Upgrade(UpgradeFault),
    /// A store was not opened.
    #[error("{}", ShowFault::Open(*.0))]
    Open(OpenFault),
    /// The store has no file of that number.
    #[error("{} {}", ShowFault::NoFile, *.0)]
    NoFile(u32),
    /// The machine did not start.
    #[error("boot {} {}", *.0 as u8, *.0)]
    Boot(BootFault),
    /// The input, or the device that is read from, failed.
    #[error("{}", ShowFault::Read)]
    ReadFailed,
    /// The output failed, or took no bytes.
    #[error("{}", ShowFault::Write)]
    WriteFailed,
}

/// A word as it is printed in one line: its control characters are escaped as Rust does, `\n` for a newline.
#[derive(Drop)]
struct OneLine<'a>(&'a str);

impl Display for OneLine<'_> {
    fn fmt<W: fmt::Write>(&self, f: &mut Formatter<W>) -> fmt::Result {
        for c in self.0.chars() {
            if c.is_control() {
                write!(f, "{}", c.escape_default())?;
            } else {
                f.write_char(c)?;
            }
        }
        Ok(())
    }
}

impl From<AllocError> for ProgramFault<'_> {
    ghost use Rattle.programs.specs.declared.faults.ProgramFault.TheVariants.{OutOfMemory as NoMemory};

    ghost from_gives = { λ _ fault. fault ≡ NoMemory };

    fn from(_: AllocError) -> Self {
        ProgramFault::OutOfMemory
    }
}

impl From<WordsFault> for ProgramFault<'_> {
    ghost from_gives = { λ fault told. told ≡ words_fault fault };

    fn from(fault: WordsFault) -> Self {
        match fault {
            WordsFault::Usage => ProgramFault::Usage,
            WordsFault::OutOfMemory => ProgramFault::OutOfMemory,
        }
    }
}

impl ProgramFault<'_> {
    /// 2 for other words than the program takes, else 1.
    fn status(&self) -> u8
        ensures { result ≡ fault_status self.now }
    {
        match self {
            ProgramFault::Usage => 2,
            _ => 1,
        }
    }
}

/// The exit status of a program of that name that ended so: its own, or for a fault 2 where it took other words and else 1. A
/// fault is reported in one line on `errors` first.
pub fn report<X: Write>(program: &str, outcome: Result<u8, ProgramFault<'_>>, errors: &mut X) -> u8
    ensures ok { IfOk outcome.entry (λ status. result ≡ status) }
    ensures err { IfErr outcome.entry (λ fault. result ≡ fault_status fault) }
{
    match outcome {
        Ok(status) => status,
        Err(fault) => {
            // Where this stream fails too, the status alone says so.
            let _ = writeln!(errors, "{program}: {fault}");
            fault.status()
        }
    }
}
