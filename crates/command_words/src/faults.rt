//! Why words are not taken.
ghost use Rattle.std.specs.Prelude.{◌≡◌};
ghost use Rattle.clap.specs.Values.{kind_of};
ghost use Rattle.command_words.specs.Faults.{fault_of_kind};

use clap::error::ErrorKind;
use std::alloc::AllocError;

/// Why the words after a program's name are not taken.
#[derive(Clone, Copy)]
pub enum WordsFault {
    /// They are others than the program takes.
    Usage,
    /// The host has no memory to read them.
    OutOfMemory,
}

impl From<AllocError> for WordsFault {
    ghost use Rattle.command_words.specs.declared.faults.WordsFault.TheVariants.{OutOfMemory as NoMemory};

    ghost from_gives = { λ _ fault. fault ≡ NoMemory };

    fn from(_: AllocError) -> Self {
        WordsFault::OutOfMemory
    }
}

impl From<clap::Error> for WordsFault {
    ghost from_gives = { λ error fault. fault ≡ fault_of_kind (kind_of error) };

    fn from(error: clap::Error) -> Self {
        match error.kind() {
            ErrorKind::OutOfMemory => WordsFault::OutOfMemory,
            _ => WordsFault::Usage,
        }
    }
}
