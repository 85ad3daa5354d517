//! Why trials of stops give up.
ghost use Rattle.std.specs.Prelude.{◌≡◌};

use machine::BootFault;
use programs::ProgramFault;
use std::alloc::AllocError;
use stores::OpenFault;

/// Why trials give up: each is the fault of that name of the program.
#[derive(Clone, Copy)]
pub(crate) enum TrialFault {
    OutOfMemory,
    Open(OpenFault),
    NoFile(u32),
    Boot(BootFault),
    ReadFailed,
    WriteFailed,
}

impl From<AllocError> for TrialFault {
    ghost use Rattle.stop_trials.specs.declared.faults.TrialFault.TheVariants.{OutOfMemory as NoMemory};

    ghost from_gives = { λ _ fault. fault ≡ NoMemory };

    fn from(_: AllocError) -> Self {
        TrialFault::OutOfMemory
    }
}

impl TrialFault {
    /// The fault that the program tells.
    pub(crate) fn told<'a>(self) -> ProgramFault<'a> {
        match self {
            TrialFault::OutOfMemory => ProgramFault::OutOfMemory,
            TrialFault::Open(fault) => ProgramFault::Open(fault),
            TrialFault::NoFile(file) => ProgramFault::NoFile(file),
            TrialFault::Boot(fault) => ProgramFault::Boot(fault),
            TrialFault::ReadFailed => ProgramFault::ReadFailed,
            TrialFault::WriteFailed => ProgramFault::WriteFailed,
        }
    }
}
