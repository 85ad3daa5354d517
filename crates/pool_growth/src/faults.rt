//! Why changes of files, or pages with them, are refused.
ghost use Rattle.std.specs.Prelude.{◌≡◌};
ghost use Rattle.pool_growth.specs.declared.faults.BadSizes.TheVariants.{Memory};

use growth::ChangeFault;
use std::alloc::AllocError;
use vm_types::FilePage;

/// Why a commit does not take changes. Files are named by their numbers.
#[derive(Clone, Copy, Debug, PartialEq, Eq)]
pub enum BadChanges {
    /// The files of the changes don't rise, or one of them has no place in the directory or over 30 extents.
    Form,
    /// This file's number is over 4,095, or its length over 2^42.
    Large(u32),
    /// The directory would be bad, or a new extent has a home that is not free.
    Homes(ChangeFault),
    /// This file would get another home for a page that it keeps.
    Moved(u32),
}

/// Why a commit does not take pages with changes.
#[derive(Clone, Copy, Debug, PartialEq, Eq)]
pub enum BadPages {
    /// They don't rise, by file and then by page.
    Order,
    /// This page is none of the new ones: its file had it before, or has it not afterwards.
    NotNew(FilePage),
    /// This page does not begin inside its file, before or afterwards.
    Outside(FilePage),
    /// This file gets longer, its last page was not full, and is not among those that it had before.
    End(u32),
    /// Those that were pages before are more, with the changed pages of the directory, than slots are free.
    TooMany,
}

/// Why no changes of files are proposed for sizes.
#[derive(Clone, Copy, Debug, PartialEq, Eq)]
pub enum BadSizes {
    /// The files of the sizes don't rise, or one of them has no place in the directory or a number over 4,095, or is to be longer than 2^42.
    Form,
    /// This file has 30 extents, and needs more homes, or there are not as many free ones in a row as it lacks.
    NoHomes(u32),
    /// There was too little memory for the changes.
    Memory,
}

impl From<AllocError> for BadSizes {
    ghost from_gives = { λ _ fault. fault ≡ Memory };

    fn from(_: AllocError) -> Self {
        BadSizes::Memory
    }
}
