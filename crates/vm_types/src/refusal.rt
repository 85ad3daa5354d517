//! Why a command isn't done: an error number, a fault of an access, or a stall.
ghost use Rattle.std.specs.Prelude.{◌≡◌};

/// Error numbers of the calls, by their names and numbers in errno(3) and Linux's errno-base.h.
#[derive(Clone, Copy, Debug, PartialEq, Eq)]
pub enum Errno {
    /// No such process.
    ESRCH = 3,
    /// A device failed.
    EIO = 5,
    /// No such file.
    EBADF = 9,
    /// No process number is free.
    EAGAIN = 11,
    /// No place, a page that isn't mapped, or too many runs.
    ENOMEM = 12,
    /// The file may not be written.
    EACCES = 13,
    /// A page of the range is mapped.
    EEXIST = 17,
    /// An argument is no multiple of the page size, the length of a range is zero, or the store's files keep their lengths.
    EINVAL = 22,
    /// The file would be longer than a file can be, 2^42 bytes.
    EFBIG = 27,
    /// More touched pages than one msync takes, or no room in the store for the lengths and pages that it takes.
    ENOSPC = 28,
    /// The mapping would pass the last page that a file can have.
    EOVERFLOW = 75,
}

impl Errno {
    ghost use Rattle.vm_types.specs.Refusal.{errno_number};

    /// The number, as Linux has it.
    pub fn number(self) -> u8
        ensures { result ≡ errno_number self }
    {
        self as u8
    }
}

/// Why a command stalls: it would succeed, but memory or a device is wanting. Our own numbers.
#[derive(Clone, Copy, Debug, PartialEq, Eq)]
pub enum Stall {
    /// No frame is free, and none can be made free.
    NoFrames = 1,
    /// No frame is free, and none can be made free without a slot.
    NoSwap = 2,
    /// The swap device failed.
    SwapDevice = 3,
    /// The store device failed.
    StoreDevice = 4,
}

impl Stall {
    ghost use Rattle.vm_types.specs.Refusal.{stall_number};

    /// The number, 1 to 4.
    pub fn number(self) -> u8
        ensures { result ≡ stall_number self }
    {
        self as u8
    }
}

/// Why an access faults (sigaction(2), si_code of SIGSEGV and SIGBUS).
#[derive(Clone, Copy, Debug, PartialEq, Eq)]
pub enum Code {
    /// The address is no multiple of the width.
    BusAdraln,
    /// The page isn't mapped.
    SegvMaperr,
    /// The permission lacks the access.
    SegvAccerr,
    /// The page lies past the file's end.
    BusAdrerr,
}

/// A fault of an access: the exception code of the RISC-V Privileged Specification, the reason and the address.
#[derive(Clone, Copy, Debug, PartialEq, Eq)]
pub struct Fault {
    pub cause: u8,
    pub code: Code,
    pub addr: u64,
}
