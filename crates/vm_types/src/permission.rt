//! Permissions of pages, as sets of three bits.
ghost use Rattle.std.specs.Prelude.{⊤, ◌≡◌, ◌==◌, [], ◌∷◌, codes, if◌then◌else◌};
ghost use Rattle.std.specs.Int.RustNames.{bit_and, bit_or};

use bitflags::{Flag, Flags, bitflag_items};

/// What may be done with a page: read it, write it, run it (mmap(2), PROT_READ, PROT_WRITE and PROT_EXEC).
#[derive(Clone, Copy, Debug, PartialEq, Eq)]
pub struct Prot(u8);

bitflag_items! {
    impl Prot: u8 {
        const READ = 1;
        const WRITE = 2;
        const EXECUTE = 4;
    }
}

impl Flags for Prot {
    type Bits = u8;

    ghost exact = { ⊤ };

    ghost table = { (codes "READ", 1) ∷ (codes "WRITE", 2) ∷ (codes "EXECUTE", 4) ∷ [] };

    ghost set_of = { λ p. p.0 };

    fn flags<'a>() -> &'a [Flag<Prot>] {
        Prot::FLAGS
    }

    fn bits(&self) -> u8 {
        self.0
    }

    fn from_bits_retain(bits: u8) -> Prot {
        Prot(bits)
    }
}

impl Prot {
    ghost use Rattle.vm_types.specs.Permission.{can_read, can_write, can_execute, kept};

    /// Whether it allows reading.
    pub fn is_readable(self) -> bool
        ensures { result ≡ can_read self }
    {
        self.contains(Prot::READ)
    }

    /// Whether it allows writing.
    pub fn is_writable(self) -> bool
        ensures { result ≡ can_write self }
    {
        self.contains(Prot::WRITE)
    }

    /// Whether it allows running.
    pub fn is_executable(self) -> bool
        ensures { result ≡ can_execute self }
    {
        self.contains(Prot::EXECUTE)
    }

    /// The permission as pages keep it: who may write may read as well (our choice).
    pub fn kept(self) -> Prot
        ensures { result ≡ kept self }
    {
        let mut kept = self;
        if self.is_writable() {
            kept.insert(Prot::READ);
        }
        kept
    }
}
