//! An entry of a page table, by its named bits.
ghost use Rattle.std.specs.Prelude.{◌≡◌, ◌<◌, ◌+◌, ◌^◌, ◌==◌, true};
ghost use Rattle.vm_types.specs.Limits.{table_entries};
ghost use Rattle.frames.specs.FrameTable.{IsFrame};
ghost use Rattle.sv39_walk.specs.Entry.{entry_at, pointer_to, is_pointer, frame_of};

use byteorder::{ByteOrder, LittleEndian};
use frames::Frames;
use vm_types::{Access, FrameNo};

// W, A and D as numbers.
const WRITE: u64 = 1 << 2;

const ACCESSED: u64 = 1 << 6;

const DIRTY: u64 = 1 << 7;

/// An entry of a page table (RISC-V Privileged Specification, "Sv39 page table entry"): V, R, W, X, U, G, A and D are
/// bits 0 to 7, bits 8 and 9 are free for software, bits 10 to 53 are the physical page number, and bits 54 to 63
/// must be zero in a valid entry (our choice: neither Svpbmt nor Svnapot).
#[derive(Clone, Copy, Debug, PartialEq, Eq)]
pub struct Pte(pub u64);

impl Pte {
    ghost use Rattle.sv39_walk.specs.Entry.{has_bit, is_valid, can_read, can_write, can_execute, is_user, is_accessed, is_dirty, is_private, is_swapped, is_reserved, is_leaf, grants};

    /// The entry of that number.
    pub fn from_u64(number: u64) -> Pte
        ensures { result.0 ≡ number }
    {
        Pte(number)
    }

    /// The number of the entry.
    pub fn to_u64(self) -> u64
        ensures { result ≡ self.0 }
    {
        let number = self.0;
        number
    }

    /// A pointer to the table in that frame: V alone, with A, D and U clear.
    pub fn pointer(table: FrameNo) -> Pte
        ensures number { result.0 ≡ pointer_to table.0 }
        ensures pointer { is_pointer result.0 ≡ true }
        ensures target { frame_of result.0 ≡ table.0 }
    {
        pointer_to_frame(table.0)
    }

    /// V: the entry is valid.
    pub fn is_valid(self) -> bool
        ensures { result ≡ is_valid self.0 }
    {
        self.has(0)
    }

    /// R: the page can be read.
    pub fn is_readable(self) -> bool
        ensures { result ≡ can_read self.0 }
    {
        self.has(1)
    }

    /// W: the page can be written.
    pub fn is_writable(self) -> bool
        ensures { result ≡ can_write self.0 }
    {
        self.has(2)
    }

    /// X: the page can be run.
    pub fn is_executable(self) -> bool
        ensures { result ≡ can_execute self.0 }
    {
        self.has(3)
    }

    /// U: user mode may use the page.
    pub fn is_user(self) -> bool
        ensures { result ≡ is_user self.0 }
    {
        self.has(4)
    }

    /// A: the page was accessed since this bit was cleared.
    pub fn is_accessed(self) -> bool
        ensures { result ≡ is_accessed self.0 }
    {
        self.has(6)
    }

    /// D: the page was written since this bit was cleared.
    pub fn is_dirty(self) -> bool
        ensures { result ≡ is_dirty self.0 }
    {
        self.has(7)
    }

    /// Bit 8, which is left to software (RSW): the frame that the entry names is the process's own.
    pub fn is_private(self) -> bool
        ensures { result ≡ is_private self.0 }
    {
        self.has(8)
    }

    /// The page lies in a slot of the swap device: V is clear, which leaves all other bits to software, and bit 1, which is that of R in
    /// a leaf, set.
    pub fn is_swapped(self) -> bool
        ensures { result ≡ is_swapped self.0 }
    {
        !self.is_valid() && self.is_readable()
    }

    /// The entry with W clear.
    pub fn without_write(self) -> Pte
        requires { can_write self.0 ≡ true }
        ensures { result.0 + 4 ≡ self.0 }
    {
        Pte(self.0 - WRITE)
    }

    /// The entry with A clear.
    pub fn without_accessed(self) -> Pte
        requires { is_accessed self.0 ≡ true }
        ensures { result.0 + 64 ≡ self.0 }
    {
        Pte(self.0 - ACCESSED)
    }

    /// The entry with D clear.
    pub fn without_dirty(self) -> Pte
        requires { is_dirty self.0 ≡ true }
        ensures { result.0 + 128 ≡ self.0 }
    {
        Pte(self.0 - DIRTY)
    }

    /// The frame of the physical page number, where that is under 2^32.
    pub fn frame_number(self) -> FrameNo
        requires { frame_of self.0 < 2 ^ 32 }
        ensures { result.0 ≡ frame_of self.0 }
    {
        FrameNo(self.frame() as u32)
    }

    /// The physical page number, under 2^44.
    #[tactic(auto, unfolding(crate::specs::Entry::frame_of))]
    pub fn frame(self) -> u64
        ensures frame { result ≡ frame_of self.0 }
        ensures range { result < 2 ^ 44 }
    {
        (self.0 >> 10) % (1 << 44)
    }

    /// Whether a valid entry has a form that is reserved: W without R, or one of bits 54 to 63.
    #[tactic(auto, unfolding(crate::specs::Entry::high_bits))]
    pub fn is_reserved(self) -> bool
        ensures { result ≡ is_reserved self.0 }
    {
        self.is_writable() && !self.is_readable() || self.0 >> 54 != 0
    }

    /// Whether a valid entry is a leaf: R or X is set.
    pub fn is_leaf(self) -> bool
        ensures { result ≡ is_leaf self.0 }
    {
        self.is_readable() || self.is_executable()
    }

    /// Whether the entry is a valid pointer to the next table: V is set, and R, W, X and bits 54 to 63 are clear.
    pub fn is_pointer(self) -> bool
        ensures { result ≡ is_pointer self.0 }
    {
        self.is_valid() && !self.is_reserved() && !self.is_leaf()
    }

    /// Whether the entry allows that access: R for a load, W for a store, X for a fetch.
    pub fn grants(self, access: Access) -> bool
        ensures { result ≡ grants access self.0 }
    {
        match access {
            Access::Load => self.is_readable(),
            Access::Store => self.is_writable(),
            Access::Fetch => self.is_executable(),
        }
    }

    #[tactic(auto, using(std::proofs::lemmas::Nat::Bits::shr_and_one), unfolding(crate::specs::Entry::has_bit))]
    fn has(self, bit: u32) -> bool
        requires { bit < 64 }
        ensures { result ≡ has_bit self.0 bit }
    {
        self.0 >> bit & 1 == 1
    }
}

/// The entry at `index`, under 512, of the table in frame `table`.
#[tactic(auto, unfolding(crate::specs::Entry::entry_at))]
pub fn read_entry(frames: &Frames, table: FrameNo, index: usize) -> Pte
    requires inside { IsFrame frames.now table.0 }
    requires below { index < table_entries }
    ensures { result.0 ≡ entry_at frames.now table.0 index }
{
    Pte::from_u64(LittleEndian::read_u64(&frames.bytes(table)[8 * index..]))
}

fn pointer_to_frame(frame: u32) -> Pte
    ensures number { result.0 ≡ pointer_to frame }
    ensures pointer { is_pointer result.0 ≡ true }
    ensures target { frame_of result.0 ≡ frame }
{
    Pte(u64::from(frame) * 1024 + 1)
}
