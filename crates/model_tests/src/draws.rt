//! Numbers that look random, and commands that are made of them.
ghost use Rattle.std.specs.Prelude.{◌<◌, ◌^◌};

use vm_types::{
    Command, LONGEST_FILE, MapSource, Mode, MsyncMode, Placing, Prot, StoredValue, Width,
};

/// The pages that commands name, in rows of four neighbours, each row under a table of its own.
const PLACES: u64 = 12;

/// Neighbours in a row.
const ROW: u64 = 4;

/// The most processes that are made.
const PROCESSES: usize = 3;

/// Pages of the file at first.
pub(crate) const FILE_PAGES: u32 = 6;

/// The most pages that it gets.
const MOST_PAGES: u64 = 8;

/// The row that lies apart in Sv48: it has only the root in common with the others.
const FAR: u64 = 2;

/// The first page of a row.
fn first_page(mode: Mode, row: u64) -> u64
    ensures { result < 2 ^ 40 }
{
    match mode {
        Mode::Sv48 if row == FAR => 16 + (255 << 27),
        _ => 16 + row % PLACES * 512,
    }
}

/// The address of a page, in bytes.
fn address(mode: Mode, place: u64) -> u64 {
    let place = place % PLACES;
    4096 * (first_page(mode, place / ROW) + place % ROW)
}

/// A row of numbers, the same for a seed at each run (Marsaglia, "Xorshift RNGs").
#[derive(Drop)]
pub(crate) struct Draws {
    mode: Mode,
    state: u64,
}

impl Draws {
    /// The row of that seed, for machines of that mode.
    pub(crate) fn new(mode: Mode, seed: u64) -> Draws {
        Draws {
            mode,
            state: seed.wrapping_mul(0x9e37_79b9_7f4a_7c15) | 1,
        }
    }

    /// The next number, below `end`.
    fn below(&mut self, end: u64) -> u64
        requires { 0 < end }
        ensures { result < end }
    {
        let mut bits = self.state;
        bits ^= bits << 13;
        bits ^= bits >> 7;
        bits ^= bits << 17;
        self.state = bits;
        bits % end
    }

    /// Neighbouring pages of one row: the address and the length.
    fn range(&mut self) -> (u64, u64) {
        let place = self.below(PLACES);
        let count = 1 + self.below(ROW - place % ROW);
        (address(self.mode, place), 4096 * count)
    }

    /// What a mapping is to stand on.
    fn source(&mut self) -> MapSource {
        let file = 0;
        let offset = 4096 * self.below(1 + MOST_PAGES - ROW);
        match self.below(5) {
            0 => MapSource::Anon,
            1 => MapSource::Private { file, offset },
            2 => MapSource::Common,
            _ => MapSource::Shared { file, offset },
        }
    }

    /// A call on a range.
    fn call(&mut self, pid: u64) -> Command {
        let (addr, len) = self.range();
        match self.below(7) {
            0 => Command::Munmap { pid, addr, len },
            1 => Command::Dontneed { pid, addr, len },
            2 | 3 => Command::Msync {
                pid,
                addr,
                len,
                mode: MsyncMode::Sync,
            },
            _ => Command::Mmap {
                pid,
                addr,
                len,
                prot: Prot::WRITE,
                source: self.source(),
                placing: Placing::Fixed,
            },
        }
    }

    /// Another length of the file: of whole pages or not, and one in sixteen is over the longest. One in sixteen is of a file that isn't there.
    fn length(&mut self) -> Command {
        let file = self.below(16) / 15;
        let pages = self.below(MOST_PAGES);
        let length = match self.below(16) {
            0 => LONGEST_FILE + 1 + pages,
            1..=6 => 4096 * pages,
            _ => 4096 * pages + self.below(4096),
        };
        Command::Truncate { file, length }
    }

    /// A command, where so many processes live.
    pub(crate) fn command(&mut self, processes: usize) -> Option<Command> {
        let pid = 1 + self.below(PROCESSES as u64 + 1);
        let place = self.below(PLACES);
        let addr = address(self.mode, place);
        let may_come = processes < PROCESSES;
        Some(match self.below(32) {
            0 | 1 if may_come => Command::Spawn,
            2 if may_come => Command::Fork { pid },
            3 => Command::Exit { pid },
            4..=10 => self.call(pid),
            11..=13 => self.length(),
            14..=22 => Command::Store {
                pid,
                addr,
                stored: StoredValue::new(Width::One, self.below(256))?,
            },
            _ => Command::Load {
                pid,
                addr,
                width: Width::One,
            },
        })
    }
}
