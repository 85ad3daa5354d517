//! What a kernel asks for.
ghost use Rattle.std.specs.Prelude.{◌≡◌};
ghost use Rattle.serving.specs.Requests.{command_of, load_of, mapping_of, permission_of, placing_of, protection_of, request_of, source_of, sync_of, width_of};

use crate::numbers::RequestNumbers;
use bitflags::Flags;
use vm_types::{Command, MapSource, MsyncMode, Placing, Prot, Width};

/// What a kernel asks for.
#[derive(Clone, Copy, Debug, PartialEq, Eq)]
pub enum Request {
    /// A command of the machine.
    Carry(Command),
    /// That a page may be stored to: the byte at an address of it is loaded, and stored as it is.
    Touch { pid: u64, addr: u64 },
}

/// The permission of a number below 8.
fn permission_of(number: u64) -> Option<Prot>
    ensures { result ≡ permission_of number }
{
    if number < 8 {
        Some(Prot::from_bits_retain(number as u8))
    } else {
        None
    }
}

/// The width of so many bytes.
fn width_of(number: u64) -> Option<Width>
    ensures { result ≡ width_of number }
{
    match number {
        1 => Some(Width::One),
        2 => Some(Width::Two),
        4 => Some(Width::Four),
        8 => Some(Width::Eight),
        _ => None,
    }
}

/// How firmly an address is asked for.
fn placing_of(number: u64) -> Option<Placing>
    ensures { result ≡ placing_of number }
{
    match number {
        0 => Some(Placing::Hint),
        1 => Some(Placing::Fixed),
        2 => Some(Placing::NoReplace),
        _ => None,
    }
}

impl RequestNumbers {
    /// What a mapping stands on.
    fn map_source(&self) -> Option<MapSource>
        ensures { result ≡ source_of self.now }
    {
        let (file, offset) = (self.value, self.offset);
        match self.source {
            0 => Some(MapSource::Anon),
            1 => Some(MapSource::Common),
            2 => Some(MapSource::Private { file, offset }),
            3 => Some(MapSource::Shared { file, offset }),
            _ => None,
        }
    }

    /// An mmap.
    fn mapping(&self) -> Option<Command>
        ensures { result ≡ mapping_of self.now }
    {
        let prot = permission_of(self.prot)?;
        let source = self.map_source()?;
        let placing = placing_of(self.placing)?;
        Some(Command::Mmap {
            pid: self.pid,
            addr: self.addr,
            len: self.len,
            prot,
            source,
            placing,
        })
    }

    /// An mprotect.
    fn protection(&self) -> Option<Command>
        ensures { result ≡ protection_of self.now }
    {
        let prot = permission_of(self.prot)?;
        Some(Command::Mprotect {
            pid: self.pid,
            addr: self.addr,
            len: self.len,
            prot,
        })
    }

    /// An msync.
    fn sync(&self, mode: MsyncMode) -> Option<Command>
        ensures { result ≡ sync_of self.now mode }
    {
        Some(Command::Msync {
            pid: self.pid,
            addr: self.addr,
            len: self.len,
            mode,
        })
    }

    /// A load.
    fn load(&self) -> Option<Command>
        ensures { result ≡ load_of self.now }
    {
        let width = width_of(self.len)?;
        Some(Command::Load {
            pid: self.pid,
            addr: self.addr,
            width,
        })
    }

    /// The command that is asked for; `None` where it is none.
    fn command(&self) -> Option<Command>
        ensures { result ≡ command_of self.now }
    {
        let (pid, addr, len) = (self.pid, self.addr, self.len);
        match self.kind {
            0 => Some(Command::Spawn),
            1 => Some(Command::Fork { pid }),
            2 => Some(Command::Exit { pid }),
            3 => self.mapping(),
            4 => Some(Command::Munmap { pid, addr, len }),
            5 => self.protection(),
            6 => Some(Command::Dontneed { pid, addr, len }),
            7 => self.sync(MsyncMode::Sync),
            8 => self.sync(MsyncMode::Async),
            9 => self.load(),
            10 => Some(Command::Fetch { pid, addr }),
            12 => Some(Command::Truncate {
                file: self.value,
                length: len,
            }),
            _ => None,
        }
    }

    /// What is asked for; `None` where the numbers are no request.
    pub(crate) fn request(&self) -> Option<Request>
        ensures { result ≡ request_of self.now }
    {
        if self.kind == 11 {
            return Some(Request::Touch {
                pid: self.pid,
                addr: self.addr,
            });
        }
        let command = self.command()?;
        Some(Request::Carry(command))
    }
}
