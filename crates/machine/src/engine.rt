//! The machine of one mode: commands in, replies out, over a store that survives stops.
ghost use Rattle.sized_stores.specs.Store.{disk_of};
ghost use Rattle.std.specs.Prelude.{◌≡◌, ◌≤◌, ◌<◌, ◌↔◌, is_some, true, IfSome, IsNone};
ghost use Rattle.vm_types.specs.State.{State, IsRunning};
ghost use Rattle.machine.specs.Engine.{IsSoundEngine, EngineShows};
ghost use Rattle.residency.specs.Parts.{IsFit};
ghost use Rattle.residency.specs.Picture.{picture_of, is_live};
ghost use Rattle.vm_types.specs.Replies.{reply_of, told};
ghost use Rattle.vm_types.specs.Step.{noted_fault};
ghost use Rattle.vm_types.specs.declared.refusal.Fault.{Fault};
ghost use Rattle.machine.specs.EngineCommands.{EngineCarriesOut};
ghost use Rattle.machine.specs.Tidy.{IsTidy};

use crate::fault_log::FaultLog;
use disk_model::{SectorDisk, WriteZeros};
use residency::Core;
use sized_stores::SizedStore;
use spaces::{MapRequest, ProtectRequest, RegionRoom, SyncRoom};
use vm_types::{Answer, Command, History, Levels, Reply};

/// The machine over a store device `D` and a swap device `E` whose processes have address spaces of the mode `M`, made by `boot`.
/// What `Machine` promises it promises for its mode.
#[derive(Drop)]
pub struct Engine<D, E, M: Levels> {
    pub(crate) core: Core<D, E, M>,
    /// Whether an msync failed.
    pub(crate) halted: bool,
    /// The last faults of accesses.
    pub(crate) past: FaultLog,
    /// Where msyncs list what they take.
    pub(crate) sync_room: SyncRoom,
    /// Where calls put the regions that a process gets.
    pub(crate) region_room: RegionRoom<M>,
}

impl<D: SectorDisk, E: SectorDisk, M: Levels> Engine<D, E, M> {
    /// The store's device.
    pub fn store(&self) -> &D
        ensures { result.now ≡ disk_of self.now.core.store }
    {
        self.core.store.store.disk()
    }

    /// The store's device, given back. What was stored, and lengths that files got, are lost where they weren't made durable.
    pub fn into_store(self) -> D
    where
        E: Drop,
        ensures { result ≡ (disk_of self.core.store) }
    {
        device_of(self.core.store)
    }

    /// Whether an msync returned `EIO`: every command then returns `Halted`, and none otherwise.
    pub fn is_halted(&self) -> bool
        ensures halted { result ≡ self.now.halted }
        ensures ends { (s : State) → EngineShows D.SectorDisk E.SectorDisk self.now s → result ≡ is_some s.ends }
    {
        self.halted
    }

    /// All memory as one value, to be looked at; `None` exactly where the machine has halted.
    pub fn memory(&self) -> Option<&Core<D, E, M>>
        requires sound { IsSoundEngine D.SectorDisk E.SectorDisk self.now }
        ensures memory { IfSome result (λ core. core.now ≡ self.now.core) }
        ensures fit { IfSome result (λ core. IsFit (picture_of core.now)) }
        ensures none { IsNone result ↔ (self.now.halted ≡ true) }
    {
        if self.halted { None } else { Some(&self.core) }
    }

    /// How many accesses have found the translation of their page kept from an earlier one (RISC-V Privileged Specification,
    /// "Supervisor Memory-Management Fence Instruction"); it stays at its greatest value. No clause speaks of it.
    pub fn hits(&self) -> u64 {
        self.core.frames.hits()
    }

    /// The last faults of accesses, oldest first, each with its process: 16 at most.
    pub fn history(&self) -> History
        ensures { result ≡ self.now.past }
    {
        self.past.history()
    }
}

impl<D: WriteZeros, E: SectorDisk, M: Levels> Engine<D, E, M> {
    /// Carries out one command, as `step` does, and returns the reply in the few bytes that all but a history take. `None` where
    /// the reply is the history, which `history` returns. It takes no memory of the host.
    pub fn carry_out(&mut self, command: Command) -> Option<Answer>
        requires sound { IsSoundEngine D.SectorDisk E.SectorDisk self.old }
        ensures { EngineCarriesOut D.SectorDisk E.SectorDisk self.old self.new command (told self.new.past result) }
    {
        if self.halted {
            return Some(Answer::Halted);
        }
        let core = &mut self.core;
        let room = &mut self.region_room;
        match command {
            Command::Spawn => Some(spaces::spawn(core)),
            Command::Fork { pid } => Some(spaces::fork(core, pid)),
            Command::Exit { pid } => Some(spaces::exit(core, pid)),
            Command::Mmap {
                pid,
                addr,
                len,
                prot,
                source,
                placing,
            } => {
                let request = MapRequest {
                    addr,
                    len,
                    prot,
                    source,
                    placing,
                };
                Some(spaces::mmap(core, room, pid, request))
            }
            Command::Munmap { pid, addr, len } => Some(spaces::munmap(core, room, pid, addr, len)),
            Command::Mprotect {
                pid,
                addr,
                len,
                prot,
            } => {
                let request = ProtectRequest { addr, len, prot };
                Some(spaces::mprotect(core, room, pid, request))
            }
            Command::Msync {
                pid,
                addr,
                len,
                mode,
            } => Some(self.msync(pid, addr, len, mode)),
            Command::Dontneed { pid, addr, len } => Some(spaces::dontneed(core, pid, addr, len)),
            Command::Truncate { file, length } => Some(spaces::truncate(core, file, length)),
            Command::Load { pid, addr, width } => {
                let answer = spaces::load(core, pid, addr, width);
                Some(self.noted(pid, answer))
            }
            Command::Store { pid, addr, stored } => {
                let answer = spaces::store(core, pid, addr, stored);
                Some(self.noted(pid, answer))
            }
            Command::Fetch { pid, addr } => {
                let answer = spaces::fetch(core, pid, addr);
                Some(self.noted(pid, answer))
            }
            Command::PastFaults => None,
        }
    }

    /// Carries out one command. It takes no memory of the host. A command that would succeed may stall, and then has
    /// changed nothing that a process or a file shows: `NoFrames` only where memory has fewer frames than the tables of the
    /// state after it and three more, `NoSwap` only where there are fewer slots than pages that processes have of their own,
    /// touched file pages and stored pages of shared anonymous memory, `SwapDevice` and `StoreDevice` only where that device
    /// failed in this call. Where the store fails in an msync it returns `EIO`, only where the device failed in this call, and
    /// the machine halts: from then on every command returns `Halted`. For want of room in the store an msync returns `ENOSPC` only
    /// where that has none for the lengths of files and the pages that it takes; then nobody sees a change, and the machine goes on.
    pub fn step(&mut self, command: Command) -> Reply
        requires sound { IsSoundEngine D.SectorDisk E.SectorDisk self.old }
        ensures carries { EngineCarriesOut D.SectorDisk E.SectorDisk self.old self.new command result }
        // No bytes are kept of shared anonymous memory that no process has.
        ensures tidy { (s : State) → EngineShows D.SectorDisk E.SectorDisk self.new s → IsRunning s → IsTidy s }
    {
        match self.carry_out(command) {
            Some(answer) => answer.reply(),
            None => Reply::Past(self.past.history()),
        }
    }

    /// What an access of a process returned. The fault of one that faulted is kept.
    fn noted(&mut self, pid: u64, answer: Answer) -> Answer
        requires fit { IsFit (picture_of self.old.core) }
        ensures answer { result ≡ answer }
        ensures core { self.new.core ≡ self.old.core }
        ensures halted { self.new.halted ≡ self.old.halted }
        ensures room { self.new.sync_room ≡ self.old.sync_room }
        ensures past { ((fault : Fault) → answer ≡ Answer.Faulted fault → is_live (picture_of self.old.core) pid ≡ true)
            → self.new.past ≡ noted_fault pid (reply_of answer) self.old.past }
    {
        if let Answer::Faulted(fault) = answer {
            if let Some(pid) = self.core.live(pid) {
                self.past.note(pid, fault);
            }
        }
        answer
    }
}

/// The device of a store, given back.
pub(crate) fn device_of<D: SectorDisk>(store: SizedStore<D>) -> D
    ensures { result ≡ disk_of store }
{
    store.store.into_disk()
}
