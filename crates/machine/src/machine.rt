//! The machine: commands in, replies out, over a store that survives stops.
ghost use Rattle.std.specs.Prelude.{◌≡◌, IfOk, IfErr, length, is_some};
ghost use Rattle.vm_types.specs.Replies.{told};
ghost use Rattle.vm_types.specs.State.{State, IsRunning};
ghost use Rattle.machine.specs.Tidy.{IsTidy};
ghost use Rattle.machine.specs.Boot.{BootAccepts, BootLeaves, BootRefuses, Boots, StartsWith};
ghost use Rattle.machine.specs.Chain.{Runs};
ghost use Rattle.machine.specs.Commands.{DoesAsTold, DoesEachAsTold, KeepsModelsAndRoom};
ghost use Rattle.machine.specs.Machine.{store_of, swap_of, halted_of, past_of, IsSoundMachine, IsReadable, Shows, Meets};

use crate::boot::BootFault;
use crate::config::Config;
use crate::engine::Engine;
use disk_model::{SectorDisk, WriteZeros};
use std::alloc::Global;
use vm_types::{Answer, Command, History, Mode, Reply, Sv39, Sv48};

/// A machine over a store device `D` and a swap device `E`, made by `boot`: one for each mode of address spaces.
///
/// Its replies are those of the flat model in `vm_types`, and what a stop leaves in the store is what some of its
/// msyncs left, in order and each taken whole (Park, Kelly and Shen, Failure-Atomic msync, EuroSys 2013).
#[derive(Drop)]
pub enum Machine<D, E> {
    /// Three levels of page tables.
    Sv39(Engine<D, E, Sv39>),
    /// Four levels of page tables.
    Sv48(Engine<D, E, Sv48>),
}

impl<D: SectorDisk, E: SectorDisk> Machine<D, E> {
    /// The store's device.
    pub fn store(&self) -> &D
        ensures { result.now ≡ store_of self.now }
    {
        match self {
            Machine::Sv39(engine) => engine.store(),
            Machine::Sv48(engine) => engine.store(),
        }
    }

    /// The store's device, given back. What was stored, and lengths that files got, are lost where they weren't made durable.
    pub fn into_store(self) -> D
    where
        E: Drop,
        ensures { result ≡ store_of self }
    {
        match self {
            Machine::Sv39(engine) => engine.into_store(),
            Machine::Sv48(engine) => engine.into_store(),
        }
    }

    /// Whether an msync returned `EIO`: every command then returns `Halted`, and none otherwise.
    pub fn is_halted(&self) -> bool
        ensures halted { result ≡ halted_of self.now }
        ensures ends { (s : State) → Shows D.SectorDisk E.SectorDisk self.now s → result ≡ is_some s.ends }
    {
        match self {
            Machine::Sv39(engine) => engine.is_halted(),
            Machine::Sv48(engine) => engine.is_halted(),
        }
    }

    /// How many accesses have found the translation of their page kept from an earlier one (RISC-V Privileged Specification,
    /// "Supervisor Memory-Management Fence Instruction"); it stays at its greatest value. No clause speaks of it.
    pub fn hits(&self) -> u64 {
        match self {
            Machine::Sv39(engine) => engine.hits(),
            Machine::Sv48(engine) => engine.hits(),
        }
    }

    /// The last faults of accesses, oldest first, each with its process: 16 at most.
    pub fn history(&self) -> History
        ensures { result ≡ past_of self.now }
    {
        match self {
            Machine::Sv39(engine) => engine.history(),
            Machine::Sv48(engine) => engine.history(),
        }
    }
}

impl<D: WriteZeros, E: SectorDisk> Machine<D, E> {
    /// Carries out one command, as `step` does, and returns the reply in the few bytes that all but a history take. `None` where
    /// the reply is the history, which `history` returns. It takes no memory of the host.
    pub fn carry_out(&mut self, command: Command) -> Option<Answer>
        requires sound { IsSoundMachine D.SectorDisk E.SectorDisk self.old }
        ensures sound { IsSoundMachine D.SectorDisk E.SectorDisk self.new }
        ensures keeps { KeepsModelsAndRoom D.SectorDisk E.SectorDisk self.old self.new }
        ensures does { DoesAsTold D.SectorDisk E.SectorDisk self.old self.new command (told (past_of self.new) result) }
        ensures meets { (s : State) → Shows D.SectorDisk E.SectorDisk self.old s → IsReadable D.SectorDisk E.SectorDisk self.new s command
            → (t : State) × Meets D.SectorDisk E.SectorDisk self.old self.new s t command (told (past_of self.new) result) }
    {
        match self {
            Machine::Sv39(engine) => engine.carry_out(command),
            Machine::Sv48(engine) => engine.carry_out(command),
        }
    }

    /// Carries out one command. It takes no memory of the host. A command that would succeed may stall, and then has
    /// changed nothing that a process or a file shows: `NoFrames` only where memory has fewer frames than the tables of the
    /// state after it and three more, `NoSwap` only where there are fewer slots than pages that processes have of their own,
    /// touched file pages and stored pages of shared anonymous memory, `SwapDevice` and `StoreDevice` only where that device
    /// failed in this call. Where the store fails in an msync it returns `EIO`, only where the device failed in this call, and
    /// the machine halts: from then on every command returns `Halted`. For want of room in the store an msync returns `ENOSPC` only
    /// where that has none for the lengths of files and the pages that it takes; then nobody sees a change, and the machine goes on.
    pub fn step(&mut self, command: Command) -> Reply
        requires sound { IsSoundMachine D.SectorDisk E.SectorDisk self.old }
        ensures sound { IsSoundMachine D.SectorDisk E.SectorDisk self.new }
        ensures keeps { KeepsModelsAndRoom D.SectorDisk E.SectorDisk self.old self.new }
        ensures does { DoesAsTold D.SectorDisk E.SectorDisk self.old self.new command result }
        ensures meets { (s : State) → Shows D.SectorDisk E.SectorDisk self.old s → IsReadable D.SectorDisk E.SectorDisk self.new s command
            → (t : State) × Meets D.SectorDisk E.SectorDisk self.old self.new s t command result }
        // No bytes are kept of shared anonymous memory that no process has.
        ensures tidy { (s : State) → Shows D.SectorDisk E.SectorDisk self.new s → IsRunning s → IsTidy s }
    {
        match self {
            Machine::Sv39(engine) => engine.step(command),
            Machine::Sv48(engine) => engine.step(command),
        }
    }

    /// Carries out commands one after another, and writes the reply to each. Whatever the devices do, each failed at least once
    /// for each reply that names it, the store not at all where none does, and as many requests for a frame were refused as
    /// replies name the want of one or of a slot.
    pub fn run(&mut self, commands: &[Command], replies: &mut [Reply])
        requires sound { IsSoundMachine D.SectorDisk E.SectorDisk self.old }
        requires lengths { length replies.old ≡ length commands.now }
        ensures does { DoesEachAsTold D.SectorDisk E.SectorDisk self.old self.new replies.new }
        ensures run { (s : State) → Shows D.SectorDisk E.SectorDisk self.old s → D.keeps_model (store_of self.new) → E.keeps_model (swap_of self.new)
            → Runs D.SectorDisk E.SectorDisk self.old self.new commands.now replies.new s }
    {
        for (i, command) in commands.iter().enumerate() {
            replies[i] = self.step(*command);
        }
    }
}

impl<D: SectorDisk, E: SectorDisk + Drop> Machine<D, E> {
    /// Starts a machine over a store as a stop left it, or as whoever had it last in this program, who may have left writes
    /// unsynced: opens it, recovering it, and takes all memory that the machine will ever need. The sizes are looked at
    /// before the store is asked. An msync of the machine takes at most as many pages as the store always takes at once: of
    /// layout 2 1,023, of layout 4 504 for each block of the pool's maps.
    ///
    /// `Frames`, `Slots`, `BadLayout` and `BadJournal` come exactly where their texts say, unless another one
    /// comes first; `Device` exactly where the store device failed in this call. Each fault hands the store back.
    pub fn boot(
        alloc: Global,
        config: Config,
        store: D,
        swap: E,
    ) -> Result<Machine<D, E>, (BootFault, D)>
        ensures sound { IfOk result (λ m. IsSoundMachine D.SectorDisk E.SectorDisk m) }
        ensures boots { IfOk result (λ m. Boots D.SectorDisk E.SectorDisk store m) }
        ensures starts { IfOk result (λ m. StartsWith m config swap) }
        ensures accepts { IfOk result (λ m. BootAccepts D.SectorDisk config (E.sector_count swap) store (store_of m)) }
        ensures moments { IfOk result (λ m. BootLeaves D.SectorDisk store (store_of m)) }
        ensures refuses { IfErr result (λ e. BootRefuses D.SectorDisk config (E.sector_count swap) store e.0 e.1) }
        ensures err_moments { IfErr result (λ e. BootLeaves D.SectorDisk store e.1) }
    {
        match config.mode {
            Mode::Sv39 => match Engine::boot(alloc, config, store, swap) {
                Ok(engine) => Ok(Machine::Sv39(engine)),
                Err(fault) => Err(fault),
            },
            Mode::Sv48 => match Engine::boot(alloc, config, store, swap) {
                Ok(engine) => Ok(Machine::Sv48(engine)),
                Err(fault) => Err(fault),
            },
        }
    }
}
