//! Laws of accesses that hardware makes by itself, where the tables of a machine grant them. The functions do nothing: each one's contract is the law.
ghost use Rattle.std.specs.Prelude.{◌≡◌, ◌/◌, ◌%◌, ℕ, List, false};
ghost use Rattle.vm_types.specs.State.{State};
ghost use Rattle.vm_types.specs.declared.access.Access.TheVariants as Access;
ghost use Rattle.vm_types.specs.declared.access.StoredValue.{StoredValue};
ghost use Rattle.vm_types.specs.declared.command.Command.{Command};
ghost use Rattle.vm_types.specs.declared.command.Command.TheVariants.{Fetch, Load, Store};
ghost use Rattle.vm_types.specs.declared.number.Phys.{Phys};
ghost use Rattle.vm_types.specs.declared.reply.Reply.{Reply};
ghost use Rattle.vm_types.specs.declared.reply.Reply.TheVariants.{Done, Value};
ghost use Rattle.vm_types.specs.Width.{byte_count};
ghost use Rattle.vm_types.specs.declared.width.Width.{Width};
ghost use Rattle.vm_types.specs.declared.width.Width.TheVariants.{Four};
ghost use Rattle.machine.specs.Commands.{DoesEachAsTold};
ghost use Rattle.machine.specs.Hardware.{SparesGranted, TakesStep, HardwareSteps, IsBesideTables, IsGrantedBy, IsMadeByHardware, RunsThrough, TranslatesAlike};
ghost use Rattle.machine.specs.Machine.{halted_of, store_of, swap_of, IsSoundMachine, Shows};
ghost use Rattle.machine.specs.declared.machine.Machine.{Machine};

use disk_model::SectorDisk;

/// An access that hardware makes by itself, where the tables of a sound machine grant it, is the command of that access: all that `Machine::step`
/// promises of the command holds, with the number that hardware read as the reply.
pub fn hardware_access<D: SectorDisk, E: SectorDisk>(_store: &D, _swap: &E)
    ensures { (old new : Machine D E) (command : Command) (reply : Reply) → IsSoundMachine D.SectorDisk E.SectorDisk old
        → IsMadeByHardware old new command reply → TakesStep D.SectorDisk E.SectorDisk old new command reply }
{}

/// Where hardware could read a number, `Machine::step` returns that number and no other reply, as long as the devices keep the disk model.
pub fn hardware_tells<D: SectorDisk, E: SectorDisk>(_store: &D, _swap: &E)
    ensures load { (old new : Machine D E) (s : State) (pid addr : ℕ) (width : Width) (told reply : Reply) → IsSoundMachine D.SectorDisk E.SectorDisk old
        → Shows D.SectorDisk E.SectorDisk old s → D.keeps_model (store_of old) → E.keeps_model (swap_of old)
        → IsMadeByHardware old old (Load pid addr width) told → TakesStep D.SectorDisk E.SectorDisk old new (Load pid addr width) reply → reply ≡ told }
    ensures fetch { (old new : Machine D E) (s : State) (pid addr : ℕ) (told reply : Reply) → IsSoundMachine D.SectorDisk E.SectorDisk old
        → Shows D.SectorDisk E.SectorDisk old s → D.keeps_model (store_of old) → E.keeps_model (swap_of old)
        → IsMadeByHardware old old (Fetch pid addr) told → TakesStep D.SectorDisk E.SectorDisk old new (Fetch pid addr) reply → reply ≡ told }
{}

/// After `Machine::step` returned a number, or that a store is done, the tables grant that access, so that hardware makes it by itself when the process asks again.
pub fn hardware_goes_on<D: SectorDisk, E: SectorDisk>(_store: &D, _swap: &E)
    ensures load { (old new : Machine D E) (pid addr n : ℕ) (width : Width) → addr % byte_count width ≡ 0
        → TakesStep D.SectorDisk E.SectorDisk old new (Load pid addr width) (Value width n) → (place : Phys) × IsGrantedBy new pid addr width Access.Load place }
    ensures fetch { (old new : Machine D E) (pid addr n : ℕ) → addr % 4 ≡ 0
        → TakesStep D.SectorDisk E.SectorDisk old new (Fetch pid addr) (Value Four n) → (place : Phys) × IsGrantedBy new pid addr Four Access.Fetch place }
    ensures store { (old new : Machine D E) (pid addr : ℕ) (stored : StoredValue) (width : Width) → addr % byte_count width ≡ 0 → halted_of new ≡ false
        → TakesStep D.SectorDisk E.SectorDisk old new (Store pid addr stored) Done → (place : Phys) × IsGrantedBy new pid addr width Access.Store place }
{}

/// After `Machine::step` returned a number, or that a store is done, for an access that wants one frame at most, every other page that the tables
/// granted keeps its entry but for A, unless every frame that might have been given up had its mark: each has its second chance.
pub fn hardware_chance<D: SectorDisk, E: SectorDisk>(_store: &D, _swap: &E)
    ensures load { (old new : Machine D E) (pid addr n : ℕ) (width : Width) → IsSoundMachine D.SectorDisk E.SectorDisk old → halted_of old ≡ false
        → TakesStep D.SectorDisk E.SectorDisk old new (Load pid addr width) (Value width n) → SparesGranted old new pid (addr / 4096) Access.Load }
    ensures fetch { (old new : Machine D E) (pid addr n : ℕ) → IsSoundMachine D.SectorDisk E.SectorDisk old → halted_of old ≡ false
        → TakesStep D.SectorDisk E.SectorDisk old new (Fetch pid addr) (Value Four n) → SparesGranted old new pid (addr / 4096) Access.Fetch }
    ensures store { (old new : Machine D E) (pid addr : ℕ) (stored : StoredValue) → IsSoundMachine D.SectorDisk E.SectorDisk old → halted_of old ≡ false
        → TakesStep D.SectorDisk E.SectorDisk old new (Store pid addr stored) Done → SparesGranted old new pid (addr / 4096) Access.Store }
{}

/// Such an access changes no table, so that what hardware has kept of walks since its last fence stays true (RISC-V Privileged Specification,
/// "Supervisor Memory-Management Fence Instruction").
pub fn hardware_fence<D: SectorDisk, E: SectorDisk>(_store: &D, _swap: &E)
    ensures { (old new : Machine D E) (command : Command) (reply : Reply) → IsSoundMachine D.SectorDisk E.SectorDisk old
        → IsMadeByHardware old new command reply → TranslatesAlike old new }
{}

/// A store that the tables grant goes to a frame that was handed out and is no table: never to a free frame or the zero page. There is a machine
/// after it.
pub fn hardware_store<D: SectorDisk, E: SectorDisk>(_store: &D, _swap: &E)
    ensures frame { (old : Machine D E) (pid addr : ℕ) (stored : StoredValue) (place : Phys) → IsSoundMachine D.SectorDisk E.SectorDisk old
        → halted_of old ≡ false → IsGrantedBy old pid addr stored.width Access.Store place → IsBesideTables old (place.0 / 4096) }
    ensures after { (old : Machine D E) (pid addr : ℕ) (stored : StoredValue) (place : Phys) → IsSoundMachine D.SectorDisk E.SectorDisk old
        → halted_of old ≡ false → IsGrantedBy old pid addr stored.width Access.Store place
        → (new : Machine D E) × IsMadeByHardware old new (Store pid addr stored) Done }
{}

/// Calls of `Machine::step` and accesses that hardware makes by itself, in any order, are a run of commands: all that
/// `Machine::run` promises of commands and their replies holds of them, and the machines of that run are those after each of them.
pub fn hardware_run<D: SectorDisk, E: SectorDisk>(_store: &D, _swap: &E)
    ensures does { (old new : Machine D E) (commands : List Command) (replies : List Reply) → IsSoundMachine D.SectorDisk E.SectorDisk old
        → HardwareSteps D.SectorDisk E.SectorDisk old commands replies new → DoesEachAsTold D.SectorDisk E.SectorDisk old new replies }
    ensures run { (old new : Machine D E) (commands : List Command) (replies : List Reply) → IsSoundMachine D.SectorDisk E.SectorDisk old
        → (steps : HardwareSteps D.SectorDisk E.SectorDisk old commands replies new)
        → (s : State) → Shows D.SectorDisk E.SectorDisk old s → D.keeps_model (store_of new) → E.keeps_model (swap_of new)
        → RunsThrough D.SectorDisk E.SectorDisk old new commands replies steps s }
{}
