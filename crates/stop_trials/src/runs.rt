//! Runs of a trace, to its end or to a stop.
ghost use Rattle.std.specs.Prelude.{◌≡◌, ◌≤◌, ◌&&◌, ◌++◌, ◌∷◌, [], ℕ, IfOk, OnOk, length};
ghost use Rattle.std.specs.declared.alloc.Global.{Global};
ghost use Rattle.std.specs.declared.vec.Vec.{Vec};
ghost use Rattle.vm_types.specs.Prefix.{is_msync, is_done};
ghost use Rattle.stores.specs.NewStores.{IsSizedNew};
ghost use Rattle.stop_trials.specs.Lines.{acknowledged_in};
ghost use Rattle.stop_trials.specs.Sized.{IsSizedNew-prop};

use crate::faults::TrialFault;
use crate::fillings::Filling;
use crate::recovery::recovered;
use crate::stopping::StoppingDisk;
use disk_model::{SectorDisk, SimDisk};
use lives::live;
use machine::{BootFault, Config, MAX_SLOTS};
use runner::Devices;
use std::alloc::{AllocError, Global};
use stores::NewStore;
use vm_types::{Command, Reply};

/// The sectors of a slot.
const SLOT_SECTORS: u64 = 8;

/// What is run in each trial: the commands of a trace on a machine of that size, over a store device of what the image holds. The
/// device of a run that is stopped may drop a sync.
#[derive(Drop)]
pub(crate) struct Setting<'a> {
    pub alloc: Global,
    pub image: &'a SimDisk,
    pub store: NewStore,
    ghost sized: { IsSizedNew store } by { IsSizedNew-prop store },
    pub config: Config,
    pub commands: &'a [Command],
    pub drops: Option<u64>,
}

/// A run that is over: the store's device as it left it, and the replies to its commands, none where no machine started.
#[derive(Drop)]
pub(crate) struct Run<D> {
    pub device: D,
    pub replies: Vec<Reply>,
}

/// Whether a command is an msync.
fn is_msync(command: &Command) -> bool
    ensures { result ≡ is_msync command.now }
{
    matches!(command, Command::Msync { .. })
}

/// Whether a reply is `ok`.
fn is_done(reply: &Reply) -> bool
    ensures { result ≡ is_done reply.now }
{
    matches!(reply, Reply::Done)
}

/// Whether a command was an msync that returned `ok`.
fn acknowledges(command: &Command, reply: &Reply) -> bool
    ensures { result ≡ (is_msync command.now && is_done reply.now) }
{
    is_msync(command) && is_done(reply)
}

/// How many of the commands were msyncs that returned `ok`, by the replies to the first of them.
pub(crate) fn acknowledged_in(commands: &[Command], replies: &[Reply]) -> usize
    requires { length replies.now ≤ length commands.now }
    ensures { result ≡ acknowledged_in commands.now replies.now }
{
    let mut acknowledged = 0;
    for (i, reply) in replies.iter().enumerate() {
        if acknowledges(&commands[i], reply) {
            acknowledged += 1;
        }
    }
    acknowledged
}

/// The sectors that the swap device of so many slots has at least.
fn swap_sectors(slots: u32) -> u64 {
    if slots <= MAX_SLOTS {
        SLOT_SECTORS * u64::from(slots)
    } else {
        0
    }
}

impl Setting<'_> {
    ghost use Rattle.stop_trials.specs.Runs.{AreStates, EndsWith, IsSetUp, IsTrialRun, IsWholeRun};

    /// The store device, which stops in that event, and an empty swap device.
    fn devices(&self, stop: u64) -> Result<Devices<StoppingDisk, SimDisk>, AllocError>
        ensures { IfOk result (λ devices. IsSetUp self.now stop devices.store) }
    {
        let store = StoppingDisk::new(self.alloc, self.image, Some(stop), self.drops)?;
        let swap = SimDisk::new(self.alloc, swap_sectors(self.config.slots))?;
        Ok(Devices { store, swap })
    }

    /// Adds what the files hold where a run of the first of the commands, so many, ends and leaves nothing that was not synced.
    fn add_state(&self, count: usize, states: &mut Vec<Vec<u8>>) -> Result<(), TrialFault>
        requires { count ≤ length self.now.commands.now }
        ensures { OnOk result ((bytes : Vec ℕ Global) × (states.new.items ≡ states.old.items ++ bytes ∷ [])
            × EndsWith ⟦<SimDisk as SectorDisk>⟧ self.now count bytes.items) }
    {
        let ran = self.whole_run(&self.commands[..count])?;
        let left = Filling::Old.left(self.alloc, &ran.device)?;
        let bytes = recovered(self.alloc, left)?;
        match states.push(bytes) {
            Ok(()) => Ok(()),
            Err(_) => Err(TrialFault::OutOfMemory),
        }
    }

    /// What the files hold at first, and after each msync that returns `ok` where nothing stops the run.
    ///
    /// # Errors
    ///
    /// `Boot` where the machine doesn't start, `OutOfMemory`, and what `recovered` says.
    pub(crate) fn states(&self) -> Result<Vec<Vec<u8>>, TrialFault>
        ensures { IfOk result (λ states. AreStates ⟦<SimDisk as SectorDisk>⟧ self.now states.items) }
    {
        let whole = self.whole_run(self.commands)?;
        let mut states = Vec::new(self.alloc);
        self.add_state(0, &mut states)?;
        for (i, reply) in whole.replies.iter().enumerate() {
            if acknowledges(&self.commands[i], reply) {
                self.add_state(i + 1, &mut states)?;
            }
        }
        Ok(states)
    }

    /// The run of these commands that nothing stops, on a new device of what the image holds.
    ///
    /// # Errors
    ///
    /// `Boot` where the machine doesn't start, and `OutOfMemory`.
    fn whole_run(&self, commands: &[Command]) -> Result<Run<SimDisk>, TrialFault>
        ensures lengths { IfOk result (λ ran. length ran.replies.items ≤ length commands.now) }
        ensures is { IfOk result (λ ran. IsWholeRun ⟦<SimDisk as SectorDisk>⟧ self.now commands.now ran.replies.items ran.device) }
    {
        let mut replies = vec![in self.alloc; Reply::Done; commands.len()]?;
        let store = Filling::Old.left(self.alloc, self.image)?;
        let swap = SimDisk::new(self.alloc, swap_sectors(self.config.slots))?;
        match live(
            self.alloc,
            self.config,
            Devices { store, swap },
            commands,
            replies.as_mut_slice(),
        ) {
            Ok(machine) => Ok(Run {
                device: machine.into_store(),
                replies,
            }),
            Err((fault, _)) => Err(TrialFault::Boot(fault)),
        }
    }

    /// The run of the commands that is stopped in event `stop` of the store's device, the first being 1, where it has one, or goes
    /// on to the last of them.
    ///
    /// # Errors
    ///
    /// `Boot` where the machine doesn't start for another reason than the stop, and `OutOfMemory`.
    pub(crate) fn run(&self, stop: u64) -> Result<Run<StoppingDisk>, TrialFault>
        ensures lengths { IfOk result (λ ran. length ran.replies.items ≤ length self.now.commands.now) }
        ensures is { IfOk result (λ ran. IsTrialRun ⟦<StoppingDisk as SectorDisk>⟧ ⟦<SimDisk as SectorDisk>⟧ self.now stop ran.replies.items ran.device) }
    {
        let mut replies = vec![in self.alloc; Reply::Done; self.commands.len()]?;
        let devices = self.devices(stop)?;
        match live(
            self.alloc,
            self.config,
            devices,
            self.commands,
            replies.as_mut_slice(),
        ) {
            Ok(machine) => Ok(Run {
                device: machine.into_store(),
                replies,
            }),
            Err((BootFault::Device, device)) => Ok(Run {
                device,
                replies: Vec::new(self.alloc),
            }),
            Err((fault, _)) => Err(TrialFault::Boot(fault)),
        }
    }
}
