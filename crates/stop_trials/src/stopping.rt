//! A device that stops where it is told to.
ghost use Rattle.std.specs.Prelude.{◌≡◌, ◌<◌, ◌≤◌, ◌+◌, ◌^◌, ℕ, Some, None, is_err, is_some, IfOk, IfSome, OnOk, OnErr, false};
ghost use Rattle.std.proofs.Common.{inl};
ghost use Rattle.disk_model.specs.Stop.{IsOfPage, Names};
ghost use Rattle.disk_model.specs.Sectors.{part_of};
ghost use Rattle.disk_model.specs.Plan.{is_at};
ghost use Rattle.disk_model.specs.SimDisk.{sectors_in, sector_of, IsUnsynced, moment_of, LeftSince, only_present, failures_of, asked_of, disk_counts};
ghost use Rattle.stop_trials.specs.Fillings.{left_with};
ghost use Rattle.stop_trials.specs.declared.fillings.Filling.TheVariants.{Old};

use crate::fillings::Filling;
use disk_model::{DiskFault, SectorDisk, SimDisk, WriteZeros, parts};
use std::alloc::{AllocError, Global};

/// What a device is asked for that a stop can come in.
#[derive(Clone, Copy, Debug)]
pub enum Event {
    /// The write of that sector.
    Write(u64),
    /// A sync.
    Sync,
}

/// A device in memory that counts its events, and stops in the one that it is told: this fails, and so does every later call. It
/// may be told to drop a sync, which then succeeds and syncs nothing: such a device keeps no model.
#[derive(Drop)]
pub(crate) struct StoppingDisk {
    disk: SimDisk,
    events: u64,
    stop: Option<u64>,
    stopped: Option<Event>,
    drops: Option<u64>,
    ghost runs: { (disk_counts disk).stopped ≡ false },
    ghost no_stop: { (disk_counts disk).stop ≡ None },
}

/// Whether that event is the one to stop in.
fn is_at(stop: Option<u64>, event: u64) -> bool
    ensures { result ≡ is_at stop event }
{
    match stop {
        Some(k) => k == event,
        None => false,
    }
}

/// A fault where some part of a call failed.
fn fault_if(failed: bool) -> Result<(), DiskFault>
    ensures { is_err result ≡ failed }
{
    if failed { Err(DiskFault) } else { Ok(()) }
}

impl StoppingDisk {
    ghost use Rattle.stop_trials.specs.Stopping.{plan_of, plan_after_event, failing_call};

    /// A device of what another one holds that is synced. It stops in event `stop`, the first being 1, or never, and drops the
    /// sync that is event `drops`, or none.
    ///
    /// # Errors
    ///
    /// `AllocError` where the host has no room for the sectors.
    pub(crate) fn new(
        alloc: Global,
        image: &SimDisk,
        stop: Option<u64>,
        drops: Option<u64>,
    ) -> Result<StoppingDisk, AllocError>
        ensures plan { IfOk result (λ d. plan_of d ≡ record { events = 0; stop = stop; stopped = None; drops = drops }) }
        ensures size { IfOk result (λ d. sectors_in d.disk ≡ sectors_in image.now) }
        ensures synced { IfOk result (λ d. (k : ℕ) → IsUnsynced d.disk k → ⊥) }
        ensures bytes { IfOk result (λ d. (k : ℕ) → k < sectors_in image.now → sector_of d.disk k ≡ left_with Old image.now k) }
    {
        let disk = Filling::Old.left(alloc, image)?;
        Ok(StoppingDisk {
            disk,
            events: 0,
            stop,
            stopped: None,
            drops,
        })
    }

    /// How many events it was asked for.
    pub(crate) fn events(&self) -> u64
        ensures { result ≡ self.now.events }
    {
        self.events // the one that it stopped in too
    }

    /// The event of that number, if it was told to stop in it and has.
    pub(crate) fn stopped_in(&self, number: u64) -> Option<Event>
        ensures told { IfSome result (λ event. (self.now.stop ≡ Some number) × (self.now.stopped ≡ Some event)) }
        ensures none { self.now.stop ≡ Some number → result ≡ self.now.stopped }
    {
        if is_at(self.stop, number) {
            self.stopped
        } else {
            None
        }
    }

    /// What it holds, and what of it is synced.
    pub(crate) fn disk(&self) -> &SimDisk
        ensures { result.now ≡ self.now.disk }
    {
        &self.disk
    }

    /// Where it has stopped, its next call fails.
    fn arm(&mut self)
        ensures { self.new ≡ record self.old { disk = record self.old.disk { fail = Some (failing_call self.old.stopped self.old.disk.calls) } } }
    {
        // No call is number 0.
        let failing = match self.stopped {
            Some(_) => self.disk.calls().saturating_add(1),
            None => 0,
        };
        self.disk.fail_at(failing);
    }

    /// Counts an event, in which it may stop.
    fn note(&mut self, event: Event)
        ensures plan { plan_of self.new ≡ plan_after_event event (plan_of self.old) }
        ensures disk { self.new.disk ≡ record self.old.disk { fail = Some (failing_call self.new.stopped self.old.disk.calls) } }
    {
        self.events = self.events.saturating_add(1);
        if self.stopped.is_none() && is_at(self.stop, self.events) {
            self.stopped = Some(event);
        }
        self.arm();
    }
}

impl SectorDisk for StoppingDisk {
    ghost use Rattle.stop_trials.specs.Stopping.{AnswersAsDisk, ChangesSector, ChangesSectors, HoldsAsBefore, DropsNoSync, StopsAsTold, plan_after_event, plan_after_writes, plan_of};

    ghost sector_count = { λ d. sectors_in d.disk };

    ghost content = { λ d. sector_of d.disk };

    ghost unsynced = { λ d. IsUnsynced d.disk };

    ghost moment = { λ d. moment_of d.disk };

    ghost left_since = { λ d. LeftSince d.disk };

    ghost failures = { λ d. failures_of d.disk };

    ghost asked = { λ d. asked_of d.disk };

    ghost keeps_model = { DropsNoSync };

    ghost counts_now = { λ d t c kept le now. inl now };

    ghost only_now = { λ d c kept left. only_present d.disk c left };

    fn sectors(&self) -> u64 {
        self.disk.sectors()
    }

    fn read(&mut self, n: u64, to: &mut [u8; 512]) -> Result<(), DiskFault>
        requires { n < sectors_in self.old.disk }
        ensures keeps { AnswersAsDisk self.old self.new result }
        ensures asks { Names (λ k. k ≡ n) (asked_of self.old.disk) (asked_of self.new.disk) }
        ensures gives { OnOk result (to.new ≡ sector_of self.old.disk n) }
        ensures holds { HoldsAsBefore self.old self.new }
        ensures fails { is_err result ≡ is_some self.old.stopped }
        ensures plan { plan_of self.new ≡ plan_of self.old }
    {
        self.arm();
        self.disk.read(n, to)
    }

    fn read_page(&mut self, n: u64, to: &mut [u8; 4096]) -> Result<(), DiskFault>
        requires room { n + 8 ≤ sectors_in self.old.disk }
        requires fits { n < 2 ^ 60 }
        ensures keeps { AnswersAsDisk self.old self.new result }
        ensures asks { Names (IsOfPage n) (asked_of self.old.disk) (asked_of self.new.disk) }
        ensures gives { OnOk result ((i : ℕ) → i < 8 → part_of to.new i ≡ sector_of self.old.disk (n + i)) }
        ensures holds { HoldsAsBefore self.old self.new }
        ensures plan { plan_of self.new ≡ plan_of self.old }
    {
        self.arm();
        self.disk.read_page(n, to)
    }

    fn write(&mut self, n: u64, from: &[u8; 512]) -> Result<(), DiskFault>
        requires { n < sectors_in self.old.disk }
        ensures keeps { AnswersAsDisk self.old self.new result }
        ensures asks { Names (λ k. k ≡ n) (asked_of self.old.disk) (asked_of self.new.disk) }
        ensures written { OnOk result (sector_of self.new.disk n ≡ from.now) }
        ensures changes { ChangesSector n self.old self.new }
        ensures stops { StopsAsTold (plan_after_event (Event.Write n) (plan_of self.old)) self.new result }
    {
        self.note(Event::Write(n));
        self.disk.write(n, from)
    }

    /// It is eight writes, in each of which it may stop.
    fn write_page(&mut self, n: u64, from: &[u8; 4096]) -> Result<(), DiskFault>
        requires room { n + 8 ≤ sectors_in self.old.disk }
        requires fits { n < 2 ^ 60 }
        ensures keeps { AnswersAsDisk self.old self.new result }
        ensures asks { Names (IsOfPage n) (asked_of self.old.disk) (asked_of self.new.disk) }
        ensures written { OnOk result ((i : ℕ) → i < 8 → sector_of self.new.disk (n + i) ≡ part_of from.now i) }
        ensures changes { ChangesSectors n self.old self.new }
        ensures stops { StopsAsTold (plan_after_writes 8 n (plan_of self.old)) self.new result }
    {
        let mut failed = false;
        for (i, sector) in parts(from).iter().enumerate() {
            failed = self.write(n + i as u64, sector).is_err();
        }
        fault_if(failed)
    }

    /// A sync that it drops is none, and succeeds.
    fn sync(&mut self) -> Result<(), DiskFault>
        ensures keeps { AnswersAsDisk self.old self.new result }
        ensures asks { (k : ℕ) → asked_of self.new.disk k ≡ asked_of self.old.disk k }
        ensures same { sector_of self.new.disk ≡ sector_of self.old.disk }
        ensures synced { DropsNoSync self.new → OnOk result ((k : ℕ) → IsUnsynced self.new.disk k → ⊥) }
        ensures unsynced { (k : ℕ) → IsUnsynced self.new.disk k → IsUnsynced self.old.disk k }
        ensures still { OnErr result ((k : ℕ) → IsUnsynced self.old.disk k → IsUnsynced self.new.disk k) }
        ensures stops { StopsAsTold (plan_after_event Event.Sync (plan_of self.old)) self.new result }
    {
        self.note(Event::Sync);
        if self.stopped.is_none() && is_at(self.drops, self.events) {
            return Ok(());
        }
        self.disk.sync()
    }
}

/// Zeros are written page by page.
impl WriteZeros for StoppingDisk {}
