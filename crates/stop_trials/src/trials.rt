//! Trials of stops, and what they come to.
ghost use Rattle.std.specs.Prelude.{◌≡◌, ◌≤◌, ◌↔◌, ℕ, List, IsTrue, IfOk, IfNone, IfSome};
ghost use Rattle.std.specs.declared.alloc.Global.{Global};
ghost use Rattle.std.specs.declared.vec.Vec.{Vec};
ghost use Rattle.disk_model.specs.Plan.{one_more};
ghost use Rattle.stores.specs.NewStores.{IsSizedNew};
ghost use Rattle.stop_trials.specs.Sized.{IsSizedNew-prop};

use crate::faults::TrialFault;
use crate::fillings::Filling;
use crate::parts::write_event;
use crate::recovery::recovered;
use crate::runs::{Setting, acknowledged_in};
use crate::standing::msyncs_standing;
use crate::stopping::{Event, StoppingDisk};
use disk_model::{SectorDisk, SimDisk};
use runner::write_bytes;
use std::alloc::Global;
use std::fmt::{self, Display, Formatter};
use std::io::Write;
use stores::{NewStore, OpenFault};

/// How many fillings a stop is tried with.
const FILLINGS: u64 = 5;

/// A stop, and for each filling what it leaves. `Display` gives its line.
#[derive(Clone, Copy, Debug)]
pub struct Trial {
    /// The number of the event, the first being 1.
    pub number: u64,
    /// What the event was.
    pub event: Event,
    /// The store, which says what its sectors are.
    pub store: NewStore,
    /// How many msyncs returned `ok`.
    pub acknowledged: usize,
    /// For each filling after how many msyncs the files stand; `None` where that is no number of them that holds each
    /// acknowledged one, or the store can't be opened.
    pub standing: [Option<usize>; 5],
    ghost sized: { IsSizedNew store } by { IsSizedNew-prop store },
}

impl Trial {
    ghost use Rattle.stop_trials.specs.Trials.{AllStand};

    /// Whether with each filling the files stand as after some of the msyncs, each acknowledged one among them.
    fn is_good(&self) -> bool
        ensures { IsTrue result ↔ AllStand self.now }
    {
        self.standing.iter().all(|standing| standing.is_some())
    }
}

impl Display for Trial {
    fn fmt<W: fmt::Write>(&self, f: &mut Formatter<W>) -> fmt::Result {
        write!(f, "stop {} ", self.number)?;
        write_event(self.store, self.event, f)?;
        write!(f, " acknowledged {} left", self.acknowledged)?;
        for standing in &self.standing {
            match standing {
                Some(msyncs) => write!(f, " {msyncs}")?,
                None => f.write_str(" -")?,
            }
        }
        if self.is_good() {
            Ok(())
        } else {
            f.write_str(" BAD")
        }
    }
}

/// How many stops were tried, and how many of them were bad. `Display` gives its line.
#[derive(Clone, Copy)]
pub(crate) struct Summary {
    pub stops: u64,
    pub bad: u64,
}

impl Summary {
    ghost use Rattle.stop_trials.specs.Trials.{AllStand};

    /// Counts a trial.
    fn add(&mut self, trial: &Trial)
        ensures stops { self.new.stops ≡ one_more self.old.stops }
        ensures good { AllStand trial.now → self.new.bad ≡ self.old.bad }
        ensures bad { (AllStand trial.now → ⊥) → self.new.bad ≡ one_more self.old.bad }
        ensures none { self.new.bad ≡ 0 → AllStand trial.now × (self.old.bad ≡ 0) }
    {
        self.stops = self.stops.saturating_add(1);
        if !trial.is_good() {
            self.bad = self.bad.saturating_add(1);
        }
    }

    /// The exit status: 0 exactly where no stop was bad, else 1.
    pub(crate) fn status(self) -> u8
        ensures bound { result ≤ 1 }
        ensures good { result ≡ 0 → self.bad ≡ 0 }
        ensures bad { self.bad ≡ 0 → result ≡ 0 }
    {
        if self.bad == 0 { 0 } else { 1 }
    }
}

impl Display for Summary {
    fn fmt<W: fmt::Write>(&self, f: &mut Formatter<W>) -> fmt::Result {
        let recoveries = self.stops.saturating_mul(FILLINGS);
        write!(
            f,
            "stops {} recoveries {recoveries} bad {}",
            self.stops, self.bad
        )
    }
}

/// Writes a line.
fn write_line<T: Display, W: Write>(
    alloc: Global,
    line: &T,
    writer: &mut W,
) -> Result<(), TrialFault> {
    let text = format!(in alloc; "{line}\n")?;
    match write_bytes(text.as_bytes(), writer) {
        Ok(()) => Ok(()),
        Err(_) => Err(TrialFault::WriteFailed),
    }
}

impl Setting<'_> {
    ghost use Rattle.stop_trials.specs.Runs.{AreStates};
    ghost use Rattle.stop_trials.specs.Trials.{IsJudged, StandWithEach, IsTrial, HasNoEvent, AreAllTried};

    /// After how many msyncs the files stand that a stop of that device leaves with that filling; `None` where that is no number of
    /// them that holds each acknowledged one, or what is left is no store.
    fn judged(
        &self,
        states: &[Vec<u8>],
        acknowledged: usize,
        device: &SimDisk,
        filling: Filling,
    ) -> Result<Option<usize>, TrialFault>
        ensures { IfOk result (IsJudged states.now acknowledged device.now filling) }
    {
        let left = filling.left(self.alloc, device)?;
        match recovered(self.alloc, left) {
            Ok(bytes) => Ok(msyncs_standing(states, acknowledged, bytes.as_slice())),
            Err(TrialFault::Open(OpenFault::BadLayout)) => Ok(None),
            Err(TrialFault::Open(OpenFault::BadJournal)) => Ok(None),
            Err(fault) => Err(fault),
        }
    }

    /// The same for each filling.
    fn judged_with_each(
        &self,
        states: &[Vec<u8>],
        acknowledged: usize,
        device: &SimDisk,
    ) -> Result<[Option<usize>; 5], TrialFault>
        ensures { IfOk result (StandWithEach states.now acknowledged device.now) }
    {
        let old = self.judged(states, acknowledged, device, Filling::Old)?;
        let zeros = self.judged(states, acknowledged, device, Filling::Zeros)?;
        let ones = self.judged(states, acknowledged, device, Filling::Ones)?;
        let half = self.judged(states, acknowledged, device, Filling::HalfOpen)?;
        let whole = self.judged(states, acknowledged, device, Filling::Open)?;
        Ok([old, zeros, ones, half, whole])
    }

    /// The trial of a stop in that event, or none where the run has no such event.
    fn trial(&self, states: &[Vec<u8>], number: u64) -> Result<Option<Trial>, TrialFault>
        ensures found { IfOk result (λ trial. IfSome trial (IsTrial ⟦<StoppingDisk as SectorDisk>⟧ ⟦<SimDisk as SectorDisk>⟧ self.now states.now number)) }
        ensures none { IfOk result (λ trial. IfNone trial (HasNoEvent ⟦<StoppingDisk as SectorDisk>⟧ ⟦<SimDisk as SectorDisk>⟧ self.now number)) }
    {
        let ran = self.run(number)?;
        let Some(event) = ran.device.stopped_in(number) else {
            return Ok(None);
        };
        let acknowledged = acknowledged_in(self.commands, ran.replies.as_slice());
        let standing = self.judged_with_each(states, acknowledged, ran.device.disk())?;
        Ok(Some(Trial {
            number,
            event,
            store: self.store,
            acknowledged,
            standing,
        }))
    }

    /// The trials of stops in each event whose number is a multiple of `every`, up to the first that the run does not have.
    /// A line of each goes to the writer.
    fn tried<W: Write>(
        &self,
        states: &[Vec<u8>],
        every: u64,
        writer: &mut W,
    ) -> Result<Summary, TrialFault>
        ensures { IfOk result (AreAllTried ⟦<StoppingDisk as SectorDisk>⟧ ⟦<SimDisk as SectorDisk>⟧ self.now states.now every) }
    {
        let mut summary = Summary { stops: 0, bad: 0 };
        for i in 1..u64::MAX {
            let number = every.saturating_mul(i);
            let judged = self.trial(states, number)?;
            let Some(found) = judged else {
                return Ok(summary);
            };
            write_line(self.alloc, &found, writer)?;
            summary.add(&found);
        }
        Ok(summary)
    }

    /// Tries a stop in each event of the store's device whose number is a multiple of `every`, and reports each in a line on the
    /// writer, and then what they come to. Where no stop was bad, each left with each filling the files as after some of the
    /// msyncs, all that were acknowledged by then among them.
    ///
    /// # Errors
    ///
    /// `Boot` where the machine does not start, `WriteFailed` where the writer fails or takes no bytes, and `OutOfMemory`.
    pub(crate) fn try_stops<W: Write>(
        &self,
        every: u64,
        writer: &mut W,
    ) -> Result<Summary, TrialFault>
        ensures { IfOk result (λ summary. (states : List (Vec ℕ Global)) × AreStates ⟦<SimDisk as SectorDisk>⟧ self.now states
            × AreAllTried ⟦<StoppingDisk as SectorDisk>⟧ ⟦<SimDisk as SectorDisk>⟧ self.now states every summary) }
    {
        let states = self.states()?;
        let summary = self.tried(states.as_slice(), every, writer)?;
        write_line(self.alloc, &summary, writer)?;
        Ok(summary)
    }
}
