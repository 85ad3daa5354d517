//! What each command did inside, found by comparing what frames held before it and after it.
ghost use Rattle.std.specs.Prelude.{◌≡◌, ◌≢◌, ◌<◌, ◌-◌, ◌^◌, ◌&&◌, not, false, length, min, slice_get, IfOk, IfSome, IsNone, OnOk, Some};
ghost use Rattle.frames.specs.FrameTable.{IsFrame};
ghost use Rattle.inspection.specs.Machines.{files_kept, memory_of};
ghost use Rattle.machine.specs.Machine.{halted_of, IsSoundMachine};
ghost use Rattle.watching.specs.Books.{HasCountRoom, IsBalanced, IsOfCause, IsOneMore, IsTallied, KeepsBooks, ReadsNothing};
ghost use Rattle.watching.specs.Changes.{IsLoss, IsSharing, content_in, is_gone, is_gone_from};
ghost use Rattle.ways.specs.Homes.{home_of};
ghost use Rattle.watching.specs.Noted.{KeepsNotes, NotesFrame, NotesFrames};

use crate::counts::{Count, Counts, FrameCounts};
use crate::cuts::Cut;
use crate::events::{Content, Event, Refuge, Source};
use disk_model::SectorDisk;
use inspection::{FrameView, Holding, Mapper, PageEntry, PageView, Place, Step};
use machine::Machine;
use std::alloc::{AllocError, Global};
use std::io::{self, Write};
use sv39_walk::Pte;
use vm_types::{FrameNo, PageKey, Pid};
use ways::{Behind, HomeView, Target, Uses, Way, attr_of, frame_in, home_of, slot_in, top_level};

/// What each frame held after the last command, and what was counted since the start.
#[derive(Drop)]
pub struct Ledger {
    frames: Vec<Held>,
    uses: Uses,
    pub counts: Counts,
    /// Whether each thing that happens is told.
    pub is_watching: bool,
}

/// A frame as it was.
#[derive(Clone, Copy)]
struct Held {
    view: FrameView,
    /// Of an own copy, a process that has it.
    owner: Option<Pid>,
}

/// A command whose frames are compared.
#[derive(Drop)]
pub(crate) struct Inquiry<'a, D, E> {
    /// The machine after it.
    pub machine: &'a Machine<D, E>,
    /// The page of an access.
    pub target: Option<&'a Target>,
    /// The page of a file or of shared anonymous memory that it may have brought into a frame, as it was before.
    pub behind: Option<Behind>,
    /// The file that it has given another length.
    pub cut: Option<Cut>,
    /// The frame that the page of an access has as its own now, and had not before.
    pub gained: Option<FrameNo>,
    /// Whether the command may have asked for frames, so that others were given up for it.
    pub is_asking: bool,
    /// Whether it is told where a table stands, which takes a search.
    pub is_watched: bool,
}

impl Ledger {
    /// The ledger of a machine that has just started. No later call takes memory of the host.
    ///
    /// # Errors
    /// `AllocError` where the host has not enough memory.
    pub fn new<D: SectorDisk, E: SectorDisk>(
        alloc: Global,
        machine: &Machine<D, E>,
    ) -> Result<Ledger, AllocError>
        requires { IsSoundMachine D.SectorDisk E.SectorDisk machine.now }
        ensures balance { IfOk result (λ ledger. IsBalanced ledger.counts.frames) }
        ensures frames { halted_of machine.now ≡ false → IfOk result (λ ledger. NotesFrames machine.now ledger.frames.items (2 ^ 32 - 1)) }
    {
        let frames = all_held(alloc, machine)?;
        let uses = Uses::new(alloc, frames.len())?;
        Ok(Ledger {
            frames,
            uses,
            counts: Counts::default(),
            is_watching: false,
        })
    }

    /// Notes before a command that may ask for so many frames which are in use, where that is watched and fewer are free, so that some may be given up.
    pub(crate) fn note_uses<D: SectorDisk, E: SectorDisk>(
        &mut self,
        machine: &Machine<D, E>,
        asked: u32,
        target: Option<&Target>,
    )
        requires { IsSoundMachine D.SectorDisk E.SectorDisk machine.now }
        ensures counts { self.new.counts ≡ self.old.counts }
        ensures frames { self.new.frames ≡ self.old.frames }
    {
        if self.is_watching && self.free_frames() < asked {
            self.uses.note(machine, target);
        } else {
            self.uses.forget();
        }
    }

    /// How many frames held nothing after the last command.
    fn free_frames(&self) -> u32 {
        let mut free: u32 = 0;
        for held in self.frames.iter() {
            if held.view.holding == Holding::Nothing {
                free = free.saturating_add(1);
            }
        }
        free
    }

    /// Tells after the command which of them the clock's hand spared. So many frames had been given up before.
    pub(crate) fn tell_spared<W: Write, D: SectorDisk, E: SectorDisk>(
        &mut self,
        machine: &Machine<D, E>,
        evictions: Count,
        out: &mut W,
    ) -> io::Result<()>
        requires { IsSoundMachine D.SectorDisk E.SectorDisk machine.now }
        ensures counts { self.new.counts ≡ self.old.counts }
        ensures frames { self.new.frames ≡ self.old.frames }
    {
        let is_evicted = self.counts.frames.evictions != evictions;
        self.uses.tell(machine, is_evicted, out)
    }

    /// Compares all frames.
    pub(crate) fn compare_all<W: Write, D: SectorDisk, E: SectorDisk>(
        &mut self,
        inquiry: &Inquiry<'_, D, E>,
        out: &mut W,
    ) -> io::Result<()>
        requires { IsSoundMachine D.SectorDisk E.SectorDisk inquiry.now.machine.now }
        ensures books { KeepsBooks self.old.counts.frames self.new.counts.frames }
        ensures length { length self.new.frames.items ≡ length self.old.frames.items }
        ensures frames { halted_of inquiry.now.machine.now ≡ false
            → OnOk result (NotesFrames inquiry.now.machine.now self.new.frames.items (min (length self.old.frames.items) (2 ^ 32 - 1))) }
    {
        let count = self.frames.len();
        for n in 0..u32::MAX {
            if n as usize >= count {
                break;
            }
            self.compare(FrameNo(n), inquiry, out)?;
        }
        Ok(())
    }

    /// Compares the frames that an access of this page can have changed: those on its way, that of what stands behind it, its own now, and its
    /// own before. Counts the access too.
    pub(crate) fn compare_access<W: Write, D: SectorDisk, E: SectorDisk>(
        &mut self,
        target: &Target,
        machine: &Machine<D, E>,
        out: &mut W,
    ) -> io::Result<()>
        requires { IsSoundMachine D.SectorDisk E.SectorDisk machine.now }
        ensures books { KeepsBooks self.old.counts.frames self.new.counts.frames }
    {
        let way = Way::new(machine, target.pid, target.page);
        let now = way.entry().unwrap_or(Pte(0));
        let inquiry = Inquiry {
            machine,
            target: Some(target),
            behind: target.behind,
            cut: None,
            gained: target.gained(now),
            is_asking: true,
            is_watched: self.is_watching,
        };
        let before = self.counts.frames;
        let behind = frame_behind(target, machine);
        for frame in changeable(&way, target, behind).iter().copied().flatten() {
            self.compare(frame, &inquiry, out)?;
        }
        self.count_access(target.entry, now, &before);
        if now != target.entry {
            let event = Event::EntrySet {
                pid: target.pid,
                page: target.page,
                now,
                before: target.entry,
            };
            self.tell(Some(event), out)?;
        }
        Ok(())
    }

    /// Counts an access that found no translation kept, by its page's entry before and after it, and by the frames that were filled meanwhile.
    fn count_access(&mut self, old: Pte, now: Pte, before: &FrameCounts)
        ensures walk { now ≡ old → self.old.counts.frames.filled ≡ before.now.filled → IsOneMore self.old.counts.accesses.walks self.new.counts.accesses.walks }
        ensures fault { now ≢ old → IsOneMore self.old.counts.page_faults.all self.new.counts.page_faults.all }
        ensures major { now ≢ old → (ReadsNothing before.now self.old.counts.frames → ⊥) → IsOneMore self.old.counts.page_faults.major self.new.counts.page_faults.major }
        ensures minor { now ≢ old → ReadsNothing before.now self.old.counts.frames → IsOneMore self.old.counts.page_faults.minor self.new.counts.page_faults.minor }
        ensures frames { self.new.counts.frames ≡ self.old.counts.frames }
    {
        let is_filled = self.counts.frames.filled != before.filled;
        if now == old && !is_filled {
            self.counts.accesses.walks.add();
            return;
        }
        let is_major = self.counts.frames.reads_since(before);
        let faults = &mut self.counts.page_faults;
        faults.note(is_major);
        if is_filled {
            return;
        }
        if old.to_u64() == 0 || now.frame() != old.frame() {
            faults.links.add();
        } else if now.is_writable() && !old.is_writable() {
            faults.reuses.add();
        } else {
            faults.marks.add();
        }
    }

    /// Compares one frame, and keeps what it holds now.
    fn compare<W: Write, D: SectorDisk, E: SectorDisk>(
        &mut self,
        n: FrameNo,
        inquiry: &Inquiry<'_, D, E>,
        out: &mut W,
    ) -> io::Result<()>
        requires { IsSoundMachine D.SectorDisk E.SectorDisk inquiry.now.machine.now }
        ensures books { KeepsBooks self.old.counts.frames self.new.counts.frames }
        ensures noted { halted_of inquiry.now.machine.now ≡ false → n.0 < length self.old.frames.items → IsFrame (memory_of inquiry.now.machine.now).frames n.0
            → OnOk result (NotesFrame inquiry.now.machine.now self.new.frames.items n.0) }
        ensures others { KeepsNotes n.0 self.old.frames.items self.new.frames.items }
    {
        let Some(view) = inspection::frame_view(inquiry.machine, n) else {
            return Ok(());
        };
        let Some(was) = self.frames.get(n.0 as usize).copied() else {
            return Ok(());
        };
        let is_gained = inquiry.gained == Some(n);
        if view == was.view && !is_gained {
            let owner = was.owner;
            self.keep(n, Held { view, owner });
            return Ok(());
        }
        let owner = match view.holding {
            Holding::Own(page) => pid_of(inspection::next_mapper(inquiry.machine, n, 1, page)),
            _ => None,
        };
        let held = Held { view, owner };
        if view.holding != was.view.holding || is_gained {
            self.tell(inquiry.loss_of(n, &was), out)?;
            self.tell(inquiry.gain_of(n, &held), out)?;
        } else {
            self.tell(sharing_of(n, &was, &held), out)?;
        }
        self.keep(n, held);
        Ok(())
    }

    /// Keeps what a frame holds now.
    fn keep(&mut self, n: FrameNo, held: Held)
        ensures counts { self.new.counts ≡ self.old.counts }
        ensures kept { n.0 < length self.old.frames.items → slice_get self.new.frames.items n.0 ≡ Some held }
        ensures others { KeepsNotes n.0 self.old.frames.items self.new.frames.items }
    {
        if let Some(kept) = self.frames.get_mut(n.0 as usize) {
            *kept = held;
        }
    }

    /// Counts what happened, and tells it where that is wanted.
    fn tell<W: Write>(&mut self, event: Option<Event>, out: &mut W) -> io::Result<()>
        ensures counted { IfSome event (λ event. HasCountRoom self.old.counts.frames → IsTallied event self.old.counts.frames self.new.counts.frames) }
        ensures cause { IfSome event (λ event. HasCountRoom self.old.counts.frames → IsBalanced self.old.counts.frames → IsOfCause event self.old.counts.frames self.new.counts.frames) }
        ensures none { IsNone event → self.new.counts ≡ self.old.counts }
        ensures frames { self.new.frames ≡ self.old.frames }
        ensures books { KeepsBooks self.old.counts.frames self.new.counts.frames }
    {
        let Some(event) = event else {
            return Ok(());
        };
        self.counts.note(&event);
        if self.is_watching {
            writeln!(out, "  {event}")?;
        }
        Ok(())
    }
}

impl<D: SectorDisk, E: SectorDisk> Inquiry<'_, D, E> {
    /// What a frame lost.
    fn loss_of(&self, frame: FrameNo, was: &Held) -> Option<Event>
        requires { IsSoundMachine D.SectorDisk E.SectorDisk self.now.machine.now }
        ensures { halted_of self.now.machine.now ≡ false → IsLoss (memory_of self.now.machine.now) self.now.cut self.now.is_asking frame was.now result }
    {
        if was.view.holding == Holding::Table {
            return Some(Event::TableFreed { frame });
        }
        let content = content_of(was)?;
        if !self.gave_up(&content) {
            return Some(Event::Released { frame, content });
        }
        let refuge = match content {
            Content::Own {
                pid: Some(pid),
                page,
            } => refuge_of_own(page, inspection::next_entry(self.machine, pid, page)),
            Content::Own { pid: None, .. } => Refuge::Slot(None),
            Content::Page(page) => {
                self.refuge_of_page(page, inspection::page_view(self.machine, page))
            }
        };
        Some(Event::Evicted {
            frame,
            content,
            refuge,
        })
    }

    /// Whether a frame that lost this was given up for another. A call that doesn't ask for frames gave it back, and what is cut off a file is gone.
    fn gave_up(&self, content: &Content) -> bool
        requires { IsSoundMachine D.SectorDisk E.SectorDisk self.now.machine.now }
        ensures { halted_of self.now.machine.now ≡ false
            → result ≡ (self.now.is_asking && not (is_gone (memory_of self.now.machine.now) self.now.cut content.now)) }
    {
        let Some(cut) = self.cut else {
            return self.is_asking;
        };
        self.is_asking && !self.is_cut_off(cut, content)
    }

    /// Whether what a frame held was cut off that file.
    fn is_cut_off(&self, cut: Cut, content: &Content) -> bool
        requires { IsSoundMachine D.SectorDisk E.SectorDisk self.now.machine.now }
        ensures { halted_of self.now.machine.now ≡ false → result ≡ is_gone_from (memory_of self.now.machine.now) cut content.now }
    {
        match *content {
            Content::Own {
                pid: Some(pid),
                page,
            } => match attr_of(self.machine, pid, page) {
                Some(attr) => cut.takes_copy(attr.backing),
                None => false,
            },
            Content::Page(PageKey::File(page)) => cut.has(page),
            Content::Own { pid: None, .. } | Content::Page(PageKey::Object(_)) => false,
        }
    }

    /// Where a page of a file or of shared anonymous memory is now whose frame was given up. One that lies in a frame again came back within the
    /// command: it is the page that was accessed, and was touched then or not.
    fn refuge_of_page(&self, page: PageKey, now: Option<PageView>) -> Refuge {
        match now {
            Some(view) => match view.place {
                Place::Slot(slot) => Refuge::Slot(Some(slot)),
                Place::Frame(_) if self.knows_touched(page) => Refuge::Slot(None),
                Place::Frame(_) | Place::Home => Refuge::Home,
            },
            None => Refuge::Home,
        }
    }

    /// Whether that page may have been brought into a frame and was touched before.
    fn knows_touched(&self, page: PageKey) -> bool {
        match self.behind {
            Some(behind) => behind.knows_touched(page),
            None => false,
        }
    }

    /// What a frame got. Only an access brings a page into one, or the change of a file's length.
    fn gain_of(&self, frame: FrameNo, held: &Held) -> Option<Event>
        requires { IsSoundMachine D.SectorDisk E.SectorDisk self.now.machine.now }
    {
        if held.view.holding == Holding::Table {
            let place = if self.is_watched {
                inspection::place_of_table(self.machine, frame)
            } else {
                None
            };
            let top = top_level(self.machine);
            return Some(Event::TableMade { frame, place, top });
        }
        let content = content_of(held)?;
        let source = match &content {
            Content::Own { .. } => {
                let target = self.target?;
                source_of_own(target, frame_behind(target, self.machine))
            }
            Content::Page(page) => self.source_of_page(*page)?,
        };
        Some(Event::Filled {
            frame,
            content,
            source,
        })
    }

    /// Where the command had the page of a file or of shared anonymous memory from.
    fn source_of_page(&self, page: PageKey) -> Option<Source>
        requires { IsSoundMachine D.SectorDisk E.SectorDisk self.now.machine.now }
        ensures { halted_of self.now.machine.now ≡ false → result ≡ Some Source.Image → home_of (files_kept self.now.machine.now) page ≡ HomeView.Image }
    {
        if self.target.is_none() && self.cut.is_none() {
            return None;
        }
        match self.place_before(page) {
            Some(Place::Slot(slot)) => return Some(Source::Slot(Some(slot))),
            Some(Place::Frame(_)) if self.knows_touched(page) => return Some(Source::Slot(None)),
            _ => {}
        }
        match home_of(self.machine, page) {
            HomeView::Image => Some(Source::Image),
            HomeView::Zeros | HomeView::PastEnd => Some(Source::Zeros),
        }
    }

    /// Where that page was, if it is the one that may have been brought into a frame.
    fn place_before(&self, page: PageKey) -> Option<Place> {
        self.behind?.place_of(page)
    }
}

/// What all frames hold, without the processes that have own copies.
fn all_held<D: SectorDisk, E: SectorDisk>(
    alloc: Global,
    machine: &Machine<D, E>,
) -> Result<Vec<Held>, AllocError>
    requires { IsSoundMachine D.SectorDisk E.SectorDisk machine.now }
    ensures { halted_of machine.now ≡ false → IfOk result (λ frames. NotesFrames machine.now frames.items (2 ^ 32 - 1)) }
{
    let mut frames = Vec::new(alloc);
    for n in 0..u32::MAX {
        let Some(view) = inspection::frame_view(machine, FrameNo(n)) else {
            return Ok(frames);
        };
        frames.push(Held { view, owner: None })?;
    }
    Ok(frames)
}

/// Where the own copy of a page is now whose frame was given up, by the first entry of its process from that page on.
fn refuge_of_own(page: u64, found: Option<PageEntry>) -> Refuge {
    match found {
        Some(found) if found.page.get() == page => Refuge::Slot(slot_in(found.entry)),
        _ => Refuge::Slot(None),
    }
}

fn pid_of(mapper: Option<Mapper>) -> Option<Pid> {
    match mapper {
        Some(mapper) => Some(mapper.pid),
        None => None,
    }
}

/// How many share an own copy now.
fn sharing_of(frame: FrameNo, was: &Held, held: &Held) -> Option<Event>
    ensures { IsSharing frame was.now held.now result }
{
    let Holding::Own(page) = held.view.holding else {
        return None;
    };
    Some(Event::Shared {
        frame,
        content: Content::Own { pid: None, page },
        now: held.view.shares,
        before: was.view.shares,
    })
}

/// The frames that an access of this page can have changed, in the order in which it asks for them. What stands behind the page lies in `behind`.
fn changeable(way: &Way, target: &Target, behind: Option<FrameNo>) -> [Option<FrameNo>; 7] {
    let [root, second, third, fourth] = way.steps;
    [
        table_of(root),
        table_of(second),
        table_of(third),
        table_of(fourth),
        behind,
        way.entry().and_then(|entry| frame_in(entry)),
        frame_in(target.entry),
    ]
}

fn table_of(step: Option<Step>) -> Option<FrameNo> {
    match step {
        Some(step) => Some(step.table),
        None => None,
    }
}

/// The frame that now holds what stands behind the page of an access.
fn frame_behind<D: SectorDisk, E: SectorDisk>(
    target: &Target,
    machine: &Machine<D, E>,
) -> Option<FrameNo>
    requires { IsSoundMachine D.SectorDisk E.SectorDisk machine.now }
{
    match inspection::page_view(machine, target.behind?.page)?.place {
        Place::Frame(frame) => Some(frame),
        _ => None,
    }
}

/// The page that a frame holds.
fn content_of(held: &Held) -> Option<Content>
    ensures { result ≡ content_in held.now.owner held.now.view.holding }
{
    match held.view.holding {
        Holding::Own(page) => Some(Content::Own {
            pid: held.owner,
            page,
        }),
        Holding::Page(page) => Some(Content::Page(page)),
        _ => None,
    }
}

/// What the access gave the process an own copy of. What stands behind the page lies in `behind`.
fn source_of_own(target: &Target, behind: Option<FrameNo>) -> Source {
    if target.entry.is_swapped() {
        return Source::Slot(slot_in(target.entry));
    }
    let shown = if target.behind.is_some() {
        behind
    } else {
        frame_in(target.entry)
    };
    match shown {
        None | Some(FrameNo(0)) => Source::Zeros,
        Some(frame) => Source::Frame(frame),
    }
}
