//! What a command did inside, as things that happened.
ghost use Rattle.std.specs.Prelude.{◌≡◌, ◌≤◌, ◌+◌};
ghost use Rattle.watching.specs.Books.{HasCountRoom, IsBalanced, IsTallied, IsFilledFrom, IsLostTo, IsOfCause, KeepsBooks};

use crate::counts::{Counts, FrameCounts};
use crate::texts::{EntryText, PageText, TableText};
use inspection::TablePlace;
use std::fmt::{self, Display, Formatter};
use sv39_walk::Pte;
use vm_types::{FrameNo, PageKey, Pid, SlotNo};

/// One thing that happened within a command.
#[derive(Clone, Copy)]
pub(crate) enum Event {
    /// A frame was given up, and its page went there.
    Evicted {
        frame: FrameNo,
        content: Content,
        refuge: Refuge,
    },
    /// A call gave a frame back, and its page is gone.
    Released {
        frame: FrameNo,
        content: Content,
    },
    /// A frame got a page, from there.
    Filled {
        frame: FrameNo,
        content: Content,
        source: Source,
    },
    /// Others share an own copy now.
    Shared {
        frame: FrameNo,
        content: Content,
        now: u8,
        before: u8,
    },
    /// A frame holds a table now, and perhaps where that stands.
    TableMade {
        frame: FrameNo,
        place: Option<TablePlace>,
        top: u32,
    },
    /// A frame holds no table any more.
    TableFreed {
        frame: FrameNo,
    },
    /// The entry of a page has changed.
    EntrySet {
        pid: Pid,
        page: u64,
        now: Pte,
        before: Pte,
    },
}

/// What a frame of a page holds.
#[derive(Clone, Copy)]
pub(crate) enum Content {
    /// The own copy of a page, and one process that has it.
    Own { pid: Option<Pid>, page: u64 },
    /// A page of a file or of shared anonymous memory.
    Page(PageKey),
}

/// Where a page went.
#[derive(Clone, Copy)]
pub(crate) enum Refuge {
    /// To a slot, which has another page again where its number isn't known.
    Slot(Option<SlotNo>),
    /// Nowhere: it stands in the image as it was, or is zeros.
    Home,
}

/// Where a page came from.
#[derive(Clone, Copy)]
pub(crate) enum Source {
    Zeros,
    /// It was copied from a frame.
    Frame(FrameNo),
    /// A slot, which has another page again where its number isn't known.
    Slot(Option<SlotNo>),
    /// The image.
    Image,
}

impl Counts {
    /// Counts what happened. The books of frames stay balanced, as long as no number has come to its end.
    pub(crate) fn note(&mut self, event: &Event)
        ensures counted { HasCountRoom self.old.frames → IsTallied event.now self.old.frames self.new.frames }
        ensures cause { HasCountRoom self.old.frames → IsBalanced self.old.frames → IsOfCause event.now self.old.frames self.new.frames }
        ensures balance { HasCountRoom self.old.frames → IsBalanced self.old.frames → IsBalanced self.new.frames }
        ensures books { KeepsBooks self.old.frames self.new.frames }
    {
        match event {
            Event::Evicted { refuge, .. } => self.frames.note_eviction(*refuge),
            Event::Released { .. } => self.frames.released.add(),
            Event::Filled { source, .. } => self.frames.note_fill(*source),
            Event::TableMade { .. } => self.tables.made.add(),
            Event::TableFreed { .. } => self.tables.freed.add(),
            Event::Shared { .. } | Event::EntrySet { .. } => {}
        }
    }
}

impl FrameCounts {
    /// Counts a frame that was given up.
    fn note_eviction(&mut self, refuge: Refuge)
        ensures evictions { HasCountRoom self.old → self.new.evictions.0 ≡ self.old.evictions.0 + 1 }
        ensures rises { self.old.evictions.0 ≤ self.new.evictions.0 }
        ensures refuge { HasCountRoom self.old → IsBalanced self.old → IsLostTo refuge self.old self.new }
        ensures filled { self.new.filled ≡ self.old.filled }
        ensures released { self.new.released ≡ self.old.released }
        ensures balance { HasCountRoom self.old → IsBalanced self.old → IsBalanced self.new }
    {
        self.evictions.add();
        match refuge {
            Refuge::Slot(_) => self.to_slot.add(),
            Refuge::Home => self.dropped.add(),
        }
    }

    /// Counts a frame that was filled.
    fn note_fill(&mut self, source: Source)
        ensures filled { HasCountRoom self.old → self.new.filled.0 ≡ self.old.filled.0 + 1 }
        ensures rises { self.old.filled.0 ≤ self.new.filled.0 }
        ensures source { HasCountRoom self.old → IsBalanced self.old → IsFilledFrom source self.old self.new }
        ensures evictions { self.new.evictions ≡ self.old.evictions }
        ensures released { self.new.released ≡ self.old.released }
        ensures balance { HasCountRoom self.old → IsBalanced self.old → IsBalanced self.new }
    {
        self.filled.add();
        match source {
            Source::Zeros => self.zero_fills.add(),
            Source::Frame(_) => self.copies.add(),
            Source::Slot(_) => self.from_slot.add(),
            Source::Image => self.from_image.add(),
        }
    }
}

impl Display for Event {
    fn fmt<W: fmt::Write>(&self, f: &mut Formatter<W>) -> fmt::Result {
        match self {
            Event::Evicted {
                frame,
                content,
                refuge,
            } => write!(f, "frame {} was given up: {content} {refuge}", frame.0),
            Event::Released { frame, content } => write!(f, "frame {}: {content} is gone", frame.0),
            Event::Filled {
                frame,
                content,
                source,
            } => write!(f, "frame {}: {content} {source}", frame.0),
            Event::Shared {
                frame,
                content,
                now,
                before,
            } => write!(
                f,
                "frame {}, {content}: shared by {now}, before by {before}",
                frame.0
            ),
            Event::TableMade {
                frame,
                place: Some(place),
                top,
            } => write!(
                f,
                "frame {} is now {}",
                frame.0,
                TableText { place, top: *top }
            ),
            Event::TableMade { frame, .. } => write!(f, "frame {} is now a table", frame.0),
            Event::TableFreed { frame } => write!(f, "frame {} is no table any more", frame.0),
            Event::EntrySet {
                pid,
                page,
                now,
                before,
            } => write!(
                f,
                "page 0x{page:x} of process {}: entry {}, before {}",
                pid.get(),
                EntryText(*now),
                EntryText(*before)
            ),
        }
    }
}

impl Display for Content {
    fn fmt<W: fmt::Write>(&self, f: &mut Formatter<W>) -> fmt::Result {
        match self {
            Content::Own {
                pid: Some(pid),
                page,
            } => write!(f, "own copy of page 0x{page:x} of process {}", pid.get()),
            Content::Own { pid: None, page } => write!(f, "own copy of page 0x{page:x}"),
            Content::Page(page) => PageText(*page).fmt(f),
        }
    }
}

impl Display for Refuge {
    fn fmt<W: fmt::Write>(&self, f: &mut Formatter<W>) -> fmt::Result {
        match self {
            Refuge::Slot(Some(slot)) => write!(f, "went to slot {}", slot.0),
            Refuge::Slot(None) => f.write_str("went to a slot"),
            Refuge::Home => f.write_str("was untouched, so nothing was written"),
        }
    }
}

impl Display for Source {
    fn fmt<W: fmt::Write>(&self, f: &mut Formatter<W>) -> fmt::Result {
        match self {
            Source::Zeros => f.write_str("is filled with zeros"),
            Source::Frame(frame) => write!(f, "is copied from frame {}", frame.0),
            Source::Slot(Some(slot)) => write!(f, "came back from slot {}", slot.0),
            Source::Slot(None) => f.write_str("came back from a slot"),
            Source::Image => f.write_str("was read from the image"),
        }
    }
}
