//! The parts of a store's image.
ghost use Rattle.std.specs.Prelude.{◌≡◌};
ghost use Rattle.stores.specs.NewStores.{IsSizedNew};
ghost use Rattle.directories.specs.Kinds.{IsMapSize};
ghost use Rattle.stop_trials.specs.Parts.{part_at, part_in_pool, store_part};

use crate::stopping::Event;
use file_store::{DIRECTORY_SECTOR, KIND_SECTOR, MARK_SECTOR};
use pool_journal::{BLOCK_SLOTS, POOL_GATE, PoolSizes};
use pool_store::DIRECTORY_PAGES;
use std::fmt::{self, Display, Formatter};
use stores::NewStore;
use sync_journal::{BODY, FIRST_HOME, GATE, PAGE_SECTORS};

/// A part of a store's image. `Display` gives its name.
#[derive(Clone, Copy)]
pub(crate) enum Part {
    /// The layout mark.
    Mark,
    /// The kind of a store with a pool.
    Kind,
    /// The directory of files.
    Directory,
    /// The gate.
    Gate,
    /// The map of the journal, or one of a pool.
    Map,
    /// The body of the journal, or one of a pool.
    Body,
    /// The home pages.
    Home,
}

impl Part {
    /// The part that a sector is of, of such a new store.
    pub(crate) fn of(store: NewStore, sector: u64) -> Part
        requires { IsSizedNew store }
        ensures { result ≡ store_part store sector }
    {
        match store {
            NewStore::Journal => Part::of_journal(sector),
            NewStore::Pool(blocks) => Part::of_pool(blocks, sector),
        }
    }

    fn of_pool(blocks: u32, sector: u64) -> Part
        requires { IsMapSize blocks }
        ensures { result ≡ part_in_pool blocks sector }
    {
        let sizes = PoolSizes::of(blocks, 0);
        let map = PAGE_SECTORS * u64::from(blocks);
        let first = 2 * PAGE_SECTORS;
        let second = first + map + u64::from(BLOCK_SLOTS) * map;
        match sector {
            MARK_SECTOR => Part::Mark,
            KIND_SECTOR => Part::Kind,
            POOL_GATE => Part::Gate,
            _ if sector < first + map => Part::Map,
            _ if sector < second => Part::Body,
            _ if sector < second + map => Part::Map,
            _ if sector < sizes.home(0) => Part::Body,
            _ if sector < sizes.home(DIRECTORY_PAGES) => Part::Directory,
            _ => Part::Home,
        }
    }

    fn of_journal(sector: u64) -> Part
        ensures { result ≡ part_at sector }
    {
        match sector {
            MARK_SECTOR => Part::Mark,
            DIRECTORY_SECTOR => Part::Directory,
            GATE => Part::Gate,
            _ if sector < BODY => Part::Map,
            _ if sector < FIRST_HOME => Part::Body,
            _ => Part::Home,
        }
    }
}

impl Display for Part {
    fn fmt<W: fmt::Write>(&self, f: &mut Formatter<W>) -> fmt::Result {
        f.write_str(match self {
            Part::Mark => "mark",
            Part::Kind => "kind",
            Part::Directory => "directory",
            Part::Gate => "gate",
            Part::Map => "map",
            Part::Body => "body",
            Part::Home => "home",
        })
    }
}

/// Writes the part of such a store that was to be written, or that it was a sync.
pub(crate) fn write_event<W: fmt::Write>(
    store: NewStore,
    event: Event,
    f: &mut Formatter<W>,
) -> fmt::Result
    requires { IsSizedNew store }
{
    match event {
        Event::Write(sector) => write!(f, "{}", Part::of(store, sector)),
        Event::Sync => f.write_str("sync"),
    }
}
