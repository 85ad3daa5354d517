//! A device for a store of few homes, which takes no more memory than these need.
ghost use Rattle.std.specs.Prelude.{◌≡◌, ◌<◌, ◌≤◌, ◌+◌, IfSome};
ghost use Rattle.disk_model.specs.Stop.{HasCause};
ghost use Rattle.disk_model.specs.Asked.{times_named};
ghost use Rattle.disk_model.specs.SimDisk.{sectors_in, sector_of, IsUnsynced, moment_of, LeftSince, failures_of};

use crate::fillings::{FILLINGS, OPEN};
use disk_model::{Asked, DiskFault, SectorDisk, SimDisk, WriteZeros};
use pool_journal::POOL_GATE;
use pool_store::DIRECTORY_PAGES;
use std::alloc::{AllocError, Global};
use stores::NewStore;
use sync_journal::{BODY, FIRST_HOME, PAGE_LIMIT};

/// The first sector that any run writes.
const FIRST_WRITTEN: u64 = 2;

/// The homes of a pool that come before those of files.
const DIRECTORY: u64 = DIRECTORY_PAGES as u64;

/// Sectors that are there, from one up to another, behind so many that are absent.
#[derive(Clone, Copy)]
struct Piece {
    from: u64,
    to: u64,
    absent: u64,
}

/// Where the pieces of a store of few homes lie: what lies before a body and so many sectors of the body, of the journal or each half of a
/// pool, and the homes.
fn pieces_of(store: NewStore, body: u64, homes: u64) -> [Piece; 3] {
    let (first, second, second_body, first_home) = match store {
        NewStore::Journal => (BODY, BODY, BODY, FIRST_HOME),
        NewStore::Pool(blocks) => {
            let (map, half) = (8 * u64::from(blocks), 4040 * u64::from(blocks));
            (16 + map, 16 + half, 16 + half + map, 16 + 2 * half)
        }
    };
    let first_end = body.saturating_add(first);
    let second_end = match store {
        NewStore::Journal => second,
        NewStore::Pool(_) => body.saturating_add(second_body),
    };
    let second_length = second_end.saturating_sub(second);
    [
        Piece {
            from: 0,
            to: first_end,
            absent: 0,
        },
        Piece {
            from: second,
            to: second_end,
            absent: second.saturating_sub(first_end),
        },
        Piece {
            from: first_home,
            to: homes.saturating_add(first_home),
            absent: first_home.saturating_sub(first_end.saturating_add(second_length)),
        },
    ]
}

/// A device in memory. Of a journal's body it has as many pages as there are homes, since no commit takes more, and of a body of a pool twice as
/// many, since a commit takes the first that are free, and no home has two slots before it: a call that asks for another sector of a body fails.
#[derive(Drop)]
pub(crate) struct ShortDisk {
    pub disk: SimDisk,
    sectors: u64,
    pieces: [Piece; 3],
    /// The slots of a body of a pool, none where there is none.
    slots: u64,
    /// Of a pool, for each block of eight sectors whether it was written to since the last sync: a stop may spoil all of it.
    torn: Vec<bool>,
    asked: Asked,
}

impl ShortDisk {
    /// A device of zeros with so many homes.
    pub(crate) fn new(alloc: Global, store: NewStore, homes: u64) -> Result<ShortDisk, AllocError> {
        let (pages, slots, homes) = match store {
            NewStore::Journal => (homes.min(PAGE_LIMIT as u64), 0, homes),
            NewStore::Pool(_) => {
                let homes = homes.saturating_add(DIRECTORY);
                let slots = homes.saturating_mul(2);
                (slots, slots, homes)
            }
        };
        let pieces = pieces_of(store, pages.saturating_mul(8), homes.saturating_mul(8));
        let end = pieces[2].to.saturating_sub(pieces[2].absent);
        let blocks = match store {
            NewStore::Journal => 0,
            NewStore::Pool(_) => end / 8,
        };
        Ok(ShortDisk {
            disk: SimDisk::new(alloc, end)?,
            sectors: pieces[2].to,
            pieces,
            slots,
            torn: Vec::from_elem(alloc, false, blocks as usize)?,
            asked: Asked::new(),
        })
    }

    /// The device after a stop, with these bytes in its unsynced sectors, or else those that were last synced. Of a pool
    /// these bytes are in each block of 4,096 that has such a sector.
    pub(crate) fn left(
        &self,
        alloc: Global,
        filling: Option<&[u8; 512]>,
    ) -> Result<ShortDisk, AllocError> {
        let mut chosen = Vec::new(alloc);
        if let Some(bytes) = filling {
            for sector in FIRST_WRITTEN..self.disk.sectors() {
                chosen.push((sector, *bytes))?;
            }
        }
        let disk = self.disk.left(alloc, chosen.as_slice())?;
        let disk = match filling {
            Some(bytes) if !self.torn.is_empty() => self.spoiled(alloc, disk, bytes)?,
            _ => disk,
        };
        Ok(ShortDisk {
            disk,
            sectors: self.sectors,
            pieces: self.pieces,
            slots: self.slots,
            torn: Vec::from_elem(alloc, false, self.torn.len())?,
            asked: Asked::new(),
        })
    }

    /// Another device, with these bytes in each block that was written to here since the last sync.
    fn spoiled(
        &self,
        alloc: Global,
        mut disk: SimDisk,
        bytes: &[u8; 512],
    ) -> Result<SimDisk, AllocError> {
        for n in 0..self.disk.sectors() {
            let is_torn = self.torn.get((n / 8) as usize) == Some(&true);
            if is_torn && n < disk.sectors() {
                let _ = disk.write(n, bytes);
            }
        }
        let _ = disk.sync();
        disk.left(alloc, &[])
    }

    /// Notes that the block of a sector was written to.
    fn tear(&mut self, at: u64)
        ensures { self.new ≡ record self.old { torn = self.new.torn } }
    {
        if let Some(torn) = self.torn.get_mut((at / 8) as usize) {
            *torn = true;
        }
    }

    /// What the homes of files hold, or of a pool what stands for them.
    pub(crate) fn homes(&self, alloc: Global) -> Result<Vec<u8>, AllocError> {
        let mut bytes = Vec::new(alloc);
        let homes = self.pieces[2];
        let first = if self.slots > 0 { DIRECTORY } else { 0 };
        for home in first..homes.to.saturating_sub(homes.from) / 8 {
            let start = self.stands_at(home);
            for i in 0..8 {
                bytes.extend_from_slice(&self.sector(start.saturating_add(i)))?;
            }
        }
        Ok(bytes)
    }

    /// The first sector of what stands for a home: of a pool of the first slot that the named map gives to it, or else of the home.
    fn stands_at(&self, home: u64) -> u64 {
        let gate = self.sector(POOL_GATE);
        let named = self.pieces[usize::from(FILLINGS[OPEN] == Some(&gate))];
        let body = self.slots.saturating_mul(8);
        // Of a map the block of the first slots comes last. Its numbers are of four bytes, 128 to a sector.
        let block = named.to.saturating_sub(body).saturating_sub(8);
        let given = home.saturating_add(1).to_le_bytes();
        for place in 0..1008_u64 {
            let slot = place % 504;
            let sector = self.sector(block.saturating_add((16 + place) / 128));
            let at = 4 * ((16 + place) % 128) as usize;
            if slot < self.slots && sector[at..].starts_with(&given[..4]) {
                let end = self.pieces[(place / 504) as usize].to;
                return end.saturating_sub(body).saturating_add(8 * slot);
            }
        }
        self.pieces[2].from.saturating_add(home.saturating_mul(8))
    }

    /// What a sector holds, or zeros where it is absent.
    fn sector(&self, n: u64) -> [u8; 512] {
        match self.place(n, 1) {
            Some(at) => *self.disk.sector(at),
            None => [0; 512],
        }
    }

    /// Where so many sectors from that one on lie, unless they are absent.
    fn place(&self, n: u64, count: u64) -> Option<u64>
        ensures { IfSome result (λ at. (at + count ≤ sectors_in self.now.disk) × (at ≤ n)) }
    {
        for piece in &self.pieces {
            if piece.from <= n && n < piece.to && count <= piece.to - n {
                let at = n.saturating_sub(piece.absent);
                let end = at.checked_add(count)?;
                return if end <= self.disk.sectors() {
                    Some(at)
                } else {
                    None
                };
            }
        }
        None
    }

    /// A call that fails.
    fn fail(&mut self) -> Result<(), DiskFault>
        ensures size { self.new.sectors ≡ self.old.sectors }
        ensures asked { self.new.asked ≡ self.old.asked }
        ensures cause { HasCause (failures_of self.old.disk) (failures_of self.new.disk) result }
    {
        self.disk.fail_at(self.disk.calls().saturating_add(1));
        self.disk.sync()
    }
}

/// Nothing is promised of what it keeps.
impl SectorDisk for ShortDisk {
    ghost sector_count = { λ d. d.sectors };

    ghost content = { λ d. sector_of d.disk };

    ghost unsynced = { λ d. IsUnsynced d.disk };

    ghost moment = { λ d. moment_of d.disk };

    ghost left_since = { λ d. LeftSince d.disk };

    ghost failures = { λ d. failures_of d.disk };

    ghost asked = { λ d. times_named d.asked };

    ghost keeps_model = { λ _. ⊥ };

    ghost counts_now = { λ d t c kept le now. absurd kept };

    ghost only_now = { λ d c kept left. absurd kept };

    fn sectors(&self) -> u64 {
        self.sectors
    }

    fn read(&mut self, n: u64, to: &mut [u8; 512]) -> Result<(), DiskFault> {
        self.asked.sector(n);
        match self.place(n, 1) {
            Some(at) => self.disk.read(at, to),
            None => self.fail(),
        }
    }

    fn write(&mut self, n: u64, from: &[u8; 512]) -> Result<(), DiskFault> {
        self.asked.sector(n);
        match self.place(n, 1) {
            Some(at) => {
                self.tear(at);
                self.disk.write(at, from)
            }
            None => self.fail(),
        }
    }

    fn read_page(&mut self, n: u64, to: &mut [u8; 4096]) -> Result<(), DiskFault> {
        self.asked.page(n);
        match self.place(n, 8) {
            Some(at) => self.disk.read_page(at, to),
            None => self.fail(),
        }
    }

    fn write_page(&mut self, n: u64, from: &[u8; 4096]) -> Result<(), DiskFault> {
        self.asked.page(n);
        match self.place(n, 8) {
            Some(at) => {
                self.tear(at);
                self.disk.write_page(at, from)
            }
            None => self.fail(),
        }
    }

    fn sync(&mut self) -> Result<(), DiskFault> {
        self.disk.sync()?;
        self.torn.fill(false);
        Ok(())
    }
}

impl WriteZeros for ShortDisk {}
