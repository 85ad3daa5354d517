//! Room for what an msync takes. No clause says what it holds, so it is never cleared.
ghost use Rattle.std.specs.Prelude.{◌≡◌, IfOk};

use crate::chosen::{Residence, Spot};
use std::alloc::{AllocError, Global};
use std::marker::Model;
use vm_types::{FilePage, FrameNo};

/// Room for one msync after the other. In contracts it is how much it has room for.
#[derive(Drop)]
pub struct SyncRoom {
    /// The pages and files that are taken.
    pub(crate) lists: TakenLists,
    /// The places that the pages lie in.
    pub(crate) spots: Vec<Spot>,
}

impl Model for SyncRoom {
    ghost use Rattle.std.specs.Prelude.{◌≡◌, length};
    ghost use Rattle.msync.specs.Shows.{RoomSize};
    ghost use Rattle.msync.specs.Rooms.{size_of};

    ghost Value = { RoomSize };

    ghost view = { λ r. size_of r.lists };

    ghost invariant = { λ r. length r.spots.items ≡ length r.lists.pages.items };
}

impl SyncRoom {
    /// Room for `most` pages, which are to be as many as the store always takes at once, of a memory of `nodes` frames and slots of
    /// swap in all, and for `files` files, which are to be as many as the store's directory has places for, where it can give them other
    /// lengths. It takes 24 bytes for each page, 4 for each frame and each slot, and 2 for each file; no later call takes memory of the host.
    ///
    /// # Errors
    /// `AllocError` where the host has not enough memory.
    pub fn new(alloc: Global, most: usize, nodes: u32, files: usize) -> Result<SyncRoom, AllocError>
        ensures { IfOk result (λ room. room ≡ record { most = most; ranks = nodes; files = files }) }
    {
        let page = FilePage { file: 0, page: 0 };
        let at = Residence::Framed(FrameNo(0));
        let pages = Vec::from_elem(alloc, page, most)?;
        let ranks = Vec::from_elem(alloc, 0, nodes as usize)?;
        let files = Vec::from_elem(alloc, 0, files)?;
        let spots = Vec::from_elem(alloc, Spot { page, at }, most)?;
        Ok(SyncRoom {
            lists: TakenLists {
                pages,
                ranks,
                files,
            },
            spots,
        })
    }
}

/// Room for a list of pages, with the rank in it of the page that each frame and each slot holds, and for a list of files' numbers.
#[derive(Drop)]
pub(crate) struct TakenLists {
    pub pages: Vec<FilePage>,
    pub ranks: Vec<u32>,
    pub files: Vec<u16>,
}
