//! Where the parts of a store with a pool lie, in sectors.
ghost use Rattle.std.specs.Prelude.{◌≡◌, ◌≤◌, ◌<◌, ◌*◌, ◌+◌};
ghost use Rattle.pool_journal.specs.Pools.{pool_start, pool_slot, pool_home, pool_home_count, most_blocks};
ghost use Rattle.pool_journal.specs.Sizes.{IsSized};

use crate::slot::Slot;
use sync_journal::{MAX_HOMES, PAGE_SECTORS};

/// The gate.
pub const POOL_GATE: u64 = 8;

/// How many slots of each body a block of a map names.
pub const BLOCK_SLOTS: u32 = 504;

/// The most blocks of a map.
pub const MAX_BLOCKS: u32 = 2048;

/// How many sectors lie before the first map.
const FRONT: u64 = 16;

/// The sectors of a map's block and of the slots that it names in one body.
const STRIDE: u64 = 4040;

/// How large a store's pool is, and how many home pages its device has.
#[derive(Clone, Copy, Debug, PartialEq, Eq)]
pub struct PoolSizes {
    /// The blocks of a map, 1 to 2,048.
    pub blocks: u32,
    /// The home pages, 2^30 at most.
    pub homes: u32,
}

impl PoolSizes {
    /// The sizes of a store with maps of so many blocks on a device of so many sectors.
    pub fn of(blocks: u32, sectors: u64) -> PoolSizes
        requires { blocks ≤ most_blocks }
        ensures blocks { result.blocks ≡ blocks }
        ensures homes { result.homes ≡ pool_home_count blocks sectors }
    {
        let first = FRONT + 2 * STRIDE * u64::from(blocks);
        let homes = (sectors.saturating_sub(first) / PAGE_SECTORS).min(MAX_HOMES);
        PoolSizes {
            blocks,
            homes: homes as u32,
        }
    }

    /// How many slots a body has.
    pub fn places(self) -> u32
        requires { IsSized self }
        ensures { result ≡ 504 * self.blocks }
    {
        BLOCK_SLOTS * self.blocks
    }

    /// The first sector of a map.
    pub fn start(self, second: bool) -> u64
        requires { IsSized self }
        ensures { result ≡ pool_start self.blocks second }
    {
        if second {
            FRONT + STRIDE * u64::from(self.blocks)
        } else {
            FRONT
        }
    }

    /// The first sector of a slot.
    pub(crate) fn slot(self, slot: Slot) -> u64
        requires sized { IsSized self }
        requires inside { slot.place < 504 * self.blocks }
        ensures { result ≡ pool_slot self.blocks slot.second slot.place }
    {
        self.start(slot.second) + PAGE_SECTORS * (u64::from(self.blocks) + u64::from(slot.place))
    }

    /// The first sector of a home page.
    pub fn home(self, home: u32) -> u64
        requires { IsSized self }
        ensures { result ≡ pool_home self.blocks home }
    {
        FRONT + 2 * STRIDE * u64::from(self.blocks) + PAGE_SECTORS * u64::from(home)
    }
}
