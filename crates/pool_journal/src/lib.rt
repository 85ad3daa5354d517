//! A redo journal over a row of sectors, whose pages stay in a pool of slots over any number of commits: layout 4.
//!
//! Sectors are of 512 bytes, eight to a block of 4,096. With maps of `M` blocks, 1 to 2,048, the pool has two bodies of `504 M` slots:
//!
//! | Sectors | Content |
//! |---|---|
//! | 0 to 7 | not the journal's: nothing here writes them |
//! | 8 | gate: the bytes `GATEOPEN` 64 times name map 1, any others map 0 |
//! | 16 on | map 0: `M` blocks, the last one first |
//! | `16 + 8 M` on | body 0: `504 M` slots of eight sectors |
//! | `16 + 4040 M` on | map 1, likewise |
//! | `16 + 4048 M` on | body 1 |
//! | `16 + 8080 M` on | home page `h` is sectors `16 + 8080 M + 8 h` to `23 + 8080 M + 8 h` |
//!
//! A block of a map is 1,024 little-endian `u32`s: 16 of a head, of which the first in block 0 says how many blocks count, then one for each of 504 slots of
//! body 0, then one for each of 504 of body 1. It is 0 where the slot is given to no home, otherwise the home's number and one.
//!
//! An image stands for its home pages, but a page whose home the named map gives a slot stands in the first such slot. No map is bad. A commit writes its
//! pages to free slots, the other map, and the gate, in two syncs; pages are copied home only where no room is left. A recovery copies none: it writes the
//! named map anew in the place of the other one.
//!
//! After Park, Kelly and Shen, "Failure-Atomic msync(): A Simple and Efficient Mechanism for Preserving the
//! Integrity of Durable Data" (EuroSys 2013), which asks for this of one msync.
#![tactic(auto)]

mod blanking;
mod clearing;
mod committing;
mod copying;
mod filling;
mod forgetting;
mod gate;
mod giving;
mod map;
mod map_blocks;
mod pool;
mod reading;
mod recovering;
mod searches;
mod sieve;
mod sizes;
mod slot;
mod taking;
mod tidying;

pub use pool::PoolJournal;
pub use searches::FIRST_HOMES;
pub use sizes::{BLOCK_SLOTS, MAX_BLOCKS, POOL_GATE, PoolSizes};
