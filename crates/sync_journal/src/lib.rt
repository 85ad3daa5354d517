//! A redo journal over a row of sectors: the pages of one commit become durable all at once or not at all,
//! whatever moment the device stops at.
//!
//! The store's format is our own; sectors are of 512 bytes. This is layout 2. `OldJournal` reads what stands in a store of layout 1,
//! 2 or 3, for upgrades; docs/FORMATS.md has the layouts.
//!
//! | Sectors | Content |
//! |---|---|
//! | 0, 1 | not the journal's: nothing here writes them |
//! | 2 | gate: open exactly where it is the bytes `GATEOPEN` 64 times |
//! | 3 to 10 | map: the number of pages, then the number of each one's home, as little-endian `u32`s |
//! | 11 to 8,194 | body: page `j` of the commit is sectors `11 + 8 j` to `18 + 8 j` |
//! | 8,195 on | home page `h` is sectors `8195 + 8 h` to `8202 + 8 h` |
//!
//! An image stands for its home pages, but where the gate is open, a page that the map names stands in the body.
//! A commit takes 4 syncs, or 2 where no page is live.
//!
//! After Park, Kelly and Shen, "Failure-Atomic msync(): A Simple and Efficient Mechanism for Preserving the
//! Integrity of Durable Data" (EuroSys 2013), which asks for this of one msync.
#![tactic(auto)]

mod commits;
mod faults;
mod gate;
mod homes;
mod journal;
mod layout;
mod map;
mod old_journal;
mod pages;
mod publish;
mod recovery;
mod source;
mod stage;
mod version;

pub use faults::{CommitFault, RecoverFault};
pub use journal::Journal;
pub use layout::{BODY, FIRST_HOME, GATE, MAX_HOMES, PAGE_LIMIT, PAGE_SECTORS, home_count};
pub use old_journal::OldJournal;
pub use pages::{read_page, write_page};
pub use recovery::{recover, recover_synced, stops_in_a_row};
pub use source::{PageSource, SourceFault};
pub use version::Version;
