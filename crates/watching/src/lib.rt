//! What each command of a running machine did inside: the frames that it filled and gave up, the tables that it made and freed, the entries that it set. Each
//! is told in a line where that is wanted, and counted in books that balance. Nothing below knows of it: it compares what the machine holds before and after.
#![tactic(auto)]

mod counts;
mod cuts;
mod events;
mod ledger;
mod pending;
mod texts;

pub use counts::{AccessCounts, CallCounts, Count, Counts, FaultCounts, FrameCounts, TableCounts};
pub use ledger::Ledger;
pub use pending::{Outcome, Pending};
pub use texts::{
    BackingText, BitsText, EntryText, HoldingText, PageText, ProtText, StateText, TableText,
    bytes_before,
};
