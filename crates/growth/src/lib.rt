//! What a commit may change of the directory of a store whose files grow, and where a file that grows finds room, as functions over entries in memory.
//!
//! A commit changes entries: a file gets another length, more extents or fewer, comes or goes. The directory must be good afterwards, and a new extent must
//! not have a home that any file had before: what one commit gives back the next may give out, and not the same. So up to the moment of the commit each page
//! of before lies where it lay, whatever is written to new homes.
#![tactic(auto)]

mod changes;
mod checking;
mod extents;
mod faults;
mod forms;
mod laws;
mod passes;
mod resizing;
mod room;
mod searching;
mod widening;

pub use changes::Change;
pub use checking::check_changes;
pub use faults::ChangeFault;
pub use forms::are_changes;
pub use laws::pages_keep_their_homes;
pub use resizing::resize;
pub use room::Homes;
pub use widening::widen;
