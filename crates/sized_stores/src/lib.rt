//! A store whose files get other lengths: at once for all who look, and durably with a commit.
//!
//! `stores` keeps what is durable. Beside it lies, for each file of a store of layout 4, the length that it has now, and how short it has been since its length was
//! made durable: from there on all that it had was cut off once, so that zeros stand where it has grown again, whatever the device holds. A commit of such files makes
//! their lengths durable with pages of theirs, all at once. Files of a store of layout 2 keep their lengths.
#![tactic(auto)]

mod asking;
mod committing;
mod faults;
mod given;
mod listing;
mod room;
mod settling;
mod sizes;
mod store;

pub use faults::SizeFault;
pub use sizes::Size;
pub use store::SizedStore;
