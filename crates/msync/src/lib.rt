//! msync: the touched file pages of a range are made durable, all at once and over all files, from the frames and slots that they
//! lie in, and are touched no more. A file that has got another length is made durable whole with them, its length included.
#![tactic(auto)]

mod choosing;
mod chosen;
mod msyncs;
mod page_source;
mod room;
mod settling;

pub use chosen::SyncCall;
pub use msyncs::msync;
pub use room::SyncRoom;
