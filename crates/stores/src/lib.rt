//! A store of files of fixed lengths on a row of sectors, up to 64 of layout 2 or 4,096 of layout 4, in one set of words: whichever it is, its pages change all
//! at once or not at all, whatever moment the device stops at.
//!
//! Sector 0 is the mark: of layout 4 the bytes `FAMSYNC4` 64 times (`pool_store`), of layout 2 `FAMSYNC2` (`file_store`).
//! After Park, Kelly and Shen, "Failure-Atomic msync(): A Simple and Efficient Mechanism for Preserving the
//! Integrity of Durable Data" (EuroSys 2013).
#![tactic(auto)]

mod commits;
mod faults;
mod marks;
mod new_stores;
mod opening;
mod resuming;
mod rooms;
mod store;

pub use faults::OpenFault;
pub use new_stores::{NewStore, format, image_bytes};
pub use opening::stops_in_a_row;
pub use store::Store;
