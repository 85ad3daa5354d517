//! One page's entry of a live process, over memory that evicts: the tables on its way are made, what the page shows is brought
//! into a frame from where it lies, and the frame is put there. The form is that of the RISC-V Privileged Specification, "Sv39 page
//! table entry". Each leaf has A from the start, so that no access stops at it for that. D is set as soon as a store needs no
//! further mark: the first store to a shared page of a file page that isn't touched finds it clear, and stops (the scheme of
//! Svade, where the walk sets neither).
//!
//! Accesses to pages, over memory that evicts: the place in memory that an access goes to, the fault that it comes to, or the
//! stall for want of a frame, of a slot, or of a page's bytes.
#![tactic(auto)]

mod accesses;
mod faults;
mod finding;
mod granting;
mod linking;
mod owning;
mod page_in;
mod processes;
mod refusal;
mod showing;
mod spot;
mod swapping;

pub use accesses::access;
pub use linking::link_tables;
pub use page_in::cached;
pub use refusal::AccessRefusal;
