//! A file gets another length (truncate(2)): the page within which the shorter of the two lengths ends is cut there, and the pages that begin
//! at or past a shorter length leave memory and swap, touched or not.
#![tactic(auto)]

mod clearing;
mod dropping;
mod forgetting;
mod resizing;
mod runs;

pub use dropping::drop_past;
pub use resizing::resize;
