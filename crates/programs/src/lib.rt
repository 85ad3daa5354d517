//! The programs: each is a function of the words after its name and of its streams, and returns its exit status.
#![tactic(auto)]

mod faults;
mod files;
mod formatting;
mod places;
mod running;
mod showing;
mod sources;
mod start;
mod upgrading;

pub use faults::{ProgramFault, report};
pub use formatting::pagefmt;
pub use places::held_places;
pub use running::{boot_image, pagerun, status_of};
pub use showing::{ShowFault, pagecat, show, show_opened};
pub use sources::open_sources;
pub use start::given_words;
