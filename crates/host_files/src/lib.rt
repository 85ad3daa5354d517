//! The host, as the programs come to it: the words after a program's name, the numbers of its standard streams, and files under a lock.
//! No clause says what the host has: a path, a lock and a length have no model.
#![tactic(auto)]

mod files;
mod places;
mod words;

pub use files::{
    Opening, lengthen, open_alone, open_lengthened, open_regular, open_to_read, open_to_show,
};
pub use places::{NOTHING, held_places};
pub use words::words_after_name;
