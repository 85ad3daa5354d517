//! Batches of pages: pages of several files of an image that become durable all at once, and the program `pagesync`,
//! which takes batches from a stream.
#![tactic(auto)]

mod batch;
mod commits;
mod pages;
mod program;
mod requests;
mod serving;

pub use commits::{BatchFault, commit_pages};
pub use pages::{BadBatch, check_page, check_pages};
pub use program::pagesync;
pub use serving::{ServeEnd, serve};
