//! Requests of a kernel whose hardware walks the page tables of a machine: nine numbers each, and five in reply.
#![tactic(auto)]

mod numbers;
mod program;
mod reading;
mod requests;
mod responses;
mod serving;

pub use numbers::{REQUEST_BYTES, RequestNumbers};
pub use program::pagemmu;
pub use requests::Request;
pub use responses::Response;
pub use serving::{respond, serve};
