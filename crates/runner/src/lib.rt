//! The engine that reads a trace and writes the replies to its lines, and a whole run from a store to the end of a trace.
#![tactic(auto)]

mod answering;
mod engine;
mod line_buffer;
mod output_buffer;
mod starting;

pub use answering::answer_line;
pub use engine::{ReadFault, RunEnd, read_once, run};
pub use line_buffer::LineBuffer;
pub use output_buffer::{WriteFault, write_bytes};
pub use starting::{Devices, run_on};
