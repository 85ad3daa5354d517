//! The language of traces: which command a line stands for, and which text a reply is.
#![tactic(auto)]

mod arguments;
mod forms;
mod fronts;
mod names;
mod numerals;
mod output;
mod parsing;
mod radices;
mod texts;
mod words;

pub use numerals::parse_number;
pub use parsing::{BadLine, MAX_LINE_BYTES, parse_line};
pub use texts::{answer_text, bad_line_text, history_text, reply_text};
