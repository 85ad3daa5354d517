//! What a machine holds, told in lines: the questions that one may ask of a running trace, and the answers.
#![tactic(auto)]

mod answers;
mod bytes;
mod files;
mod holdings;
mod maps;
mod questions;
mod tables;

pub use answers::answer_question;
pub use questions::{Form, Misasked, Question, question_in};
