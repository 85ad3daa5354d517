//! Makes an image of a store. What it takes and returns stands at `programs::pagefmt`.
#![tactic(auto)]

use programs::{given_words, pagefmt};
use std::process::ExitCode;

fn main(rt: HostRuntime) -> ExitCode {
    let (mut input, mut output, mut errors) = (rt.stdin(), rt.stdout(), rt.stderr());
    let status = match given_words(&rt, "pagefmt", &mut errors) {
        Ok(words) => pagefmt(&rt, words.as_slice(), &mut input, &mut output, &mut errors),
        Err(status) => status,
    };
    ExitCode::from(status)
}
