//! Writes a file of an image out. What it takes and returns stands at `programs::pagecat`.
#![tactic(auto)]

use programs::{given_words, pagecat};
use std::process::ExitCode;

fn main(rt: HostRuntime) -> ExitCode {
    let (mut input, mut output, mut errors) = (rt.stdin(), rt.stdout(), rt.stderr());
    let status = match given_words(&rt, "pagecat", &mut errors) {
        Ok(words) => pagecat(&rt, words.as_slice(), &mut input, &mut output, &mut errors),
        Err(status) => status,
    };
    ExitCode::from(status)
}
