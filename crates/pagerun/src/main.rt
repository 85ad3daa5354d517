//! Runs a trace on an image. What it takes and returns stands at `programs::pagerun`.
#![tactic(auto)]

use programs::{given_words, pagerun};
use std::process::ExitCode;

fn main(rt: HostRuntime) -> ExitCode {
    let (mut input, mut output, mut errors) = (rt.stdin(), rt.stdout(), rt.stderr());
    let status = match given_words(&rt, "pagerun", &mut errors) {
        Ok(words) => pagerun(&rt, words.as_slice(), &mut input, &mut output, &mut errors),
        Err(status) => status,
    };
    ExitCode::from(status)
}
