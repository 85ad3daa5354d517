//! Runs a trace on an image, and shows what lies inside. What it takes and returns stands at `looking::pagelook`.
#![tactic(auto)]

use looking::pagelook;
use programs::given_words;
use std::process::ExitCode;

fn main(rt: HostRuntime) -> ExitCode {
    let (mut input, mut output, mut errors) = (rt.stdin(), rt.stdout(), rt.stderr());
    let status = match given_words(&rt, "pagelook", &mut errors) {
        Ok(words) => pagelook(&rt, words.as_slice(), &mut input, &mut output, &mut errors),
        Err(status) => status,
    };
    ExitCode::from(status)
}
