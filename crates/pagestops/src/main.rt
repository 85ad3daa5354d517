//! Tries stops of a trace. What it takes and returns stands at `stop_trials::pagestops`.
#![tactic(auto)]

use programs::given_words;
use std::process::ExitCode;
use stop_trials::pagestops;

fn main(rt: HostRuntime) -> ExitCode {
    let (mut input, mut output, mut errors) = (rt.stdin(), rt.stdout(), rt.stderr());
    let status = match given_words(&rt, "pagestops", &mut errors) {
        Ok(words) => pagestops(&rt, words.as_slice(), &mut input, &mut output, &mut errors),
        Err(status) => status,
    };
    ExitCode::from(status)
}
