//! Serves a kernel whose hardware walks the page tables of a machine. What it takes and returns stands at `serving::pagemmu`.
#![tactic(auto)]

use programs::given_words;
use serving::pagemmu;
use std::process::ExitCode;

fn main(rt: HostRuntime) -> ExitCode {
    let (mut input, mut output, mut errors) = (rt.stdin(), rt.stdout(), rt.stderr());
    let status = match given_words(&rt, "pagemmu", &mut errors) {
        Ok(words) => pagemmu(&rt, words.as_slice(), &mut input, &mut output, &mut errors),
        Err(status) => status,
    };
    ExitCode::from(status)
}
