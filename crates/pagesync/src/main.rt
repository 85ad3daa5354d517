//! Makes batches of pages of an image durable. What it takes and returns stands at `batches::pagesync`.
#![tactic(auto)]

use batches::pagesync;
use host_files::words_after_name;
use std::io::{self, ErrorKind, Write};
use std::process::ExitCode;

fn main(rt: HostRuntime) -> ExitCode {
    let (input, mut output, mut errors) = (rt.stdin(), rt.stdout(), rt.stderr());
    let status = match words_after_name(&rt) {
        Ok(words) => pagesync(&rt, words.as_slice(), input, &mut output, &mut errors),
        Err(error) => report(&error, &mut errors),
    };
    ExitCode::from(status)
}

/// The exit status where the words were not had, which is said in one line: 1 for want of memory, 2 where one is no UTF-8.
fn report<X: Write>(error: &io::Error, errors: &mut X) -> u8 {
    // Where this stream fails too, the status alone says it.
    if error.kind() == ErrorKind::OutOfMemory {
        let _ = writeln!(errors, "pagesync: out of memory");
        1
    } else {
        let _ = writeln!(errors, "pagesync: usage");
        2
    }
}
