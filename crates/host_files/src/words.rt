//! The words that a program is started with.
use std::env::{self, Env};
use std::io;

/// The words after the program's name.
///
/// # Errors
///
/// `OutOfMemory` where the host has no memory, and another kind where a word is no UTF-8.
pub fn words_after_name<R: Env + AllocGlobal>(rt: &R) -> io::Result<Vec<String>> {
    let words = env::args(rt)?.skip(1).collect(rt.alloc())?;
    Ok(words)
}
