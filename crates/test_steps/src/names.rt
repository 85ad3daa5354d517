//! The paths of a test's files.
use std::test::Fail;

/// How the paths of a test's files begin.
pub(crate) fn start_of(rt: &HostRuntime, test: &str) -> Result<String, Fail> {
    let id = std::process::id(rt.process());
    Ok(format!(in rt.alloc(); "/tmp/kefsdalv-{id}-{test}-")?)
}

/// A text with that in the place of each `@`.
pub(crate) fn named(rt: &HostRuntime, start: &str, text: &str) -> Result<String, Fail> {
    Ok(text.replace(rt.alloc(), "@", start)?)
}

/// The path of a file of that test.
pub fn path(rt: &HostRuntime, test: &str, file: &str) -> Result<String, Fail> {
    let start = start_of(rt, test)?;
    named(rt, start.as_str(), file)
}
