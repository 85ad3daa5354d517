//! What was found, and what is wanted.
use std::test::Fail;

/// Sees that the bytes found are those that are wanted.
pub fn same(what: &str, found: &[u8], wanted: &[u8]) -> Result<(), Fail> {
    if found == wanted {
        Ok(())
    } else {
        Err(Fail::new(format_args!("{what}: {found:?}, and not {wanted:?}")))
    }
}

/// Sees that the number found is the one that is wanted.
pub fn same_number(what: &str, found: u64, wanted: u64) -> Result<(), Fail> {
    if found == wanted {
        Ok(())
    } else {
        Err(Fail::new(format_args!("{what}: {found}, and not {wanted}")))
    }
}

/// These bytes, each so many times over, one after the other.
pub fn repeated(rt: &HostRuntime, parts: &[(&[u8], usize)]) -> Result<Vec<u8>, Fail> {
    let mut all = Vec::new(rt.alloc());
    for (bytes, times) in parts {
        add(&mut all, bytes, *times)?;
    }
    Ok(all)
}

fn add(all: &mut Vec<u8>, bytes: &[u8], times: usize) -> Result<(), Fail> {
    for _ in 0..times {
        all.extend_from_slice(bytes)?;
    }
    Ok(())
}
