//! Sizes, as the calls count them.
use vm_types::PAGE_BYTES;

/// Bytes of a page, as a number of addresses.
pub(crate) const PAGE: u64 = PAGE_BYTES as u64;
