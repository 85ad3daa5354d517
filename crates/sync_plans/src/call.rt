//! The calls of a plan.

/// A call to be made of a device. Call `k` of a plan, of this kind:
///
/// - 1 writes row `k` of the plan to `sector`.
/// - 2 syncs.
/// - 3 writes page `from` of those that the caller lent to the eight sectors from `sector` on.
/// - 4 writes to them what the eight sectors from `from` on hold in the image.
/// - 5 writes zeros to the sectors of `from` pages from `sector` on, eight a page.
#[repr(C)]
#[derive(Clone, Copy)]
pub struct Call {
    pub kind: u64,
    pub sector: u64,
    pub from: u64,
}
