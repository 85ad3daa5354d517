//! Room to work in.

use crate::call::Call;

/// Room that the caller lends to work in: a plan has no more calls than the shorter of the two has places. Nothing is said of what they
/// hold, before or after.
#[derive(Drop)]
pub struct Scratch<'a> {
    pub calls: &'a mut [Call],
    pub rows: &'a mut [[u8; 512]],
}
