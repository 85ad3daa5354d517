//! Room for the regions that a call gives a process. No clause says what it holds, so it is never cleared.
use regions::Regions;
use std::marker::Model;
use vm_types::Levels;

/// Room for the regions of one call after the other.
#[derive(Drop)]
pub struct RegionRoom<M: Levels> {
    next: Regions<M>,
}

impl<M: Levels> Model for RegionRoom<M> {
    ghost Value = { Unit {0} };

    ghost view = { λ _. tt };
}

impl<M: Levels> RegionRoom<M> {
    /// Room that holds anything.
    pub fn new() -> RegionRoom<M> {
        RegionRoom {
            next: Regions::new(),
        }
    }

    pub(crate) fn next(&mut self) -> &mut Regions<M> {
        &mut self.next
    }
}
