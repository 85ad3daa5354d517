//! A map of the pool in memory: which home each slot is given to.
ghost use Rattle.std.specs.Prelude.{◌≡◌, ◌≤◌, ℕ, Bool, true, false, IfOk, length};
ghost use Rattle.pool_journal.specs.Maps.{entries_of, IsMapOf, IsSlotOf, GivesSlot, IsEmptyMap};
ghost use Rattle.pool_journal.specs.Pools.{most_blocks};

use crate::sizes::BLOCK_SLOTS;
use crate::slot::Slot;
use std::alloc::{AllocError, Global};

/// What each slot of the two bodies is given to: 0 is no home, otherwise it is the home's number and one.
#[derive(Drop)]
pub struct SlotMap {
    pub(crate) first: Vec<u32>,
    pub(crate) second: Vec<u32>,
}

impl SlotMap {
    /// A map of so many blocks that gives no slot to a home.
    pub(crate) fn new(alloc: Global, blocks: u32) -> Result<SlotMap, AllocError>
        requires { blocks ≤ most_blocks }
        ensures size { IfOk result (λ map. IsMapOf blocks map) }
        ensures empty { IfOk result IsEmptyMap }
    {
        let places = (BLOCK_SLOTS * blocks) as usize;
        let mut map = SlotMap {
            first: Vec::new(alloc),
            second: Vec::new(alloc),
        };
        map.first.resize(places, 0)?;
        map.second.resize(places, 0)?;
        Ok(map)
    }

    /// What the map gives the slots of a body to, in order.
    pub(crate) fn body(&self, second: bool) -> &[u32]
        ensures first { second ≡ false → result.now ≡ self.now.first.items }
        ensures second { second ≡ true → result.now ≡ self.now.second.items }
    {
        if second { &self.second } else { &self.first }
    }

    /// What the map gives a slot to.
    pub(crate) fn number(&self, slot: Slot) -> u32
        requires { IsSlotOf self.now slot }
        ensures { result ≡ entries_of self.now slot.second slot.place }
    {
        self.body(slot.second)[slot.place as usize]
    }

    /// Gives a slot to a home, by its number and one, or to none, by 0.
    pub(crate) fn give(&mut self, slot: Slot, number: u32)
        requires { IsSlotOf self.old slot }
        ensures { GivesSlot self.old self.new slot number }
    {
        if slot.second {
            self.second[slot.place as usize] = number;
        } else {
            self.first[slot.place as usize] = number;
        }
    }

    /// Gives no slot to a home.
    pub(crate) fn clear(&mut self)
        ensures empty { IsEmptyMap self.new }
        ensures size { (blocks : ℕ) → IsMapOf blocks self.old → IsMapOf blocks self.new }
    {
        self.first.fill(0);
        self.second.fill(0);
    }

    /// Gives the slots as another map does, of as many blocks.
    pub(crate) fn copy_from(&mut self, other: &SlotMap)
        requires { (length self.old.first.items ≡ length other.now.first.items) × (length self.old.second.items ≡ length other.now.second.items) }
        ensures first { self.new.first.items ≡ other.now.first.items }
        ensures second { self.new.second.items ≡ other.now.second.items }
    {
        self.first.copy_from_slice(&other.first);
        self.second.copy_from_slice(&other.second);
    }
}
