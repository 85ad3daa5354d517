//! Room for the pages of a commit in the order of their homes.
ghost use Rattle.std.specs.Prelude.{◌≡◌, ◌≤◌, ◌<◌, ◌*◌, ◌^◌, ℕ, Some, length, map, take, slice_get, vec_capacity, IfOk};
ghost use Rattle.vm_types.specs.declared.file.FilePage.{FilePage};
ghost use Rattle.file_store.specs.Standing.{IsPageOf};
ghost use Rattle.pool_journal.specs.Sizes.{IsSized};
ghost use Rattle.pool_store.specs.Store.{info_by, IsDirectoryOn, HasCommitRoom};
ghost use Rattle.pool_store.specs.Places.{places_from, PutsInOrder};

use crate::directory::Directory;
use pool_journal::PoolSizes;
use std::alloc::{AllocError, Global};
use vm_types::FilePage;

/// A page of a commit.
#[derive(Clone, Copy, Debug, PartialEq, Eq)]
pub struct Place {
    /// Its home.
    pub home: u32,
    /// Which one it is of the caller's list.
    pub index: u32,
}

/// Room for the pages of one commit after the other.
#[derive(Drop)]
pub struct CommitRoom {
    /// The pages, by their homes.
    pub places: Vec<Place>,
    /// Their homes, rising.
    pub homes: Vec<u32>,
}

impl CommitRoom {
    /// Room for a commit to all slots of a pool.
    pub(crate) fn new(alloc: Global, sizes: PoolSizes) -> Result<CommitRoom, AllocError>
        requires { IsSized sizes }
        ensures { IfOk result (HasCommitRoom sizes.blocks) }
    {
        let slots = 2 * sizes.places() as usize;
        Ok(CommitRoom {
            places: Vec::with_capacity(alloc, slots)?,
            homes: Vec::with_capacity(alloc, slots)?,
        })
    }

    /// Puts pages that begin inside their files into the order of their homes.
    pub fn place(&mut self, directory: &Directory, pages: &[FilePage])
        requires on { (homes : ℕ) × (homes ≤ 2 ^ 30) × IsDirectoryOn homes directory.now }
        requires inside { (i : ℕ) (p : FilePage) → slice_get pages.now i ≡ Some p → IsPageOf (info_by directory.now) p.file p.page }
        requires few { length pages.now < 2 ^ 32 }
        requires room { (length pages.now ≤ vec_capacity self.old.places) × (length pages.now ≤ vec_capacity self.old.homes) }
        ensures order { PutsInOrder directory.now pages.now self.new.places.items self.new.homes.items }
        ensures long { (length self.new.places.items ≡ length pages.now) × (length self.new.homes.items ≡ length pages.now) }
        ensures room { (vec_capacity self.old.places ≤ vec_capacity self.new.places) × (vec_capacity self.old.homes ≤ vec_capacity self.new.homes) }
    {
        self.hold(pages.len());
        order(directory, pages, &mut self.places, &mut self.homes);
    }

    /// Has so many places and homes, whatever they are: there is room for them.
    fn hold(&mut self, count: usize)
        requires room { (count ≤ vec_capacity self.old.places) × (count ≤ vec_capacity self.old.homes) }
        ensures long { (length self.new.places.items ≡ count) × (length self.new.homes.items ≡ count) }
        ensures room { (vec_capacity self.old.places ≤ vec_capacity self.new.places) × (vec_capacity self.old.homes ≤ vec_capacity self.new.homes) }
    {
        let Ok(()) = self.places.resize(count, Place { home: 0, index: 0 }) else {
            unreachable!();
        };
        let Ok(()) = self.homes.resize(count, 0) else {
            unreachable!();
        };
    }
}

/// Puts pages into the order of their homes, to the front of two lists.
fn order(directory: &Directory, pages: &[FilePage], places: &mut [Place], homes: &mut [u32])
    requires on { (homes : ℕ) × (homes ≤ 2 ^ 30) × IsDirectoryOn homes directory.now }
    requires inside { (i : ℕ) (p : FilePage) → slice_get pages.now i ≡ Some p → IsPageOf (info_by directory.now) p.file p.page }
    requires few { length pages.now < 2 ^ 32 }
    requires room { (length pages.now ≤ length places.old) × (length pages.now ≤ length homes.old) }
    ensures order { PutsInOrder directory.now pages.now places.new homes.new }
    ensures room { (length places.new ≡ length places.old) × (length homes.new ≡ length homes.old) }
{
    find_places(directory, pages, places);
    places[..pages.len()].sort_unstable_by_key(|place| place.home);
    list_homes(&places[..pages.len()], homes);
}

/// Puts each page, with its home, to its place in the list.
fn find_places(directory: &Directory, pages: &[FilePage], places: &mut [Place])
    requires on { (homes : ℕ) × (homes ≤ 2 ^ 30) × IsDirectoryOn homes directory.now }
    requires inside { (i : ℕ) (p : FilePage) → slice_get pages.now i ≡ Some p → IsPageOf (info_by directory.now) p.file p.page }
    requires few { length pages.now < 2 ^ 32 }
    requires room { length pages.now ≤ length places.old }
    ensures found { take (length pages.now) places.new ≡ places_from directory.now 0 pages.now }
    ensures room { length places.new ≡ length places.old }
{
    for i in 0..pages.len() {
        places[i] = Place {
            home: directory.home_of(pages[i]),
            index: i as u32,
        };
    }
}

/// Lists the homes of places.
fn list_homes(places: &[Place], homes: &mut [u32])
    requires { length places.now ≤ length homes.old }
    ensures listed { take (length places.now) homes.new ≡ map (λ place. place.home) places.now }
    ensures room { length homes.new ≡ length homes.old }
{
    for i in 0..places.len() {
        homes[i] = places[i].home;
    }
}
