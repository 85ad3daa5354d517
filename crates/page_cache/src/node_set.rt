//! Sets of nodes whose members are listed without looking at the other nodes (Briggs and Torczon, An Efficient
//! Representation for Sparse Sets, 1993).
ghost use Rattle.std.specs.Prelude.{◌≡◌, ◌<◌, ◌≤◌, true, false, IfOk, length, slice_index};
ghost use Rattle.page_cache.specs.Sets.{is_member, IsOrdered, ChangesMember, HaveSwapped};

use std::alloc::{AllocError, Global};

/// A set of nodes. Each call takes constant time.
#[derive(Drop)]
pub(crate) struct NodeSet {
    /// All nodes, those of the set first.
    order: Vec<u32>,
    /// Where each node stands in `order`.
    ranks: Vec<u32>,
    /// How many nodes the set has.
    count: u32,
}

impl NodeSet {
    ghost use Rattle.page_cache.specs.Sets.{IsEmptySet};

    /// The empty set of the nodes below `nodes`.
    pub(crate) fn new(alloc: Global, nodes: u32) -> Result<NodeSet, AllocError>
        requires { nodes ≤ 131072 }
        ensures { IfOk result (λ set. IsEmptySet set.order.items set.ranks.items set.count nodes) }
    {
        let mut order = Vec::with_capacity(alloc, nodes as usize)?;
        let mut ranks = Vec::with_capacity(alloc, nodes as usize)?;
        for node in 0..nodes {
            order.push_reserved(node);
            ranks.push_reserved(node);
        }
        Ok(NodeSet {
            order,
            ranks,
            count: 0,
        })
    }

    /// How many nodes the set has.
    pub(crate) fn len(&self) -> u32
        ensures { result ≡ self.now.count }
    {
        self.count
    }

    /// The node of the set at that place, counted from 0 in no order that means anything.
    pub(crate) fn node(&self, place: u32) -> usize
        requires ordered { IsOrdered self.now.order.items self.now.ranks.items self.now.count }
        requires place { place < self.now.count }
        ensures { result ≡ slice_index self.now.order.items place }
    {
        self.order[place as usize] as usize
    }

    /// Whether the node is in the set.
    pub(crate) fn contains(&self, node: usize) -> bool
        requires { node < length self.now.ranks.items }
        ensures { result ≡ is_member self.now.ranks.items self.now.count node }
    {
        self.ranks[node] < self.count
    }

    /// Puts the node into the set.
    pub(crate) fn insert(&mut self, node: usize)
        requires ordered { IsOrdered self.old.order.items self.old.ranks.items self.old.count }
        requires inside { node < length self.old.ranks.items }
        ensures { ChangesMember node true self.old self.new }
    {
        let rank = self.ranks[node];
        if rank >= self.count {
            self.swap(rank as usize, self.count as usize);
            self.count += 1;
        }
    }

    /// Takes the node out of the set.
    pub(crate) fn remove(&mut self, node: usize)
        requires ordered { IsOrdered self.old.order.items self.old.ranks.items self.old.count }
        requires inside { node < length self.old.ranks.items }
        ensures { ChangesMember node false self.old self.new }
    {
        let rank = self.ranks[node];
        if rank < self.count {
            self.swap(rank as usize, self.count as usize - 1);
            self.count -= 1;
        }
    }

    /// Lets the nodes at two ranks change places.
    fn swap(&mut self, i: usize, j: usize)
        requires ordered { IsOrdered self.old.order.items self.old.ranks.items self.old.count }
        requires first { i < length self.old.ranks.items }
        requires second { j < length self.old.ranks.items }
        ensures ordered { IsOrdered self.new.order.items self.new.ranks.items self.new.count }
        ensures swapped { HaveSwapped self.old.order.items self.old.ranks.items self.new.ranks.items i j }
        ensures count { self.new.count ≡ self.old.count }
    {
        let first = self.order[i];
        let second = self.order[j];
        self.order[i] = second;
        self.order[j] = first;
        self.ranks[second as usize] = i as u32;
        self.ranks[first as usize] = j as u32;
    }
}
