//! Which node holds which page of a file or an object, and a hash table that finds the node of a page.
ghost use Rattle.std.specs.Prelude.{◌≡◌, ◌+◌, ◌<◌, ◌≤◌, ◌≢◌, Some, None, IfOk, IfSome, replicate, slice_set, slice_index, length};
ghost use Rattle.vm_types.specs.Attributes.{file_page_eq, object_page_eq, page_key_eq};
ghost use Rattle.page_cache.specs.Nodes.{first_node, holds, page_at};
ghost use Rattle.page_cache.specs.Chains.{AreChained, IsSeat, bucket_of, page_number_of};

use std::alloc::{AllocError, Global};
use vm_types::{FilePage, ObjectPage, PageKey};

/// 2 ^ 64 over the golden ratio, made odd: a product with it spreads neighbouring pages over the buckets.
const SPREAD: u64 = 0x9e37_79b9_7f4a_7c15;

/// A number for a page of a file or an object.
fn number_of(page: PageKey) -> u64
    ensures { result ≡ page_number_of page }
{
    match page {
        PageKey::File(page) => u64::from(page.file) * (1 << 32) + u64::from(page.page),
        PageKey::Object(page) => {
            ((u64::from(page.object) + 256) * (1 << 32)).wrapping_add(page.page)
        }
    }
}

/// The bucket of a page, at most `mask`.
#[tactic(auto, unfolding(crate::specs::Chains::bucket_of))]
fn bucket_of(mask: u32, page: PageKey) -> usize
    ensures bucket { result ≡ bucket_of mask page }
    ensures within { result ≤ mask }
{
    ((number_of(page).wrapping_mul(SPREAD) >> 32) as u32 & mask) as usize
}

/// Whether these are one file page.
pub(crate) fn is_same_file_page(a: FilePage, b: FilePage) -> bool
    ensures { result ≡ file_page_eq a b }
{
    a.file == b.file && a.page == b.page
}

/// Whether these are one page of an object.
fn is_same_object_page(a: ObjectPage, b: ObjectPage) -> bool
    ensures { result ≡ object_page_eq a b }
{
    a.object == b.object && a.page == b.page
}

/// Whether these are one page.
fn is_same(a: PageKey, b: PageKey) -> bool
    ensures { result ≡ page_key_eq a b }
{
    match (a, b) {
        (PageKey::File(a), PageKey::File(b)) => is_same_file_page(a, b),
        (PageKey::Object(a), PageKey::Object(b)) => is_same_object_page(a, b),
        _ => false,
    }
}

/// Whether this is the page that a node holds.
fn holds(page: PageKey, held: Option<PageKey>) -> bool
    ensures { result ≡ holds page held }
{
    match held {
        Some(held) => is_same(held, page),
        None => false,
    }
}

/// The pages that nodes hold. The nodes of a bucket are chained by rising number, so no chain holds a node twice.
#[derive(Drop)]
pub(crate) struct Index {
    /// The page of each node.
    pages: Vec<Option<PageKey>>,
    /// The first node of each bucket, and then for each node the next one of its bucket; the number of nodes at the end.
    links: Vec<u32>,
    /// The number of buckets, a power of two, less one.
    mask: u32,
}

impl Index {
    ghost use Rattle.page_cache.specs.Chains.{IsEmptyIndex};

    /// The index of `nodes` nodes that hold nothing.
    pub(crate) fn new(alloc: Global, nodes: u32) -> Result<Index, AllocError>
        requires some { 0 < nodes }
        requires few { nodes ≤ 131072 }
        ensures { IfOk result (λ index. IsEmptyIndex index.pages.items index.links.items index.mask nodes) }
    {
        let mask = u32::MAX >> nodes.leading_zeros();
        let links = vec![in alloc; nodes; mask as usize + 1 + nodes as usize]?;
        let mut pages = Vec::with_capacity(alloc, nodes as usize)?;
        for node in 0..nodes {
            pages.push_reserved(None);
        }
        Ok(Index { pages, links, mask })
    }

    /// The number of nodes.
    pub(crate) fn len(&self) -> usize
        ensures { result ≡ length self.now.pages.items }
    {
        self.pages.len()
    }

    /// What the node holds.
    pub(crate) fn page(&self, node: usize) -> Option<PageKey>
        requires { node < length self.now.pages.items }
        ensures { result ≡ page_at self.now.pages.items node }
    {
        self.pages[node]
    }

    /// The node that holds the page.
    pub(crate) fn find(&self, page: PageKey) -> Option<usize>
        requires { AreChained self.now.pages.items self.now.links.items self.now.mask }
        ensures first { result ≡ first_node self.now.pages.items page }
        ensures held { IfSome result (λ node. page_at self.now.pages.items node ≡ Some page) }
    {
        let mut node = self.links[bucket_of(self.mask, page)] as usize;
        while node < self.pages.len() {
            if holds(page, self.pages[node]) {
                return Some(node);
            }
            node = self.links[self.mask as usize + 1 + node] as usize;
        }
        None
    }

    /// The link at which the node stands in the chain of the bucket, or would.
    fn seat(&self, bucket: usize, node: usize) -> usize
        requires chained { AreChained self.now.pages.items self.now.links.items self.now.mask }
        requires bucket { bucket ≤ self.now.mask }
        requires node { node < length self.now.pages.items }
        ensures seat { IsSeat self.now.pages.items self.now.links.items self.now.mask bucket node result }
        ensures from { node ≤ slice_index self.now.links.items result }
    {
        let mut at = bucket;
        while (self.links[at] as usize) < node {
            at = self.mask as usize + 1 + self.links[at] as usize;
        }
        at
    }

    /// Gives the node, which holds nothing, a page.
    pub(crate) fn insert(&mut self, node: usize, page: PageKey)
        requires chained { AreChained self.old.pages.items self.old.links.items self.old.mask }
        requires inside { node < length self.old.pages.items }
        requires free { page_at self.old.pages.items node ≡ None }
        ensures pages { self.new.pages.items ≡ slice_set self.old.pages.items node (Some page) }
        ensures chained { AreChained self.new.pages.items self.new.links.items self.new.mask }
    {
        let at = self.seat(bucket_of(self.mask, page), node);
        let own = self.mask as usize + 1 + node;
        self.links[own] = self.links[at];
        self.links[at] = node as u32;
        self.pages[node] = Some(page);
    }

    /// Takes its page from the node.
    pub(crate) fn remove(&mut self, node: usize, page: PageKey)
        requires chained { AreChained self.old.pages.items self.old.links.items self.old.mask }
        requires held { page_at self.old.pages.items node ≡ Some page }
        ensures pages { self.new.pages.items ≡ slice_set self.old.pages.items node None }
        ensures chained { AreChained self.new.pages.items self.new.links.items self.new.mask }
    {
        let at = self.seat(bucket_of(self.mask, page), node);
        let own = self.mask as usize + 1 + node;
        self.links[at] = self.links[own];
        self.pages[node] = None;
    }
}
