//! The map from page to place, and the set of touched pages.
ghost use Rattle.std.specs.Prelude.{◌≡◌, ◌≢◌, ◌+◌, ◌<◌, ◌≤◌, ◌^◌, ◌↔◌, true, false, Some, None, IfOk, IfSome, IfNone, OnErr, IsErr, length};

use crate::gathering::{FileRow, filed, is_in_row, push_fresh};
use crate::index::Index;
use crate::node_set::NodeSet;
use crate::place::{Place, TooMany};
use std::alloc::{AllocError, Global};
use std::marker::Model;
use vm_types::{FilePage, FrameNo, PageKey, SlotNo};

/// Where each page of a file or an object is, and which are touched: a file page stored to through a shared mapping and not
/// made durable since, and a page of an object stored to at all. A frame and a slot hold at most one such page each; every
/// other page is at home, in the store, or as the zeros that a page of an object has at first. In contracts it is that map
/// and that set.
#[derive(Drop)]
pub struct PageCache {
    /// The number of frames. The nodes of the index are the frames, and then the slots.
    frames: u32,
    index: Index,
    /// The nodes whose page is touched.
    touched: NodeSet,
}

impl Model for PageCache {
    ghost use Rattle.page_cache.specs.CacheTable.{CacheTable};

    ghost Value = { CacheTable };

    ghost use Rattle.page_cache.specs.Inside.{cache_table_of, IsWholeCache};

    ghost view = { cache_table_of };

    ghost invariant = { IsWholeCache };
}

impl PageCache {
    ghost use Rattle.page_cache.specs.declared.place.Place.TheVariants.{Home, Frame, Slot};
    ghost use Rattle.page_cache.specs.Gathering.{IsGathering, Gathers, GathersRow, HasAll, Overflows, fresh_count, IsTouchedAt};
    ghost use Rattle.page_cache.specs.CacheTable.{cache_frames, slot_count, place_in, place_of, is_touched, IsInside, IsFreeFor, IsSoundCache, IsNewCache, SameButForPage};

    /// The cache of a memory of `frames` frames, 8 to 65,536, and of `slots` slots of swap, at most 65,536, with every
    /// page at home and untouched. No later call takes memory of the host.
    ///
    /// # Errors
    /// `AllocError` where the host has not enough memory.
    pub fn new(alloc: Global, frames: u32, slots: u32) -> Result<PageCache, AllocError>
        requires least_frames { 8 ≤ frames }
        requires most_frames { frames ≤ 65536 }
        requires most_slots { slots ≤ 65536 }
        ensures fresh { IfOk result (λ cache. IsNewCache cache frames slots) }
        ensures sound { IfOk result IsSoundCache }
    {
        let index = Index::new(alloc, frames + slots)?;
        let touched = NodeSet::new(alloc, frames + slots)?;
        Ok(PageCache {
            frames,
            index,
            touched,
        })
    }

    /// The number of frames, 8 to 65,536. The second clause is what is true at all times.
    pub fn frames(&self) -> u32
        ensures count { result ≡ cache_frames self.now }
        ensures sound { IsSoundCache self.now }
    {
        self.frames
    }

    /// The number of slots, at most 65,536.
    pub fn slots(&self) -> u32
        ensures { result ≡ slot_count self.now }
    {
        self.index.len() as u32 - self.frames
    }

    /// Where the page is.
    pub fn place(&self, page: PageKey) -> Place
        ensures { result ≡ place_of self.now page }
    {
        match self.index.find(page) {
            Some(node) if node < self.frames as usize => Place::Frame(FrameNo(node as u32)),
            Some(node) => Place::Slot(SlotNo(node as u32 - self.frames)),
            None => Place::Home,
        }
    }

    /// Whether the page is touched.
    pub fn is_touched(&self, page: PageKey) -> bool
        ensures { result ≡ is_touched self.now page }
    {
        match self.index.find(page) {
            Some(node) => self.touched.contains(node),
            None => false,
        }
    }

    /// Whether the page that frame `n` holds is touched: what `is_touched` says of it, without a search.
    pub fn is_frame_touched(&self, n: FrameNo) -> bool
        requires { n.0 < cache_frames self.now }
        ensures { (page : PageKey) → place_of self.now page ≡ Frame n → result ≡ is_touched self.now page }
    {
        self.touched.contains(n.0 as usize)
    }

    /// The page that frame `n` holds; `None` exactly where it holds none.
    pub fn page_in_frame(&self, n: FrameNo) -> Option<PageKey>
        requires { n.0 < cache_frames self.now }
        ensures held { IfSome result (λ page. place_of self.now page ≡ Frame n) }
        ensures none { IfNone result ((page : PageKey) → place_of self.now page ≢ Frame n) }
    {
        self.index.page(n.0 as usize)
    }

    /// The page that slot `n` holds; `None` exactly where it holds none.
    pub fn page_in_slot(&self, n: SlotNo) -> Option<PageKey>
        requires { n.0 < slot_count self.now }
        ensures held { IfSome result (λ page. place_of self.now page ≡ Slot n) }
        ensures none { IfNone result ((page : PageKey) → place_of self.now page ≢ Slot n) }
    {
        self.index.page(self.frames as usize + n.0 as usize)
    }

    /// Moves the page to that place, which no other page has. It is touched afterwards where it was before; a
    /// touched page isn't given `Home`.
    pub fn set_place(&mut self, page: PageKey, place: Place)
        requires inside { IsInside self.old place }
        requires free { IsFreeFor self.old page place }
        requires kept { is_touched self.old page ≡ true → place ≢ Home }
        ensures placed { place_of self.new page ≡ place }
        ensures touched { is_touched self.new page ≡ is_touched self.old page }
        ensures others { SameButForPage page self.old self.new }
    {
        let touched = self.take_out(page);
        match place {
            Place::Home => {}
            Place::Frame(n) => self.hold(n.0 as usize, page, touched),
            Place::Slot(n) => self.hold(self.frames as usize + n.0 as usize, page, touched),
        }
    }

    /// Puts the page, which isn't at home, among the touched ones.
    pub fn mark_dirty(&mut self, page: PageKey)
        requires { place_of self.old page ≢ Home }
        ensures touched { is_touched self.new page ≡ true }
        ensures placed { place_of self.new page ≡ place_of self.old page }
        ensures others { SameButForPage page self.old self.new }
    {
        if let Some(node) = self.index.find(page) {
            self.touched.insert(node);
        }
    }

    /// Takes the page from among the touched ones; it stays where it is.
    pub fn clean(&mut self, page: PageKey)
        ensures untouched { is_touched self.new page ≡ false }
        ensures placed { place_of self.new page ≡ place_of self.old page }
        ensures others { SameButForPage page self.old self.new }
    {
        if let Some(node) = self.index.find(page) {
            self.touched.remove(node);
        }
    }

    /// Appends the touched pages of the row, whose numbers are under 2 ^ 32, to the first `used` entries of the list, but those
    /// that are among these already. Returns how many entries there are then. `ranks` has a place for each frame and each slot,
    /// where the rank in the list of the page there is noted. Each call goes on with both as the one before left them; with
    /// `used` 0 they may hold anything.
    /// Its time is that of the shorter of two: a look at each page of the row, or at each touched page.
    ///
    /// # Errors
    /// `TooMany` exactly where there would be more entries than the list has room for. Then it is full, the first `used` of them
    /// as before and the others touched pages of the row.
    pub fn dirty_in(
        &self,
        row: FileRow,
        list: &mut [FilePage],
        ranks: &mut [u32],
        used: usize,
    ) -> Result<usize, TooMany>
        requires gathering { IsGathering self.now list.old ranks.old used }
        requires row { row.first.page + row.count ≤ 2 ^ 32 }
        ensures gathered { IfOk result (λ n. Gathers self.now row.first.file row.first.page row.count used list.old list.new ranks.new n) }
        ensures all { IfOk result (λ n. HasAll self.now row.first.file row.first.page row.count list.new n) }
        ensures number { IfOk result (λ n. n ≡ used + fresh_count self.now row.first.file row.first.page row.count list.old used) }
        ensures exact { IsErr result ↔ (length list.old < used + fresh_count self.now row.first.file row.first.page row.count list.old used) }
        ensures too_many { OnErr result (Overflows self.now row.first.file row.first.page row.count used list.old list.new ranks.new) }
    {
        if row.count < self.touched.len() {
            self.gather_row(row, list, ranks, used)
        } else {
            self.gather_touched(row, list, ranks, used)
        }
    }

    /// `dirty_in` by a look at each page of the row.
    fn gather_row(
        &self,
        row: FileRow,
        list: &mut [FilePage],
        ranks: &mut [u32],
        used: usize,
    ) -> Result<usize, TooMany>
        requires gathering { IsGathering self.now list.old ranks.old used }
        requires row { row.first.page + row.count ≤ 2 ^ 32 }
        ensures { GathersRow self.now row.first.file row.first.page row.count used list.old list.new ranks.new result }
    {
        let mut n = used;
        for offset in 0..row.count {
            let page = FilePage {
                file: row.first.file,
                page: row.first.page + offset,
            };
            if let Some(node) = self.touched_node(PageKey::File(page)) {
                n = push_fresh(list, ranks, n, node, page)?;
            }
        }
        Ok(n)
    }

    /// `dirty_in` by a look at each touched page.
    fn gather_touched(
        &self,
        row: FileRow,
        list: &mut [FilePage],
        ranks: &mut [u32],
        used: usize,
    ) -> Result<usize, TooMany>
        requires { IsGathering self.now list.old ranks.old used }
        ensures { GathersRow self.now row.first.file row.first.page row.count used list.old list.new ranks.new result }
    {
        let mut n = used;
        for place in 0..self.touched.len() {
            let node = self.touched.node(place);
            if let Some(page) = filed(self.index.page(node)) {
                if is_in_row(page, row) {
                    n = push_fresh(list, ranks, n, node, page)?;
                }
            }
        }
        Ok(n)
    }

    /// The node that holds the page, where it is touched. The third clause is what is true at all times.
    fn touched_node(&self, page: PageKey) -> Option<usize>
        ensures touched { IfSome result (IsTouchedAt self.now page) }
        ensures untouched { IfNone result (is_touched self.now page ≡ false) }
        ensures sound { IsSoundCache self.now }
    {
        match self.index.find(page) {
            Some(node) if self.touched.contains(node) => Some(node),
            _ => None,
        }
    }

    /// Sends the page home and untouched. Returns whether it was touched.
    fn take_out(&mut self, page: PageKey) -> bool
        ensures was { result ≡ is_touched self.old page }
        ensures placed { place_of self.new page ≡ Home }
        ensures untouched { is_touched self.new page ≡ false }
        ensures others { SameButForPage page self.old self.new }
    {
        let Some(node) = self.index.find(page) else {
            return false;
        };
        let touched = self.touched.contains(node);
        self.touched.remove(node);
        self.index.remove(node, page);
        touched
    }

    /// Gives the page, which is at home, the node, which holds none.
    fn hold(&mut self, node: usize, page: PageKey, touched: bool)
        requires inside { node < cache_frames self.old + slot_count self.old }
        requires home { place_of self.old page ≡ Home }
        requires untouched { is_touched self.old page ≡ false }
        requires free { (p : PageKey) → place_of self.old p ≢ place_in (cache_frames self.old) (Some node) }
        ensures placed { place_of self.new page ≡ place_in (cache_frames self.old) (Some node) }
        ensures touched { is_touched self.new page ≡ touched }
        ensures others { SameButForPage page self.old self.new }
    {
        self.index.insert(node, page);
        if touched {
            self.touched.insert(node);
        }
    }
}
