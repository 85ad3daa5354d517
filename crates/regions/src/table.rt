//! The table of runs, and the calls on it.
ghost use Rattle.std.specs.Prelude.{◌≡◌, ◌+◌, ◌^◌, ◌<◌, ◌≤◌, ℕ, Some, None, IfNone, IfSome, OnOk, OnErr, [], length, max};
ghost use Rattle.vm_types.specs.Limits.{user_start};

use crate::RUNS;
use crate::run::Run;
use std::marker::{Model, PhantomData};
use vm_types::{Attr, Backing, Levels, PageKey, Prot, TooManyRuns, USER_START, Vpn, WIDEST_END};

/// Bytes of a page.
const PAGE_BYTES: u64 = vm_types::PAGE_BYTES as u64;

/// A map from user pages of the mode to attributes of at most 256 runs. Contracts see it through `attr_at`, as that map.
#[derive(Drop)]
pub struct Regions<M: Levels> {
    runs: [Run; RUNS],
    len: usize,
    levels: PhantomData<M>,
}

impl<M: Levels> Model for Regions<M> {
    ghost use Rattle.std.specs.Prelude.{ℕ, ◌≤◌, ◌≡◌, List, length, take};
    ghost use Rattle.regions.specs.declared.run.Run.{Run};

    ghost Value = { List Run };

    ghost use Rattle.regions.specs.RunList.{IsMaximal};
    ghost use Rattle.vm_types.specs.Limits.{user_start};

    ghost view = { λ r. take r.len r.runs };

    ghost invariant = { λ r. (r.len ≤ 256) × (length r.runs ≡ 256) × IsMaximal M.mode user_start (take r.len r.runs) };
}

impl<M: Levels> Regions<M> {
    ghost use Rattle.vm_types.specs.Attributes.{backing_fits};
    ghost use Rattle.vm_types.specs.Placement.{is_place, placed};
    ghost use Rattle.vm_types.specs.Rows.{IsUserMap, is_covered, protected, removed, replaced};
    ghost use Rattle.vm_types.specs.Runs.{run_count};
    ghost use Rattle.regions.specs.Run.{IsRun};
    ghost use Rattle.regions.specs.RunList.{attr_at, end_of, IsMaximal, IsNextRun, joins_last, pasted, pushed};
    ghost use Rattle.regions.specs.Remaps.{MakesMap};
    ghost use Rattle.regions.specs.Search.{first_on, first_part, gap_from, is_clear, lowest_gap, runs_behind, IsFirstOn, SearchesRuns, StandsOn};
    ghost use Rattle.vm_types.specs.Limits.{user_start, user_end};

    /// No page is mapped.
    pub fn new() -> Regions<M>
        ensures empty { (page : ℕ) → attr_at result page ≡ None }
        ensures user { IsUserMap M.mode (attr_at result) }
    {
        Regions::<M>::empty()
    }

    /// Removes every page. Only the number of runs is written, whatever the table holds.
    pub fn clear(&mut self)
        ensures none { self.new ≡ [] }
        ensures empty { (page : ℕ) → attr_at self.new page ≡ None }
        ensures user { IsUserMap M.mode (attr_at self.new) }
    {
        self.len = 0;
    }

    /// The table without a run.
    fn empty() -> Regions<M>
        ensures { result ≡ [] }
    {
        let unused = Run {
            first: 0,
            end: 0,
            attr: Attr {
                prot: Prot::READ,
                backing: Backing::Anon,
            },
        };
        Regions {
            runs: [unused; RUNS],
            len: 0,
            levels: PhantomData,
        }
    }

    /// The runs in order.
    fn as_slice(&self) -> &[Run]
        ensures runs { result.now ≡ self.now }
        ensures maximal { IsMaximal M.mode user_start self.now }
        ensures room { length self.now ≤ 256 }
    {
        &self.runs[..self.len]
    }

    /// The runs from the first one on that ends behind the page. It is found by halves, in at most nine steps.
    fn runs_behind(&self, page: u64) -> &[Run]
        ensures { SearchesRuns M.mode self.now (runs_behind page) result.now }
    {
        let runs = self.as_slice();
        let ended = runs.partition_point(|run| run.end <= page);
        &runs[ended..]
    }

    /// How many runs the map has, at most 256.
    pub fn runs(&self) -> usize
        ensures count { result ≡ run_count M.mode (attr_at self.now) }
        ensures limit { result ≤ 256 }
    {
        self.as_slice().len()
    }

    /// The same map again. It is 12 KiB long, so it is never copied unasked.
    pub fn copied(&self) -> Regions<M>
        ensures { result ≡ self.now }
    {
        Regions {
            runs: self.runs,
            len: self.len,
            levels: PhantomData,
        }
    }

    /// Makes this the same map as another. Of the table no more than that one's runs are written.
    pub fn assign(&mut self, other: &Regions<M>)
        ensures { self.new ≡ other.now }
    {
        let len = other.len;
        self.runs[..len].copy_from_slice(&other.runs[..len]);
        self.len = len;
    }

    /// What the page is; `None` where it isn't mapped.
    pub fn at(&self, page: Vpn) -> Option<Attr>
        ensures value { result ≡ attr_at self.now page }
        ensures user { IsUserMap M.mode (attr_at self.now) }
    {
        let page = page.get();
        let run = self.runs_behind(page).first()?;
        run.at::<M>(page)
    }

    /// The pages of one run that come first from `page` on, to the run's end: so a caller walks over the mapped pages of a
    /// row in at most 256 steps, each a search by halves. `None` exactly where no page from `page` on is mapped.
    pub fn next_run(&self, page: u64) -> Option<Run>
        ensures none { IfNone result ((k : ℕ) → page ≤ k → attr_at self.now k ≡ None) }
        ensures some { IfSome result (IsNextRun M.mode (attr_at self.now) page) }
    {
        self.first_part(page)
    }

    /// The part from the page on of the first run that has one.
    fn first_part(&self, page: u64) -> Option<Run>
        ensures { SearchesRuns M.mode self.now (first_part page) result }
    {
        let run = self.runs_behind(page).first()?;
        run.part::<M>(page, WIDEST_END, None)
    }

    /// The first page from `low` on that stands on that page of a file or an object: one search by halves, then one way along the
    /// runs, of each of which only what stands behind it is compared. `None` exactly where no page from `low` on stands on it.
    pub fn first_on(&self, low: u64, key: PageKey) -> Option<Vpn>
        ensures some { IfSome result (λ k. IsFirstOn M.mode (attr_at self.now) low key k) }
        ensures none { IfNone result ((k : ℕ) → low ≤ k → StandsOn (attr_at self.now) key k → ⊥) }
    {
        Vpn::new::<M>(self.first_page(low, key)?)
    }

    /// The same as a number.
    fn first_page(&self, low: u64, key: PageKey) -> Option<u64>
        ensures { SearchesRuns M.mode self.now (first_on low key) result }
    {
        for run in self.runs_behind(low) {
            if let Some(at) = run.page_on(key) {
                if low <= at {
                    return Some(at);
                }
            }
        }
        None
    }

    /// Whether each of the `pages` pages from `first` on is mapped.
    pub fn covers(&self, first: u64, pages: u64) -> bool
        requires { first + pages < 2 ^ 64 }
        ensures { result ≡ is_covered (attr_at self.now) first pages }
    {
        self.gap_from(first) >= first + pages
    }

    /// The first page from this one on that isn't mapped.
    fn gap_from(&self, page: u64) -> u64
        ensures { SearchesRuns M.mode self.now (gap_from page) result }
    {
        let mut gap = page;
        for run in self.runs_behind(page) {
            if gap < run.first {
                return gap;
            }
            gap = gap.max(run.end);
        }
        gap
    }

    /// Where a mapping of `pages` pages goes: to the page of `address`, where that isn't 0 and the pages from there on
    /// are free user pages, else to the lowest free row of that many user pages; `None` where there is none.
    pub fn place(&self, address: u64, pages: u64) -> Option<Vpn>
        requires { 0 < pages }
        ensures { result ≡ placed M.mode (attr_at self.now) address pages }
    {
        let hint = address / PAGE_BYTES;
        if address != 0 && self.is_place(hint, pages) {
            return Vpn::new::<M>(hint);
        }
        self.lowest_gap(pages)
    }

    /// Whether the `pages` pages from `first` on are free user pages.
    fn is_place(&self, first: u64, pages: u64) -> bool
        requires { 0 < pages }
        ensures { result ≡ is_place M.mode (attr_at self.now) pages first }
    {
        let end = M::user_end();
        if first < USER_START || first > end || pages > end - first {
            return false;
        }
        self.is_clear(first, first + pages)
    }

    /// Whether no run has a page from `first` up to, not including, `end`.
    fn is_clear(&self, first: u64, end: u64) -> bool
        ensures { SearchesRuns M.mode self.now (is_clear first end) result }
    {
        match self.runs_behind(first).first() {
            Some(run) => end <= run.first,
            None => true,
        }
    }

    /// The lowest page where `pages` pages lie between two runs or behind the last.
    fn lowest_gap(&self, pages: u64) -> Option<Vpn>
        requires { 0 < pages }
        ensures { SearchesRuns M.mode self.now (lowest_gap M.mode pages user_start) result }
    {
        let end = M::user_end();
        let mut start = USER_START;
        for run in self.as_slice() {
            if pages <= run.first - start {
                return Vpn::new::<M>(start);
            }
            start = run.end;
        }
        if pages <= end - start {
            Vpn::new::<M>(start)
        } else {
            None
        }
    }

    /// Makes `next` this map with the `pages` pages from `first` on mapped anew, the first one as `attr`, file pages following
    /// one another. `TooManyRuns` exactly where that has more than 256 runs; then `next` is some map.
    pub fn replace_into(
        &self,
        first: u64,
        pages: u64,
        attr: Attr,
        next: &mut Regions<M>,
    ) -> Result<(), TooManyRuns>
        requires some { 0 < pages }
        requires low { user_start ≤ first }
        requires high { first + pages ≤ user_end M.mode }
        requires file_pages { backing_fits attr.backing pages }
        ensures { MakesMap M.mode self.now (replaced (attr_at self.now) first pages attr) next.new result }
    {
        let run = Run {
            first,
            end: first + pages,
            attr,
        };
        next.clear();
        next.paste(self.as_slice(), 0, first, None)?;
        next.push(run)?;
        next.paste(self.as_slice(), run.end, WIDEST_END, None)?;
        Ok(())
    }

    /// Makes `next` this map without the `pages` pages from `first` on; a page that isn't mapped is no error.
    /// `TooManyRuns` exactly where that has more than 256 runs; then `next` is some map.
    pub fn remove_into(
        &self,
        first: u64,
        pages: u64,
        next: &mut Regions<M>,
    ) -> Result<(), TooManyRuns>
        requires some { 0 < pages }
        requires row { first + pages < 2 ^ 64 }
        ensures { MakesMap M.mode self.now (removed (attr_at self.now) first pages) next.new result }
    {
        next.clear();
        next.paste(self.as_slice(), 0, first, None)?;
        next.paste(self.as_slice(), first + pages, WIDEST_END, None)?;
        Ok(())
    }

    /// Makes `next` this map with the permission for those of the `pages` pages from `first` on that are mapped.
    /// `TooManyRuns` exactly where that has more than 256 runs; then `next` is some map.
    pub fn protect_into(
        &self,
        first: u64,
        pages: u64,
        prot: Prot,
        next: &mut Regions<M>,
    ) -> Result<(), TooManyRuns>
        requires some { 0 < pages }
        requires row { first + pages < 2 ^ 64 }
        ensures { MakesMap M.mode self.now (protected (attr_at self.now) first pages prot) next.new result }
    {
        let end = first + pages;
        next.clear();
        next.paste(self.as_slice(), 0, first, None)?;
        next.paste(self.as_slice(), first, end, Some(prot))?;
        next.paste(self.as_slice(), end, WIDEST_END, None)?;
        Ok(())
    }

    /// Puts the parts of `runs` between the pages `low` and `high` behind the others, with the permission `prot` where
    /// one is given.
    fn paste(
        &mut self,
        runs: &[Run],
        low: u64,
        high: u64,
        prot: Option<Prot>,
    ) -> Result<(), TooManyRuns>
        requires maximal { IsMaximal M.mode user_start runs.now }
        requires behind { end_of user_start self.old ≤ max low user_start }
        requires few { length self.old ≤ 256 }
        ensures ok { OnOk result (self.new ≡ pasted low high prot self.old runs.now) }
        ensures few { OnOk result (length self.new ≤ 256) }
        ensures err { OnErr result (256 < length (pasted low high prot self.old runs.now)) }
    {
        for run in runs {
            if let Some(part) = run.part::<M>(low, high, prot) {
                self.push(part)?;
            }
        }
        Ok(())
    }

    /// Puts a run behind the others, joining it with the last where it goes on with that.
    fn push(&mut self, next: Run) -> Result<(), TooManyRuns>
        requires run { IsRun M.mode next }
        requires behind { end_of user_start self.old ≤ next.first }
        ensures ok { OnOk result (self.new ≡ pushed self.old next) }
        ensures few { OnOk result (length self.new ≤ 256) }
        ensures err { OnErr result (256 < length (pushed self.old next)) }
    {
        if self.joins_last(next) {
            self.runs[self.len - 1].end = next.end;
            return Ok(());
        }
        if self.len >= RUNS {
            return Err(TooManyRuns);
        }
        self.runs[self.len] = next;
        self.len += 1;
        Ok(())
    }

    /// Whether the last run goes on with this one.
    fn joins_last(&self, next: Run) -> bool
        ensures { result ≡ joins_last self.now next }
    {
        if self.len == 0 {
            return false;
        }
        self.runs[self.len - 1].joins(next)
    }
}
