//! A device that lists its writes and syncs, for the caller to carry out.
ghost use Rattle.std.specs.Prelude.{◌≡◌, ◌≢◌, ◌<◌, ◌≤◌, ◌+◌, ◌-◌, ◌*◌, ◌^◌, ◌⊎◌, ℕ, length, min, true, false, Some, IfSome, IsTrue, slice_get};
ghost use Rattle.disk_model.specs.Asked.{times_named};
ghost use Rattle.disk_model.specs.Sectors.{part_of};
ghost use Rattle.sync_plans.specs.Pages.{lent_page};
ghost use Rattle.sync_plans.specs.Plans.{row, pages_written, writes_to, written_bytes, is_written, AreCalls, AreSources};
ghost use Rattle.sync_plans.specs.Device.{NamesPage};

use crate::call::Call;
use crate::lent_pages::LentPages;
use crate::scratch::Scratch;
use disk_model::{Asked, Count, DiskFault, SECTOR_BYTES, SectorDisk, WriteZeros, parts};

const WRITE: u64 = 1;

const SYNC: u64 = 2;

const LENT: u64 = 3;

const COPY: u64 = 4;

const ZERO: u64 = 5;

/// What a call of zeros writes to a sector.
const ZEROS: [u8; SECTOR_BYTES] = [0; SECTOR_BYTES];

/// A device that holds `image` until the listed calls are made. Nothing is written to the image.
#[derive(Drop)]
pub(crate) struct PlanDisk<'a> {
    pub image: &'a [[u8; 512]],
    /// The pages that calls may name.
    pub lent: LentPages<'a>,
    pub calls: &'a mut [Call],
    pub rows: &'a mut [[u8; 512]],
    /// How many calls may be listed.
    pub room: usize,
    /// How many are.
    pub used: usize,
    /// Sectors that no listed call writes: at first all, and then, where a call writes among them, those on the side of the page
    /// that was read last. A commit copies pages home out of one journal while it fills the other, or before it does.
    pub untouched: Span,
    /// The first sector of the page that was read last, and whether no page was written since.
    read: u64,
    is_fresh: bool,
    /// A call found no room.
    pub full: bool,
    pub failures: Count,
    asked: Asked,
    /// Which sectors writes named for which there was no room.
    lost: Asked,
    ghost long: { room ≤ length calls.now },
    ghost rows_long: { room ≤ length rows.now },
    ghost within: { used ≤ room },
    ghost all: { AreCalls (length image.now) calls.now used },
    ghost sources: { AreSources (lent_page lent.pages.now) calls.now used },
    ghost filled: { full ≡ true → used ≡ room },
    ghost calm: { full ≡ false → failures.number ≡ 0 },
    ghost kept: { full ≡ false → (n : ℕ) → times_named lost n ≡ 0 },
    ghost bounded: { untouched.high < 2 ^ 64 },
    ghost between: { (n : ℕ) → untouched.low ≤ n → n < untouched.high → is_written calls.now 0 used n ≡ false },
}

/// The sectors from `low` to below `high`.
#[derive(Clone, Copy)]
pub(crate) struct Span {
    pub low: u64,
    pub high: u64,
}

impl Span {
    /// Those of them that are left without the sectors from `first` to below `end`: the ones on the side of `kept`.
    fn without(self, first: u64, end: u64, kept: u64) -> Span
        ensures low { self.low ≤ result.low }
        ensures high { result.high ≤ self.high }
        ensures out { (n : ℕ) → result.low ≤ n → n < result.high → (n < first) ⊎ (end ≤ n) }
    {
        if end <= self.low || self.high <= first {
            self
        } else if kept < first {
            Span {
                low: self.low,
                high: first,
            }
        } else {
            Span {
                low: end,
                high: self.high,
            }
        }
    }
}

/// Whether a call writes to sector `n`.
fn writes(call: Call, n: u64) -> bool
    ensures { result ≡ writes_to (Some call) n }
{
    if call.kind == WRITE {
        n == call.sector
    } else {
        call.kind >= LENT && call.sector <= n && (n - call.sector) / 8 < pages_written(call)
    }
}

/// How many pages a call of kind 3, 4 or 5 writes.
fn pages_written(call: Call) -> u64
    ensures { result ≡ pages_written call }
{
    if call.kind == ZERO { call.from } else { 1 }
}

/// How many sectors a call writes that is no sync.
fn written_sectors(call: Call) -> u64
    ensures one { call.kind ≡ 1 → result ≡ 1 }
    ensures pages { call.kind ≢ 1 → result ≡ min (8 * pages_written call) (2 ^ 64 - 1) }
{
    if call.kind == WRITE {
        1
    } else {
        pages_written(call).saturating_mul(8)
    }
}

/// Which sector of its page a call writes to sector `n`.
fn place(call: Call, n: u64) -> usize
    requires here { writes_to (Some call) n ≡ true }
    requires kind { (call.kind ≡ 3) ⊎ (call.kind ≡ 4) }
    ensures inside { result < 8 }
    ensures at { n ≡ call.sector + result }
{
    (n - call.sector) as usize
}

/// Keeps the row of a call that has one.
fn keep_row(to: &mut [u8; 512], call: Call, bytes: &[u8; 512])
    ensures { call.kind ≡ 1 → to.new ≡ bytes.now }
{
    if call.kind == WRITE {
        *to = *bytes;
    }
}

impl<'a> PlanDisk<'a> {
    ghost use Rattle.sync_plans.specs.PlanDisk.{pages_of, content_of};
    ghost use Rattle.sync_plans.specs.Writing.{Begins, CopiesPlan, IsListable, AddsCall, PutsSector, PutsPage, PutsZeros};

    pub(crate) fn new(
        image: &'a [[u8; 512]],
        lent: LentPages<'a>,
        scratch: Scratch<'a>,
        most: usize,
    ) -> PlanDisk<'a>
        ensures { Begins image.now (lent_page lent.entry.pages.now) (min (min (length scratch.entry.calls.now) (length scratch.entry.rows.now)) most) result }
    {
        let Scratch { calls, rows } = scratch;
        let room = calls.len().min(rows.len()).min(most);
        PlanDisk {
            image,
            lent,
            calls,
            rows,
            room,
            used: 0,
            untouched: Span {
                low: 0,
                high: u64::MAX,
            },
            read: u64::MAX,
            is_fresh: false,
            full: false,
            failures: Count::new(),
            asked: Asked::new(),
            lost: Asked::new(),
        }
    }

    /// Lists a call.
    fn list(&mut self, call: Call, bytes: &[u8; 512]) -> Result<(), DiskFault>
        requires { IsListable self.old call }
        ensures { AddsCall self.old self.new call bytes.now result }
    {
        if self.full || self.used >= self.room {
            self.full = true;
            self.failures.raise();
            return Err(DiskFault);
        }
        self.untouched = self.untouched_with(call);
        self.calls[self.used] = call;
        let rows = &mut *self.rows;
        keep_row(&mut rows[self.used], call, bytes);
        self.used += 1;
        Ok(())
    }

    // A write that is a call, or a part of one.
    fn put(&mut self, n: u64, from: &[u8; SECTOR_BYTES]) -> Result<(), DiskFault>
        requires { n < length self.old.image.now }
        ensures { PutsSector self.old self.new n from.now result }
    {
        let call = Call {
            kind: WRITE,
            sector: n,
            from: 0,
        };
        match self.list(call, from) {
            Ok(()) => Ok(()),
            Err(fault) => Err(fault),
        }
    }

    // A write of a page by a call that names where its bytes lie.
    fn put_page(&mut self, call: Call, from: &[u8; 4096]) -> Result<(), DiskFault>
        requires listable { IsListable self.old call }
        requires names { NamesPage (pages_of self.old) (row self.old.image.now) call.sector from.now call }
        ensures { PutsPage self.old self.new call.sector from.now result }
    {
        match self.list(call, &parts(from)[0]) {
            Ok(()) => Ok(()),
            Err(fault) => Err(fault),
        }
    }

    // A write of a page sector by sector, each with a row.
    fn put_sectors(&mut self, n: u64, from: &[u8; 4096]) -> Result<(), DiskFault>
        requires room { n + 8 ≤ length self.old.image.now }
        requires fits { n < 2 ^ 60 }
        ensures { PutsPage self.old self.new n from.now result }
    {
        for (i, sector) in parts(from).iter().enumerate() {
            self.put(n + i as u64, sector)?;
        }
        Ok(())
    }

    // A write of a page by a call, or by one for each sector.
    fn put_whole(&mut self, n: u64, from: &[u8; 4096]) -> Result<(), DiskFault>
        requires room { n + 8 ≤ length self.old.image.now }
        requires fits { n < 2 ^ 60 }
        ensures { PutsPage self.old self.new n from.now result }
    {
        let named = self.named(n, from);
        self.is_fresh = false;
        self.lent.last.set(None);
        match named {
            Some(call) => self.put_page(call, from),
            None => self.put_sectors(n, from),
        }
    }

    // A write of zeros to the sectors of so many pages.
    fn put_zeros(&mut self, n: u64, pages: u64) -> Result<(), DiskFault>
        requires room { n + 8 * pages ≤ length self.old.image.now }
        requires fits { n + 8 * pages < 2 ^ 60 }
        ensures { PutsZeros self.old self.new n pages result }
    {
        self.is_fresh = false;
        self.lent.last.set(None);
        let call = Call {
            kind: ZERO,
            sector: n,
            from: pages,
        };
        match self.list(call, &ZEROS) {
            Ok(()) => Ok(()),
            Err(fault) => Err(fault),
        }
    }

    /// The untouched sectors, once this call is listed too.
    fn untouched_with(&self, call: Call) -> Span
        ensures low { self.now.untouched.low ≤ result.low }
        ensures high { result.high ≤ self.now.untouched.high }
        ensures written { (n : ℕ) → result.low ≤ n → n < result.high → writes_to (Some call) n ≡ false }
    {
        if call.kind == SYNC {
            return self.untouched;
        }
        let end = call.sector.saturating_add(written_sectors(call));
        self.untouched.without(call.sector, end, self.read)
    }

    /// Which lent page this is: the one that was asked for since a page was written, if it has these bytes. It has not where it is the last page of a file, which is
    /// cut at its end, or is stored to meanwhile.
    fn find_lent(&self, page: &[u8; 4096]) -> Option<usize>
        ensures { IfSome result (λ i. (i < length self.now.lent.pages.now) × (lent_page self.now.lent.pages.now i ≡ page.now)) }
    {
        let lent = self.lent.pages;
        match self.lent.last.get() {
            Some(i) if i < lent.len() && *lent[i].at == *page => Some(i),
            _ => None,
        }
    }

    /// A call that writes this page to the sectors from `n` on, and names where its bytes lie. What was read last is looked
    /// at first: a page that is copied comes from the image, where no store of the caller changes it.
    fn named(&self, n: u64, page: &[u8; 4096]) -> Option<Call>
        requires { n + 8 ≤ length self.now.image.now }
        ensures listable { IfSome result (λ call. IsListable self.now call) }
        ensures sector { IfSome result (λ call. call.sector ≡ n) }
        ensures sources { IfSome result (λ call. NamesPage (pages_of self.now) (row self.now.image.now) n page.now call) }
    {
        if self.is_fresh && self.read < n && self.holds(self.read, page) {
            return Some(Call {
                kind: COPY,
                sector: n,
                from: self.read,
            });
        }
        match self.find_lent(page) {
            Some(i) => Some(Call {
                kind: LENT,
                sector: n,
                from: i as u64,
            }),
            None => None,
        }
    }

    /// Whether the image has this page in the sectors from `at` on, none of which is written.
    fn holds(&self, at: u64, page: &[u8; 4096]) -> bool
        ensures untouched { IsTrue result → (self.now.untouched.low ≤ at) × (at + 8 ≤ self.now.untouched.high) }
        ensures inside { IsTrue result → at + 8 ≤ length self.now.image.now }
        ensures here { IsTrue result → (i : ℕ) → i < 8 → row self.now.image.now (at + i) ≡ part_of page.now i }
    {
        let end = self.untouched.high.min(self.image.len() as u64);
        if at < self.untouched.low || end < 8 || at > end - 8 {
            return false;
        }
        for (i, sector) in parts(page).iter().enumerate() {
            if self.image[at as usize + i] != *sector {
                return false;
            }
        }
        true
    }

    /// What sector `n` holds once the listed calls are made.
    fn held(&self, n: u64) -> &[u8; 512]
        requires { n < length self.now.image.now }
        ensures { result.now ≡ content_of self.now n }
    {
        if self.untouched.low <= n && n < self.untouched.high {
            return &self.image[n as usize];
        }
        for i in 0..self.used {
            if writes(self.calls[self.used - 1 - i], n) {
                return self.bytes(self.used - 1 - i, n);
            }
        }
        &self.image[n as usize]
    }

    /// What a call of the list writes to sector `n`.
    fn bytes(&self, k: usize, n: u64) -> &[u8; 512]
        requires listed { k < self.now.used }
        requires here { writes_to (slice_get self.now.calls.now k) n ≡ true }
        ensures { result.now ≡ written_bytes self.now.rows.now (pages_of self.now) (row self.now.image.now) k (slice_get self.now.calls.now k) n }
    {
        let call = self.listed(k);
        if call.kind == WRITE {
            let rows = &*self.rows;
            return &rows[k];
        }
        if call.kind == LENT {
            return &parts(self.lent.pages[call.from as usize].at)[place(call, n)];
        }
        if call.kind == COPY {
            return &self.image[call.from as usize + place(call, n)];
        }
        &ZEROS
    }

    /// A call of the list.
    fn listed(&self, k: usize) -> Call
        requires { k < self.now.used }
        ensures here { slice_get self.now.calls.now k ≡ Some result }
        ensures lent { result.kind ≡ 3 → result.from < length self.now.lent.pages.now }
        ensures copied { result.kind ≡ 4 → result.from + 8 ≤ length self.now.image.now }
    {
        self.calls[k]
    }

    /// Copies the listed calls to the front of these lists, with the rows that they write.
    pub(crate) fn copy_to(&self, calls: &mut [Call], rows: &mut [[u8; 512]])
        requires room { (self.now.used ≤ length calls.old) × (self.now.used ≤ length rows.old) }
        ensures { CopiesPlan self.now calls.new rows.new }
    {
        let listed = &*self.rows;
        for i in 0..self.used {
            calls[i] = self.calls[i];
            keep_row(&mut rows[i], self.calls[i], &listed[i]);
        }
    }
}

impl SectorDisk for PlanDisk<'_> {
    ghost use Rattle.disk_model.specs.Asked.{times_named};
    ghost use Rattle.sync_plans.specs.PlanDisk.{pages_of, content_of, IsLost, unsynced_in, plan_moment, left_in};
    ghost use Rattle.sync_plans.specs.Device.{only_lost};
    ghost use Rattle.std.proofs.Common.{inr};

    ghost sector_count = { λ d. length d.image.now };

    ghost content = { content_of };

    ghost unsynced = { unsynced_in };

    ghost moment = { plan_moment };

    ghost left_since = { left_in };

    ghost failures = { λ d. d.failures.number };

    ghost asked = { λ d. times_named d.asked };

    ghost keeps_model = { λ _. Unit {0} };

    ghost counts_now = { λ d t c kept le now. inr now };

    ghost only_now = { λ d c kept left. only_lost d.calls.now d.rows.now (pages_of d) (row d.image.now) d.room d.used (IsLost d) c left };

    fn sectors(&self) -> u64 {
        self.image.len() as u64
    }

    fn read(&mut self, n: u64, to: &mut [u8; SECTOR_BYTES]) -> Result<(), DiskFault> {
        self.asked.sector(n);
        *to = *self.held(n);
        Ok(())
    }

    fn write(&mut self, n: u64, from: &[u8; SECTOR_BYTES]) -> Result<(), DiskFault> {
        self.asked.sector(n);
        match self.put(n, from) {
            Ok(()) => Ok(()),
            Err(fault) => {
                self.lost.sector(n);
                Err(fault)
            }
        }
    }

    fn read_page(&mut self, n: u64, to: &mut [u8; 4096]) -> Result<(), DiskFault> {
        self.asked.page(n);
        self.read = n;
        self.is_fresh = true;
        for i in 0..8 {
            let sector = self.held(n + i as u64);
            let at = 512 * i;
            to[at..at + 512].copy_from_slice(sector);
        }
        Ok(())
    }

    fn write_page(&mut self, n: u64, from: &[u8; 4096]) -> Result<(), DiskFault> {
        self.asked.page(n);
        match self.put_whole(n, from) {
            Ok(()) => Ok(()),
            Err(fault) => {
                self.lost.page(n);
                Err(fault)
            }
        }
    }

    /// The first call of a plan is no sync: nothing is unsynced before it.
    fn sync(&mut self) -> Result<(), DiskFault> {
        if self.used == 0 && !self.full {
            return Ok(());
        }
        let call = Call {
            kind: SYNC,
            sector: 0,
            from: 0,
        };
        self.list(call, &[0; SECTOR_BYTES])
    }
}

impl WriteZeros for PlanDisk<'_> {
    /// One call.
    fn write_zeros(&mut self, n: u64, pages: u64) -> Result<(), DiskFault> {
        self.asked.pages(n, pages);
        match self.put_zeros(n, pages) {
            Ok(()) => Ok(()),
            Err(fault) => {
                self.lost.pages(n, pages);
                Err(fault)
            }
        }
    }
}
