//! Who asks for plans and carries them out.
ghost use Rattle.stores.specs.NewStores.{IsSizedNew};

use disk_model::{SectorDisk, SimDisk, WriteZeros};
use file_store::FileSource;
use pool_growth::FileSize;
use std::alloc::Global;
use std::fmt::Debug;
use std::process::Abort;
use stores::{NewStore, format, image_bytes};
use sync_plans::{
    Call, PageBytes, PageUpdates, Refusal, ResizeRefusal, Scratch, SizeUpdates, file_facts,
    plan_commit, plan_open, plan_resize, plan_tidy, read_page,
};
use vm_types::FilePage;

/// Ends the test where the value isn't the one that is wanted. A test that said `assert_eq!` itself would be proved to end well at each place.
pub(crate) fn equal<T: PartialEq + Debug + Drop>(rt: &impl Abort, got: T, want: T) {
    assert_eq!(rt; got, want);
}

/// Ends the test where something does not hold.
pub(crate) fn expect(rt: &impl Abort, holds: bool, otherwise: &str) {
    assert!(rt; holds, "{otherwise}");
}

/// A file of zeros.
pub(crate) fn zeros(length: u32, read_only: bool) -> FileSource<&'static [u8]> {
    FileSource {
        read_only,
        length,
        bytes: None,
    }
}

/// A device with a new store of these files, and with so many homes more.
pub(crate) fn made(
    rt: &(impl AllocGlobal + Abort),
    store: NewStore,
    files: &mut [FileSource<&'static [u8]>],
    homes: u32,
) -> SimDisk
    requires { IsSizedNew store }
{
    let sectors = image_bytes(store, files) / 512 + 8 * u64::from(homes);
    let mut disk = SimDisk::new(rt.alloc(), sectors).expect(rt, "memory");
    format(&mut disk, store, files).expect(rt, "a store");
    disk
}

/// A new store of three files of zeros: one of 5,000 bytes, one of a byte that may only be read, and one of 4,096 bytes.
pub(crate) fn new_store(rt: &(impl AllocGlobal + Abort), store: NewStore) -> SimDisk
    requires { IsSizedNew store }
{
    let mut files = [zeros(5000, false), zeros(1, true), zeros(4096, false)];
    made(rt, store, &mut files, 0)
}

/// What a device holds, a sector a row.
pub(crate) fn rows_of(rt: &(impl AllocGlobal + Abort), disk: &SimDisk) -> Vec<[u8; 512]> {
    let mut rows = Vec::new(rt.alloc());
    for n in 0..disk.sectors() {
        rows.push(*disk.sector(n)).expect(rt, "memory");
    }
    rows
}

/// These pages, as they are lent.
pub(crate) fn lent_of<'a>(
    rt: &(impl AllocGlobal + Abort),
    pages: &'a [[u8; 4096]],
) -> Vec<PageBytes<'a>> {
    let mut lent = Vec::new(rt.alloc());
    for at in pages {
        lent.push(PageBytes { at }).expect(rt, "memory");
    }
    lent
}

/// A plan, in vectors since its rows are eight megabytes.
#[derive(Drop)]
pub(crate) struct Plan {
    pub(crate) used: usize,
    pub(crate) calls: Vec<Call>,
    rows: Vec<[u8; 512]>,
}

impl Plan {
    /// Its places, as room to work in.
    fn lent(&mut self) -> Scratch<'_> {
        Scratch {
            calls: self.calls.as_mut_slice(),
            rows: self.rows.as_mut_slice(),
        }
    }

    /// How many of its calls write a row, sync, write a page that is lent, and copy one.
    pub(crate) fn counts(&self) -> [usize; 4] {
        let mut counts = [0usize; 4];
        for call in self.calls.iter().take(self.used) {
            if call.kind < 5 {
                let kind = (call.kind.saturating_sub(1) % 4) as usize;
                counts[kind] = counts[kind].saturating_add(1);
            }
        }
        counts
    }

    /// How many of its calls write zeros, and to how many pages.
    pub(crate) fn zeroed(&self) -> (usize, u64) {
        let (mut calls, mut pages) = (0usize, 0u64);
        for call in self.calls.iter().take(self.used) {
            if call.kind == 5 {
                calls = calls.saturating_add(1);
                pages = pages.saturating_add(call.from);
            }
        }
        (calls, pages)
    }
}

const NO_CALL: Call = Call {
    kind: 0,
    sector: 0,
    from: 0,
};

/// A plan of no call, with so much room.
fn blank(rt: &(impl AllocGlobal + Abort), [calls, rows]: [usize; 2]) -> Plan {
    Plan {
        used: 0,
        calls: Vec::from_elem(rt.alloc(), NO_CALL, calls).expect(rt, "memory"),
        rows: Vec::from_elem(rt.alloc(), [0; 512], rows).expect(rt, "memory"),
    }
}

/// Makes so many calls of a plan, for which these pages were lent, from `first` on: whether each can be made, and the device does not fail.
pub(crate) fn carry_out(
    disk: &mut SimDisk,
    plan: &Plan,
    lent: &[PageBytes<'_>],
    first: usize,
    count: usize,
) -> bool {
    let calls = plan.calls.iter().zip(&plan.rows).take(plan.used);
    for (call, row) in calls.skip(first).take(count) {
        let is_made = match call.kind {
            1 => call.sector < disk.sectors() && disk.write(call.sector, row).is_ok(),
            2 => disk.sync().is_ok(),
            3 => match lent.get(call.from as usize) {
                Some(page) => write_page(disk, call.sector, page.at),
                None => false,
            },
            4 => copy_page(disk, call.from, call.sector),
            5 => zero_pages(disk, call.sector, call.from),
            _ => false,
        };
        if !is_made {
            return false;
        }
    }
    true
}

/// Writes the eight sectors from `n` on, which have to be there.
fn write_page(disk: &mut SimDisk, n: u64, page: &[u8; 4096]) -> bool {
    if n >= 0x10_0000 || n + 8 > disk.sectors() {
        return false;
    }
    disk.write_page(n, page).is_ok()
}

/// Copies the eight sectors from that one on to those from `to` on.
fn copy_page(disk: &mut SimDisk, from: u64, to: u64) -> bool {
    let mut page = [0; 4096];
    if from >= 0x10_0000 || from + 8 > disk.sectors() {
        return false;
    }
    disk.read_page(from, &mut page).is_ok() && write_page(disk, to, &page)
}

/// Writes zeros to the sectors of so many pages from `n` on, which have to be there.
fn zero_pages(disk: &mut SimDisk, n: u64, pages: u64) -> bool {
    if n >= 0x10_0000 || pages >= 0x10_0000 || n + 8 * pages > disk.sectors() {
        return false;
    }
    disk.write_zeros(n, pages).is_ok()
}

/// What is asked of an image.
#[derive(Clone, Copy)]
pub(crate) enum Request<'a> {
    /// That it is opened.
    Open,
    /// That all its pages are brought home.
    Tidy,
    /// That these pages become these, of which there are as many.
    Commit(&'a [FilePage], &'a [PageBytes<'a>]),
}

/// What is seen of a file: how long it is, where it is there, and of each of its first pages the byte that fills it as far as it lies inside the
/// file.
#[derive(Clone, Copy, Debug, PartialEq, Eq)]
pub(crate) struct Seen {
    pub(crate) length: Option<u64>,
    pub(crate) bytes: [u8; 5],
}

/// No file.
pub(crate) const NO_FILE: Seen = Seen {
    length: None,
    bytes: [0; 5],
};

/// What is seen of a file of so many bytes.
pub(crate) fn file_of(length: u64, bytes: &[u8; 5]) -> Seen {
    Seen {
        length: Some(length),
        bytes: *bytes,
    }
}

/// A file of so many bytes.
pub(crate) fn long(file: u32, length: u64) -> FileSize {
    FileSize {
        file,
        is_there: 1,
        length,
    }
}

/// The pages of file 0 from one up to another, which is none of them.
pub(crate) fn pages_between(
    rt: &(impl AllocGlobal + Abort),
    first: u32,
    end: u32,
) -> Vec<FilePage> {
    let mut pages = Vec::new(rt.alloc());
    for page in first..end {
        pages.push(FilePage { file: 0, page }).expect(rt, "memory");
    }
    pages
}

/// So many places for calls and for rows to work in, and for those of a plan.
type Room = [[usize; 2]; 2];

/// Room for long plans, and for short ones.
pub(crate) const LARGE: Room = [[16384; 2]; 2];

pub(crate) const SMALL: Room = [[64; 2]; 2];

/// Room for plans.
#[derive(Drop)]
pub(crate) struct Client {
    alloc: Global,
    scratch: Plan,
    /// The plan that was asked for last.
    pub(crate) plan: Plan,
}

impl Client {
    pub(crate) fn new(rt: &(impl AllocGlobal + Abort), [scratch, plan]: Room) -> Client {
        Client {
            alloc: rt.alloc(),
            scratch: blank(rt, scratch),
            plan: blank(rt, plan),
        }
    }

    /// Plans what is asked, and returns how many calls the plan has.
    pub(crate) fn ask(
        &mut self,
        image: &[[u8; 512]],
        request: Request<'_>,
    ) -> Result<usize, Refusal> {
        let scratch = self.scratch.lent();
        let calls = self.plan.calls.as_mut_slice();
        let rows = self.plan.rows.as_mut_slice();
        self.plan.used = match request {
            Request::Open => plan_open(self.alloc, image, scratch, calls, rows)?,
            Request::Tidy => plan_tidy(self.alloc, image, scratch, calls, rows)?,
            Request::Commit(pages, bytes) if pages.len() == bytes.len() => {
                let updates = PageUpdates { pages, bytes };
                plan_commit(self.alloc, image, scratch, calls, rows, updates)?
            }
            Request::Commit(..) => return Err(Refusal::Device),
        };
        Ok(self.plan.used)
    }

    /// Plans that files get these sizes, and returns how many calls the plan has.
    pub(crate) fn resize(
        &mut self,
        image: &[[u8; 512]],
        updates: SizeUpdates<'_>,
    ) -> Result<usize, ResizeRefusal> {
        let scratch = self.scratch.lent();
        let calls = self.plan.calls.as_mut_slice();
        let rows = self.plan.rows.as_mut_slice();
        let answer = plan_resize(self.alloc, image, scratch, calls, rows, updates);
        self.plan.used = match answer {
            Ok(used) => used,
            Err(_) => 0,
        };
        answer
    }

    /// The byte that fills a page as far as it lies inside its file, so many bytes. Behind them it is zeros.
    pub(crate) fn byte(
        &mut self,
        rt: &impl Abort,
        image: &[[u8; 512]],
        page: FilePage,
        inside: usize,
    ) -> u8 {
        let mut bytes = [255; 4096];
        let read = read_page(self.alloc, image, self.scratch.lent(), page, &mut bytes);
        read.expect(rt, "a page");
        for at in 0..4096 {
            let wanted = if at < inside { bytes[0] } else { 0 };
            expect(rt, bytes[at] == wanted, "a page of other bytes");
        }
        bytes[0]
    }

    /// What is seen of a file.
    fn seen(&mut self, rt: &impl Abort, image: &[[u8; 512]], file: u16) -> Seen {
        let mut seen = NO_FILE;
        let info = file_facts(self.alloc, image, self.scratch.lent(), file);
        if let Some(info) = info.expect(rt, "a store") {
            seen.length = Some(info.length);
            for page in 0..5 {
                let inside = info.bytes_inside(page);
                if inside > 0 {
                    let place = FilePage { file, page };
                    seen.bytes[page as usize] = self.byte(rt, image, place, inside);
                }
            }
        }
        seen
    }

    /// What is seen of the first files.
    pub(crate) fn files(&mut self, rt: &impl Abort, image: &[[u8; 512]]) -> [Seen; 4] {
        [
            self.seen(rt, image, 0),
            self.seen(rt, image, 1),
            self.seen(rt, image, 2),
            self.seen(rt, image, 3),
        ]
    }

    /// Opens what a device holds, and returns what is seen of the first files then.
    pub(crate) fn opened(
        &mut self,
        rt: &(impl AllocGlobal + Abort),
        disk: &mut SimDisk,
    ) -> [Seen; 4] {
        let image = rows_of(rt, disk);
        let calls = self.ask(image.as_slice(), Request::Open);
        let calls = calls.expect(rt, "a store");
        let is_open = carry_out(disk, &self.plan, &[], 0, calls);
        expect(rt, is_open, "an opening that can't be carried out");
        let image = rows_of(rt, disk);
        self.files(rt, image.as_slice())
    }
}
