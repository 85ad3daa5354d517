//! What the tests share: rows of steps with the answers that are wanted, and how they are carried out.
//!
//! A test is a table of such rows, which is data alone: each call, each look at memory and each comparison that a test made itself
//! would have to be proved to end well, with all that stands before it in mind.
ghost use Rattle.std.specs.Prelude.{◌≡◌, true};
ghost use Rattle.msync.specs.Shows.{IsSoundCore};
ghost use Rattle.residency.specs.Parts.{IsFit};
ghost use Rattle.residency.specs.Picture.{picture_of};

use crate::fixtures::{Sizes, memory};
use disk_model::{SectorDisk, SimDisk};
use frames::Role;
use memory::entry_number;
use page_cache::Place;
use residency::{Core, root_of};
use spaces::{MapRequest, ProtectRequest, RegionRoom, SyncCall, SyncRoom};
use std::alloc::{AllocError, Global};
use std::fmt::Debug;
use std::process::Abort;
use std::test::Fail;
use stores::Store;
use vm_types::{
    Answer, Backing, Code, Errno, Fault, FilePage, FrameNo, Levels, MapSource, MsyncMode, PageKey,
    Pid, Placing, Prot, SlotNo, Stall, StoredValue, Vpn, Width,
};

/// 16 frames and no slot, over a file without a byte, on devices that work.
pub(crate) const PLAIN: Sizes = Sizes {
    frames: 16,
    slots: 0,
    length: 0,
    first: 0,
    read_only: false,
    free_homes: None,
    store_fails: 0,
    swap_fails: 0,
};

/// Shared pages of the file, from its first byte on.
pub(crate) const FILE: MapSource = MapSource::Shared { file: 0, offset: 0 };

/// What may be done with a page.
#[derive(Clone, Copy, Debug)]
pub(crate) enum May {
    Read,
    Write,
    ReadWrite,
    Run,
}

/// A call. Addresses and lengths are in bytes; the process is the first where no number tells of another.
#[derive(Clone, Copy, Debug)]
pub(crate) enum Call {
    Spawn,
    Fork(u64),
    Exit(u64),
    /// An mmap where the hint says: hint and length.
    Map(u64, u64, May, MapSource),
    Unmap(u64, u64),
    Protect(u64, u64, May),
    Msync(u64, u64, u64, MsyncMode),
    Dontneed(u64, u64),
    /// A file and its new length.
    Truncate(u64, u64),
    Load(u64, u64, Width),
    Store(u64, u64, Width, u64),
    Fetch(u64),
}

/// What a test does next, or looks at.
#[derive(Clone, Copy, Debug)]
pub(crate) enum Step {
    /// The call is done.
    Does(Call),
    /// It is refused.
    Refuses(Call, Errno),
    /// It stalls.
    Stalls(Call, Stall),
    /// It faults: the cause, the code and the address.
    Faults(Call, u8, Code, u64),
    /// It makes a process of that number.
    Makes(Call, u64),
    /// It places a mapping at that address.
    Places(Call, u64),
    /// Process 1 gets pages to read and write, where the hint says.
    Maps(u64, u64, MapSource),
    /// A process stores a byte at that address.
    Stores(u64, u64, u8),
    /// A process loads this byte there.
    Loads(u64, u64, u64),
    /// Process 1 loads this value of that width.
    Reads(u64, Width, u64),
    /// Process 1 fetches these four bytes.
    Fetches(u64, u64),
    /// So many slots are free.
    FreeSlots(u32),
    /// So many frames are used, the zero page being one.
    UsedFrames(u32),
    /// What stands for a page of a process: the low ten bits of its entry, and how many share the frame or slot that it names.
    Entry(u64, u64, u64, Option<u8>),
    /// The low ten bits of the entry of a page of process 1.
    Bits(u64, u64),
    /// How many runs process 1 has, and what its page at that address stands on.
    Runs(usize, u64, Backing),
    /// Where a page of a file or an object lies, a frame as three levels of tables have it, and whether it is touched.
    Lies(PageKey, Place, bool),
    /// A byte of a sector of the store's device.
    Stored(u64, usize, u8),
    /// The length of the file in what a stop leaves of the store now, and the first byte of one of its pages there.
    Left(u64, u32, u8),
}

/// A row: its name, the memory that it begins with, and its steps, in parts that other rows may have too.
#[derive(Clone, Copy)]
pub(crate) struct Row<'a> {
    pub(crate) name: &'a str,
    pub(crate) sizes: Sizes,
    pub(crate) parts: &'a [&'a [Step]],
}

fn prot(may: May) -> Prot {
    match may {
        May::Read => Prot::READ,
        May::Write => Prot::WRITE,
        May::ReadWrite => Prot::READ | Prot::WRITE,
        May::Run => Prot::EXECUTE,
    }
}

/// Ends the test where something does not hold.
fn expect(rt: &impl Abort, holds: bool, otherwise: &str)
    ensures { holds ≡ true }
{
    assert!(rt; holds, "{otherwise}");
}

/// An msync. Memory is known to be sound after one that the store didn't fail, so the test ends where it did.
fn synced<M: Levels>(
    rt: &(impl AllocGlobal + Abort),
    core: &mut Core<SimDisk, SimDisk, M>,
    call: SyncCall,
) -> Answer
    requires { IsSoundCore ⟦<SimDisk as SectorDisk>⟧ ⟦<SimDisk as SectorDisk>⟧ core.old }
    ensures { IsSoundCore ⟦<SimDisk as SectorDisk>⟧ ⟦<SimDisk as SectorDisk>⟧ core.new }
{
    let nodes = core.frames.len() + core.swap.len();
    let most = core.store.store.always_free_pages();
    let Ok(mut room) = SyncRoom::new(rt.alloc(), most, nodes, core.store.sizes.len()) else {
        panic!(rt; "memory");
    };
    let answer = spaces::msync(core, &mut room, call);
    expect(
        rt,
        answer != Answer::Refused(Errno::EIO),
        "the store failed in an msync",
    );
    answer
}

fn called<M: Levels>(
    rt: &(impl AllocGlobal + Abort),
    core: &mut Core<SimDisk, SimDisk, M>,
    call: Call,
) -> Answer
    requires { IsSoundCore ⟦<SimDisk as SectorDisk>⟧ ⟦<SimDisk as SectorDisk>⟧ core.old }
    ensures { IsSoundCore ⟦<SimDisk as SectorDisk>⟧ ⟦<SimDisk as SectorDisk>⟧ core.new }
{
    let room = &mut RegionRoom::new();
    match call {
        Call::Spawn => spaces::spawn(core),
        Call::Fork(pid) => spaces::fork(core, pid),
        Call::Exit(pid) => spaces::exit(core, pid),
        Call::Map(addr, len, may, source) => {
            let request = MapRequest {
                addr,
                len,
                prot: prot(may),
                source,
                placing: Placing::Hint,
            };
            spaces::mmap(core, room, 1, request)
        }
        Call::Unmap(addr, len) => spaces::munmap(core, room, 1, addr, len),
        Call::Protect(addr, len, may) => {
            let prot = prot(may);
            spaces::mprotect(core, room, 1, ProtectRequest { addr, len, prot })
        }
        Call::Msync(pid, addr, len, mode) => {
            let call = SyncCall {
                pid,
                addr,
                len,
                mode,
            };
            synced(rt, core, call)
        }
        Call::Dontneed(addr, len) => spaces::dontneed(core, 1, addr, len),
        Call::Truncate(file, length) => spaces::truncate(core, file, length),
        Call::Load(pid, addr, width) => spaces::load(core, pid, addr, width),
        Call::Store(pid, addr, width, value) => {
            let stored = StoredValue::new(width, value).expect(rt, "a value of that width");
            spaces::store(core, pid, addr, stored)
        }
        Call::Fetch(addr) => spaces::fetch(core, 1, addr),
    }
}

/// The call of a step and the answer that is wanted; `None` for a look.
fn asked(step: Step) -> Option<(Call, Answer)> {
    match step {
        Step::Does(call) => Some((call, Answer::Done)),
        Step::Refuses(call, errno) => Some((call, Answer::Refused(errno))),
        Step::Stalls(call, stall) => Some((call, Answer::Stalled(stall))),
        Step::Places(call, addr) => Some((call, Answer::Address(addr))),
        Step::Makes(call, number) => Some((call, Answer::Process(Pid::new(number)?))),
        Step::Faults(call, cause, code, addr) => {
            Some((call, Answer::Faulted(Fault { cause, code, addr })))
        }
        Step::Maps(addr, len, source) => Some((
            Call::Map(addr, len, May::ReadWrite, source),
            Answer::Address(addr),
        )),
        Step::Stores(pid, addr, byte) => Some((
            Call::Store(pid, addr, Width::One, u64::from(byte)),
            Answer::Done,
        )),
        Step::Loads(pid, addr, value) => Some((
            Call::Load(pid, addr, Width::One),
            Answer::Value {
                width: Width::One,
                value,
            },
        )),
        Step::Reads(addr, width, value) => {
            Some((Call::Load(1, addr, width), Answer::Value { width, value }))
        }
        Step::Fetches(addr, value) => Some((
            Call::Fetch(addr),
            Answer::Value {
                width: Width::Four,
                value,
            },
        )),
        _ => None,
    }
}

/// How many frames are used.
fn used_frames<D, E, M: Levels>(core: &Core<D, E, M>) -> u32 {
    let mut used: u32 = 0;
    for frame in 0..core.frames.len() {
        if core.frames.role(FrameNo(frame)) != Role::Free {
            used = used.saturating_add(1);
        }
    }
    used
}

/// The number that stands for a page of a process; `None` where there is no such process.
fn number<D, E, M: Levels>(core: &Core<D, E, M>, pid: u64, addr: u64) -> Option<u64>
    requires fit { IsFit (picture_of core.now) }
{
    let pid = core.live(pid)?;
    let page = Vpn::new::<M>(addr / 4096)?;
    let root = root_of(core, pid);
    Some(entry_number(&core.frames, root, page).to_u64())
}

/// How many share the frame or the slot that an entry of this number names.
fn shares<D, E, M: Levels>(core: &Core<D, E, M>, number: u64) -> Option<u8> {
    if number % 2 == 0 {
        let slot = u32::try_from(number / 2).ok()?.checked_sub(1)?;
        return if slot < core.swap.len() {
            Some(core.swap.count(SlotNo(slot)))
        } else {
            None
        };
    }
    let frame = u32::try_from(number / 1024).ok()?;
    if frame < core.frames.len() {
        Some(core.frames.count(FrameNo(frame)))
    } else {
        None
    }
}

/// How many runs process 1 has, and what its page at that address stands on.
fn runs<D, E, M: Levels>(core: &Core<D, E, M>, addr: u64) -> Option<(usize, Backing)>
    requires fit { IsFit (picture_of core.now) }
{
    let pid = core.live(1)?;
    let page = Vpn::new::<M>(addr / 4096)?;
    let regions = core.regions(pid);
    let attr = regions.at(page)?;
    Some((regions.runs(), attr.backing))
}

/// A place as three levels of tables have it: where there are four, the table more lies in a lower frame.
fn in_three_levels<M: Levels>(place: Place) -> Place {
    match place {
        Place::Frame(FrameNo(n)) => Place::Frame(FrameNo(n.saturating_sub(M::top_level() - 2))),
        Place::Home | Place::Slot(_) => place,
    }
}

/// A byte of a sector of the store's device; `None` where there is no such sector.
fn stored(disk: &SimDisk, sector: u64, at: usize) -> Option<u8> {
    if sector >= disk.sectors() {
        return None;
    }
    disk.sector(sector).get(at).copied()
}

/// The length of the file in what a stop leaves of a device, and the first byte of one of its pages there; `None` where the file is
/// too short to have that page.
fn left(rt: &(impl AllocGlobal + Abort), disk: &SimDisk, page: u32) -> Option<(u64, u8)> {
    let disk = disk.left(rt.alloc(), &[]).expect(rt, "memory");
    let Ok(mut store) = Store::open(rt.alloc(), disk) else {
        panic!(rt; "no store");
    };
    let info = store.file(0)?;
    if info.length <= 4096 * u64::from(page) {
        return None;
    }
    let mut bytes = [0; 4096];
    match store.read_page(FilePage { file: 0, page }, &mut bytes) {
        Ok(()) => Some((info.length, bytes[0])),
        Err(_) => None,
    }
}

/// Looks at memory, and ends the test where it isn't as is wanted.
fn look<M: Levels>(
    rt: &(impl AllocGlobal + Abort),
    core: &Core<SimDisk, SimDisk, M>,
    name: &str,
    step: Step,
)
    requires fit { IsFit (picture_of core.now) }
{
    match step {
        Step::FreeSlots(wanted) => equal(rt, name, core.swap.free_slots(), wanted),
        Step::UsedFrames(wanted) => equal(rt, name, used_frames(core), wanted),
        Step::Entry(pid, addr, bits, sharers) => {
            let number = number(core, pid, addr).expect(rt, name);
            let found = (number % 1024, shares(core, number));
            equal(rt, name, found, (bits, sharers));
        }
        Step::Bits(addr, bits) => {
            equal(
                rt,
                name,
                number(core, 1, addr).expect(rt, name) % 1024,
                bits,
            )
        }
        Step::Runs(count, addr, backing) => {
            equal(rt, name, runs(core, addr), Some((count, backing)));
        }
        Step::Lies(page, place, is_touched) => {
            let found = in_three_levels::<M>(core.cache.place(page));
            equal(
                rt,
                name,
                (found, core.cache.is_touched(page)),
                (place, is_touched),
            );
        }
        Step::Stored(sector, at, byte) => {
            equal(
                rt,
                name,
                stored(core.store.store.disk(), sector, at),
                Some(byte),
            )
        }
        Step::Left(length, page, byte) => {
            let found = left(rt, core.store.store.disk(), page);
            equal(rt, name, found, Some((length, byte)));
        }
        _ => panic!(rt; "{name}: no look: {step:?}"),
    }
}

/// Does one step, and ends the test where it isn't as is wanted.
fn take<M: Levels>(
    rt: &(impl AllocGlobal + Abort),
    core: &mut Core<SimDisk, SimDisk, M>,
    name: &str,
    step: Step,
)
    requires { IsSoundCore ⟦<SimDisk as SectorDisk>⟧ ⟦<SimDisk as SectorDisk>⟧ core.old }
    ensures { IsSoundCore ⟦<SimDisk as SectorDisk>⟧ ⟦<SimDisk as SectorDisk>⟧ core.new }
{
    match asked(step) {
        Some((call, wanted)) => {
            let answer = called(rt, core, call);
            assert_eq!(rt; answer, wanted, "{name}: {call:?}");
        }
        None => look(rt, core, name, step),
    }
}

/// The steps of a row's parts.
fn steps_of(alloc: Global, row: Row<'_>) -> Result<Vec<Step>, AllocError> {
    let mut steps = Vec::new(alloc);
    for part in row.parts {
        steps.extend_from_slice(*part)?;
    }
    Ok(steps)
}

/// Takes the steps of a row in new memory of that mode.
fn follow_row<M: Levels>(rt: &(impl AllocGlobal + Abort), row: Row<'_>) -> Result<(), Fail> {
    let steps = steps_of(rt.alloc(), row)?;
    let mut core = memory::<M>(rt.alloc(), row.sizes)?;
    for step in steps.iter() {
        take(rt, &mut core, row.name, *step);
    }
    Ok(())
}

/// Takes the steps of each row in new memory of that mode.
pub(crate) fn follow<M: Levels>(
    rt: &(impl AllocGlobal + Abort),
    rows: &[Row<'_>],
) -> Result<(), Fail> {
    for row in rows {
        follow_row::<M>(rt, *row)?;
    }
    Ok(())
}

/// Ends the test where the value isn't the one that is wanted.
fn equal<T: PartialEq + Debug + Drop>(rt: &impl Abort, name: &str, got: T, want: T) {
    assert_eq!(rt; got, want, "{name}");
}
