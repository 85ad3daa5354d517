//! Images on devices in memory, and traces that are run on machines over them.
//!
//! No test holds a machine, or compares replies by itself: it names a trace and the replies that are wanted. Nothing returns an error,
//! since each `?` is a way out, which lets go of all that a function holds, and for a machine, a device or replies that takes long to prove.
ghost use Rattle.stores.specs.NewStores.{IsSizedNew};

use disk_model::SimDisk;
use file_store::FileSource;
use machine::{BootFault, Config};
use runner::{Devices, RunEnd, run_on};
use std::fmt::Debug;
use std::io::{Read, Write};
use std::process::Abort;
use stores::{NewStore, format, image_bytes};
use vm_types::Mode;

/// A trace, and the replies that are wanted.
pub(crate) type Exchange<'a> = (&'a [u8], &'a [u8]);

/// How a run ends, and whether the machine is halted then; or why none starts.
pub(crate) type Ending = Result<(RunEnd, bool), BootFault>;

/// The fault that a device is to have: the store's, or that of swap, whose calls are counted from the start of the machine on.
#[derive(Clone, Copy)]
pub(crate) enum Armed {
    Nothing,
    StoreFailsAtCall(u64),
    SwapFailsAtCall(u64),
}

/// More frames than most traces ask for.
pub(crate) const CONFIG: Config = Config {
    frames: 64,
    slots: 16,
    mode: Mode::Sv39,
};

/// The fewest frames: with one process and pages that lie together there are four for pages, beside the zero page and three tables.
pub(crate) const SMALL: Config = Config {
    frames: 8,
    slots: 16,
    mode: Mode::Sv39,
};

/// A store of layout 2.
pub(crate) const SINGLE: NewStore = NewStore::Journal;

/// What a trace is run on: a machine of that size over a file of so many zeros, in such a store, and the fault of its devices.
#[derive(Clone, Copy)]
pub(crate) struct Setting {
    pub(crate) length: u32,
    pub(crate) store: NewStore,
    pub(crate) config: Config,
    pub(crate) armed: Armed,
}

/// A machine of 64 frames over a page of zeros, whose devices have no fault.
pub(crate) const PLAIN: Setting = Setting {
    length: 4096,
    store: SINGLE,
    config: CONFIG,
    armed: Armed::Nothing,
};

/// What became of a run: how it ended, and the device of the store.
#[derive(Drop)]
struct Told {
    ending: Ending,
    store: SimDisk,
}

/// Ends the test where the value found isn't the one that is wanted. A test that said `assert_eq!` itself would be proved to end well
/// at each place.
pub(crate) fn same<T: PartialEq + Debug + Drop>(rt: &impl Abort, found: T, wanted: T) {
    assert_eq!(rt; found, wanted);
}

/// That store, which has to be one that is made: a constant has no condition.
fn sized(rt: &impl Abort, store: NewStore) -> NewStore
    ensures { IsSizedNew result }
{
    if let NewStore::Pool(blocks) = store {
        assert!(rt; 1 <= blocks && blocks <= 2048);
    }
    store
}

/// An image of one file, of so many zeros or of these bytes, which may only be read then, in such a store.
pub(crate) fn image(
    rt: &(impl AllocGlobal + Abort),
    store: NewStore,
    length: u32,
    bytes: Option<&[u8]>,
) -> SimDisk {
    let store = sized(rt, store);
    let mut files: [FileSource<&[u8]>; 1] = [FileSource {
        read_only: bytes.is_some(),
        length,
        bytes,
    }];
    let sectors = image_bytes(store, &files) / 512;
    let mut disk = SimDisk::new(rt.alloc(), sectors).expect(rt, "memory");
    format(&mut disk, store, &mut files).expect(rt, "a store");
    disk
}

/// Devices with that fault: the image as it was last synced, and sixteen slots.
fn devices(
    rt: &(impl AllocGlobal + Abort),
    image: &SimDisk,
    armed: Armed,
) -> Devices<SimDisk, SimDisk> {
    let mut store = image.left(rt.alloc(), &[]).expect(rt, "memory");
    let mut swap = SimDisk::new(rt.alloc(), 128).expect(rt, "memory");
    match armed {
        Armed::Nothing => {}
        Armed::StoreFailsAtCall(call) => store.fail_at(call),
        Armed::SwapFailsAtCall(call) => swap.fail_at(call),
    }
    Devices { store, swap }
}

/// Runs a trace over an image as it was last synced.
fn ran(
    rt: &(impl AllocGlobal + Abort),
    image: &SimDisk,
    (config, armed): (Config, Armed),
    trace: &[u8],
    output: &mut Vec<u8>,
) -> Told {
    let devices = devices(rt, image, armed);
    let mut reader = trace;
    match run_on(rt.alloc(), config, devices, &mut reader, output) {
        Ok((end, machine)) => Told {
            ending: Ok((end, machine.is_halted())),
            store: machine.into_store(),
        },
        Err((fault, store)) => Told {
            ending: Err(fault),
            store,
        },
    }
}

/// Sees the replies to a trace over an image, and how its run ends: the device of the store, as it is left.
pub(crate) fn left_over(
    rt: &(impl AllocGlobal + Abort),
    image: &SimDisk,
    run: (Config, Armed),
    exchange: Exchange<'_>,
    ending: Ending,
) -> SimDisk {
    let (trace, wanted) = exchange;
    let mut output = Vec::new(rt.alloc());
    let told = ran(rt, image, run, trace, &mut output);
    same(rt, output.as_slice(), wanted);
    same(rt, told.ending, ending);
    told.store
}

/// The end of a trace, on a machine that goes on.
pub(crate) const GOES_ON: Ending = Ok((RunEnd::Done, false));

/// The device of the store, as a machine leaves it that gives these replies to a trace.
pub(crate) fn left_in(
    rt: &(impl AllocGlobal + Abort),
    setting: Setting,
    exchange: Exchange<'_>,
    ending: Ending,
) -> SimDisk {
    let image = image(rt, setting.store, setting.length, None);
    let run = (setting.config, setting.armed);
    left_over(rt, &image, run, exchange, ending)
}

/// Sees that machines give these replies to traces, each from a new start.
pub(crate) fn expect_all(
    rt: &(impl AllocGlobal + Abort),
    setting: Setting,
    exchanges: &[Exchange<'_>],
) {
    for exchange in exchanges {
        left_in(rt, setting, *exchange, GOES_ON);
    }
}

/// Sees that a machine gives these replies to a trace: how many writes and syncs its store's device has behind those of its start.
pub(crate) fn asked_after_start(
    rt: &(impl AllocGlobal + Abort),
    setting: Setting,
    exchange: Exchange<'_>,
) -> (u64, u64) {
    let at_start = left_in(rt, setting, (b"", b""), GOES_ON);
    let (writes, syncs) = (at_start.writes(), at_start.syncs());
    drop(at_start);
    let store = left_in(rt, setting, exchange, GOES_ON);
    (
        store.writes().saturating_sub(writes),
        store.syncs().saturating_sub(syncs),
    )
}

/// How a run of that reader and that writer ends on a machine of 64 frames over a file of one page of zeros.
pub(crate) fn streamed<R: Read, W: Write>(
    rt: &(impl AllocGlobal + Abort),
    reader: &mut R,
    writer: &mut W,
) -> Result<RunEnd, BootFault> {
    let image = image(rt, SINGLE, 4096, None);
    let devices = devices(rt, &image, Armed::Nothing);
    match run_on(rt.alloc(), CONFIG, devices, reader, writer) {
        Ok((end, _)) => Ok(end),
        Err((fault, _)) => Err(fault),
    }
}
