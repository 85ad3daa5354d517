//! What the tests share: a trace over an image of files, and a run of it with a fault. No other file here makes a machine.
use crate::fillings::{EACH, FILLINGS, OLD, OPEN};
use crate::judge::{Held, Judge, heard};
use crate::short_disk::ShortDisk;
use disk_model::SimDisk;
use file_store::FileSource;
use machine::{BootFault, Config};
use runner::{Devices, RunEnd, run_on};
use std::alloc::{AllocError, Global};
use std::process::Abort;
use stores::{NewStore, OpenFault, Store, format};

/// The fault that a device is to have: the store's, or that of swap, whose calls are counted from the start of the machine on.
#[derive(Clone, Copy)]
pub(crate) enum Armed {
    Nothing,
    StopAtWrite(u64),
    FailAtCall(u64),
    SwapFailsAtCall(u64),
}

impl Armed {
    /// The reply of a line that the fault stalls; none is where it stalls no line.
    pub(crate) fn stall(self) -> &'static [u8] {
        match self {
            Armed::Nothing | Armed::StopAtWrite(_) => b"",
            Armed::FailAtCall(_) => b"stall 4 STOREDEV",
            Armed::SwapFailsAtCall(_) => b"stall 3 SWAPDEV",
        }
    }
}

/// A trace on a machine of that size, over an image of files of zeros.
#[derive(Clone, Copy)]
pub(crate) struct Case<'a> {
    pub config: Config,
    pub lengths: &'a [u32],
    /// Homes behind those of the files. The file of an image that has one alone gets them in their order, as it grows.
    pub spare: u64,
    pub store: NewStore,
    /// The writes of the store's gate that each msync ends with, the first write being 1.
    pub gates: &'a [u64],
    pub trace: &'a [u8],
    /// The replies where no device fails.
    pub replies: &'a [u8],
}

/// How a run ended, or why there was none, the replies, and the device of the store as it was left.
#[derive(Drop)]
pub(crate) struct Told {
    pub end: Result<RunEnd, BootFault>,
    pub output: Vec<u8>,
    pub store: ShortDisk,
}

/// Ends the test where something does not hold.
pub(crate) fn expect(rt: &impl Abort, holds: bool, otherwise: &str) {
    assert!(rt; holds, "{otherwise}");
}

/// Why the store of an image was not opened, if so, how long its first two files are, and its device.
#[derive(Drop)]
pub(crate) struct Opened {
    pub fault: Option<OpenFault>,
    lengths: [Option<u64>; 2],
    pub disk: ShortDisk,
}

impl Opened {
    /// Whether the store was opened, and its files hold what is wanted.
    pub(crate) fn holds(&self, alloc: Global, wanted: &Held) -> Result<bool, AllocError> {
        let pages = self.disk.homes(alloc)?;
        let is_open = self.fault.is_none() && self.lengths == wanted.lengths;
        Ok(is_open && pages.as_slice().starts_with(wanted.pages.as_slice()))
    }
}

/// Opens the store of an image.
pub(crate) fn tried(alloc: Global, image: ShortDisk) -> Opened {
    match Store::open(alloc, image) {
        Ok(store) => Opened {
            fault: None,
            lengths: [0, 1].map(|file| store.file(file).map(|info| info.length)),
            disk: store.into_disk(),
        },
        Err((fault, disk)) => Opened {
            fault: Some(fault),
            lengths: [None; 2],
            disk,
        },
    }
}

impl Case<'_> {
    /// The image before the trace.
    pub(crate) fn image(&self, rt: &(impl AllocGlobal + Abort)) -> ShortDisk {
        let mut files: Vec<FileSource<&[u8]>> = Vec::new(rt.alloc());
        let mut homes = self.spare;
        for length in self.lengths {
            homes = homes.saturating_add(u64::from(length.div_ceil(4096)));
            files
                .push(FileSource {
                    read_only: false,
                    length: *length,
                    bytes: None,
                })
                .expect(rt, "memory");
        }
        let mut disk = ShortDisk::new(rt.alloc(), self.store, homes).expect(rt, "memory");
        if let NewStore::Pool(blocks) = self.store {
            assert!(rt; 1 <= blocks && blocks <= 2048);
        }
        format(&mut disk, self.store, files.as_mut_slice()).expect(rt, "a store");
        disk
    }

    /// Runs it over its image, on a machine one of whose devices may fail.
    pub(crate) fn ran(
        &self,
        rt: &(impl AllocGlobal + Abort),
        image: &ShortDisk,
        armed: Armed,
    ) -> Told {
        let alloc = rt.alloc();
        let mut store = image.left(alloc, None).expect(rt, "memory");
        let mut swap = SimDisk::new(alloc, 8 * u64::from(self.config.slots)).expect(rt, "memory");
        match armed {
            Armed::Nothing => {}
            Armed::StopAtWrite(write) => store.disk.stop_at(write),
            Armed::FailAtCall(call) => store.disk.fail_at(call),
            Armed::SwapFailsAtCall(call) => swap.fail_at(call),
        }
        let mut reader = self.trace;
        let mut output = Vec::new(alloc);
        let devices = Devices { store, swap };
        match run_on(alloc, self.config, devices, &mut reader, &mut output) {
            Ok((end, machine)) => Told {
                end: Ok(end),
                output,
                store: machine.into_store(),
            },
            Err((fault, store)) => Told {
                end: Err(fault),
                output,
                store,
            },
        }
    }

    /// What the files hold once the store was opened that a run left, with that filling of its unsynced sectors: that is what the
    /// judge says, with an msync that failed only where the gate's sector is filled with what says that it is done. The two maps of a pool
    /// are named in turn: the second by what opens a gate, and the first by other bytes, of which the old ones are none.
    pub(crate) fn standing(
        &self,
        rt: &(impl AllocGlobal + Abort),
        told: &Told,
        judge: &Judge,
        filling: usize,
    ) -> Held {
        let write = told.store.disk.writes();
        let at_gate = self.gates.get(judge.synced) == Some(&write);
        let is_named = match self.store {
            NewStore::Pool(_) if judge.synced % 2 == 1 => filling != OPEN && filling != OLD,
            _ => filling == OPEN,
        };
        let is_done = at_gate && is_named;
        let wanted = match &judge.before {
            Some(before) if !is_done => before.clone().expect(rt, "memory"),
            _ => Held::new(rt.alloc(), &judge.flat).expect(rt, "memory"),
        };
        let left = told.store.left(rt.alloc(), FILLINGS[filling % 5]);
        let opened = tried(rt.alloc(), left.expect(rt, "memory"));
        let is_same = opened.holds(rt.alloc(), &wanted).expect(rt, "memory");
        assert!(rt; is_same, "write {write}, filling {filling}: other files");
        wanted
    }

    /// How many lines stalled or failed with that fault, or 1 where no machine started. What is left stands as the judge says with
    /// these fillings.
    pub(crate) fn failures(
        &self,
        rt: &(impl AllocGlobal + Abort),
        image: &ShortDisk,
        armed: Armed,
        fillings: &[usize],
    ) -> usize {
        let told = self.ran(rt, image, armed);
        let judge = heard(rt, self, &told, armed.stall());
        for filling in fillings {
            self.standing(rt, &told, &judge, *filling);
        }
        let failed = usize::from(judge.before.is_some() || told.end.is_err());
        judge.stalls.saturating_add(failed)
    }

    /// How many calls and writes the store has in a run where no device fails, whose replies are those that are wanted.
    pub(crate) fn asked(&self, rt: &(impl AllocGlobal + Abort), image: &ShortDisk) -> (u64, u64) {
        let told = self.ran(rt, image, Armed::Nothing);
        let is_same = told.output.as_slice() == self.replies;
        expect(rt, is_same, "other replies than wanted");
        (told.store.disk.calls(), told.store.disk.writes())
    }

    /// Tries a stop at each write of the store, or else a failure of each of its calls: each stalls a line, fails an msync or lets
    /// no machine start.
    pub(crate) fn try_each(&self, rt: &(impl AllocGlobal + Abort), with_stops: bool) {
        let image = self.image(rt);
        let (calls, writes) = self.asked(rt, &image);
        let count = if with_stops { writes } else { calls };
        for at in 1..=count {
            let armed = if with_stops {
                Armed::StopAtWrite(at)
            } else {
                Armed::FailAtCall(at)
            };
            let failures = self.failures(rt, &image, armed, &EACH);
            assert!(rt; failures == 1, "{at}: not one failure");
        }
    }
}
