//! The flat model as the judge of replies.
use crate::bench::{Case, Told, expect};
use flat_model::Flat;
use machine::BootFault;
use runner::RunEnd;
use std::alloc::{AllocError, Global};
use std::process::Abort;
use stores::NewStore;
use sync_journal::PAGE_LIMIT;
use trace_lang::{parse_line, reply_text};

/// What files hold after a stop: how long the first two are, where they are there, and the pages of all.
#[derive(Clone, Drop)]
pub(crate) struct Held {
    pub lengths: [Option<u64>; 2],
    pub pages: Vec<u8>,
}

impl Held {
    /// What they hold by the model.
    pub(crate) fn new(alloc: Global, flat: &Flat) -> Result<Held, AllocError> {
        Ok(Held {
            lengths: [flat.durable_length(0), flat.durable_length(1)],
            pages: flat.durable(alloc)?,
        })
    }
}

/// What the model makes of a run.
#[derive(Drop)]
pub(crate) struct Judge {
    pub flat: Flat,
    /// How many lines stalled: none of them is carried out.
    pub stalls: usize,
    /// How many msyncs returned `ok`.
    pub synced: usize,
    /// What the files hold before the msync that failed, if one did: it is carried out.
    pub before: Option<Held>,
}

impl Judge {
    /// Hears a line and its reply: the model's, or that stall, or the failure of an msync, behind which all lines find the
    /// machine halted.
    fn hear(&mut self, rt: &(impl AllocGlobal + Abort), line: &[u8], reply: &[u8], stall: &[u8]) {
        if self.before.is_some() {
            return expect(
                rt,
                reply == b"halted".as_slice(),
                "a machine that isn't halted",
            );
        }
        if reply == stall {
            self.stalls = self.stalls.saturating_add(1);
            return;
        }
        let has_failed = reply == b"error 5 EIO".as_slice();
        if has_failed {
            self.before = Some(Held::new(rt.alloc(), &self.flat).expect(rt, "memory"));
        } else if line.starts_with(b"msync") && reply == b"ok".as_slice() {
            self.synced = self.synced.saturating_add(1);
        }
        let command = parse_line(line).expect(rt, "a command");
        let told = self.flat.step(command).expect(rt, "memory");
        let mut text = [0; 1024];
        let length = reply_text(&told, &mut text);
        let told = text.get(..length.saturating_sub(1));
        let wanted = if has_failed { b"ok" } else { reply };
        expect(rt, told == Some(wanted), "another reply than the model's");
    }
}

/// Hears the lines of a trace and the replies of a run, of which there are as many, where some lines have that reply of a stall. Where
/// the store failed as the machine started, there are none.
pub(crate) fn heard(
    rt: &(impl AllocGlobal + Abort),
    case: &Case<'_>,
    told: &Told,
    stall: &[u8],
) -> Judge {
    let most = match case.store {
        NewStore::Journal => PAGE_LIMIT,
        NewStore::Pool(blocks) => 504 * blocks as usize,
    };
    let resizes = matches!(case.store, NewStore::Pool(_));
    let flat = Flat::new(rt.alloc(), case.config.mode, most, resizes, case.lengths);
    let flat = flat.expect(rt, "memory");
    let mut judge = Judge {
        flat,
        stalls: 0,
        synced: 0,
        before: None,
    };
    let is_refused = told.end == Err(BootFault::Device);
    let is_done = told.end == Ok(RunEnd::Done);
    expect(rt, is_refused || is_done, "a run that ended otherwise");
    let trace: &[u8] = if is_done { case.trace } else { b"" };
    let mut replies = told.output.split(|byte| *byte == b'\n');
    for line in trace.split(|byte| *byte == b'\n') {
        let reply = replies.next().expect(rt, "a reply for each line");
        if !line.is_empty() {
            judge.hear(rt, line, reply, stall);
        }
    }
    expect(rt, replies.next().is_none(), "more replies than lines");
    judge
}
