//! Requests of a client over a device in memory.
use crate::bench::{equal, opened};
use batches::{ServeEnd, serve};
use disk_model::SimDisk;
use file_store::{FileSource, format};
use std::process::Abort;

/// How requests over a writable file and a read-only one end, of a page of zeros each, and the replies.
fn served(rt: &(impl AllocGlobal + Abort), requests: &[u8]) -> (ServeEnd, Vec<u8>) {
    let mut disk = SimDisk::new(rt.alloc(), 8211).expect(rt, "memory");
    let file = |read_only| FileSource::<&[u8]> {
        read_only,
        length: 4096,
        bytes: None,
    };
    format(&mut disk, &mut [file(false), file(true)]).expect(rt, "a store");
    let mut store = opened(rt, disk);
    let mut input = requests;
    let mut output = Vec::new(rt.alloc());
    let end = serve(rt.alloc(), &mut store, &mut input, &mut output).expect(rt, "memory");
    (end, output)
}

/// A text, and the byte of a page behind it, if there is one.
type Part = (&'static [u8], Option<u8>);

/// These texts and pages one after another.
fn joined(rt: &(impl AllocGlobal + Abort), parts: &[Part]) -> Vec<u8> {
    let mut all = Vec::new(rt.alloc());
    for (text, byte) in parts {
        all.extend_from_slice(*text).expect(rt, "memory");
        if let Some(byte) = byte {
            all.extend_from_slice(&[*byte; 4096]).expect(rt, "memory");
        }
    }
    all
}

const REQUESTS: &[Part] = &[
    (b"page 0 0\n", Some(7)),
    (b"commit\nread 0 0\npage 1 0\n", Some(8)),
    (b"commit\npage 0 1\n", Some(9)),
    (b"commit\ncommit\nread 1 0\n", None),
];

const REPLIES: &[Part] = &[
    (b"ok\nok\n", Some(7)),
    (b"read-only\nbad-pages\nbad-pages\nok\n", Some(0)),
];

/// Requests, how they end, and the replies.
const ROWS: [(&[Part], ServeEnd, &[Part]); 3] = [
    (REQUESTS, ServeEnd::Done, REPLIES),
    (&[(b"page 0 0\n", Some(7))], ServeEnd::Cut, &[]),
    (
        &[(b"pages 0 0\n", None)],
        ServeEnd::BadLine,
        &[(b"bad-line\n", None)],
    ),
];

#[test]
fn batches_are_durable_refused_or_cut(rt: HostRuntime) {
    for (requests, wanted, replies) in ROWS {
        let requests = joined(&rt, requests);
        let replies = joined(&rt, replies);
        let (end, output) = served(&rt, requests.as_slice());
        equal(&rt, end, wanted);
        equal(&rt, output.as_slice(), replies.as_slice());
    }
}
