//! New stores on a device in memory.
use crate::bench::{check_device, check_left, equal, first_byte, image, left, opened, sector};
use disk_model::{SectorDisk, SimDisk};
use file_store::{FileSource, FormatFault, format, image_bytes};
use std::process::Abort;
use vm_types::FilePage;

/// A file that may be written, of so many of these bytes, or of zeros.
fn file(length: u32, bytes: Option<&[u8]>) -> FileSource<&[u8]> {
    FileSource {
        read_only: false,
        length,
        bytes,
    }
}

#[test]
fn formats_files_one_after_another(rt: HostRuntime) {
    let letter: &[u8] = b"b";
    // The numbers of the format: 2147483648 and 5000, 3221225474 and 1.
    let directory = sector(
        &[0; 8],
        &[(3, 0x80), (4, 0x88), (5, 0x13), (8, 2), (11, 0xc0), (12, 1)],
    );
    let locked = FileSource {
        read_only: true,
        length: 1,
        bytes: Some(letter),
    };
    let mut sources = [file(5000, None), locked];
    // Three home pages behind 8,195 sectors.
    equal(&rt, image_bytes(&sources), 4_208_128);
    let mut disk = SimDisk::new(rt.alloc(), 8219).expect(&rt, "memory");
    equal(&rt, format(&mut disk, &mut sources), Ok(()));
    let wanted = [
        (0, sector(b"FAMSYNC2", &[])),
        (1, directory),
        (2, [0; 512]),
        (3, [0; 512]),
        (8211, sector(&[0; 8], &[(0, 0x62)])),
    ];
    check_device(&rt, &disk, (27, 2), &wanted);
    let mut store = opened(&rt, left(&rt, &disk, &[]));
    let last = first_byte(&mut store, FilePage { file: 0, page: 1 });
    equal(&rt, last, Some(0));
    let only = first_byte(&mut store, FilePage { file: 1, page: 0 });
    equal(&rt, only, Some(0x62));
}

#[test]
fn refuses_what_it_cannot_format(rt: HostRuntime) {
    let short: &[u8] = &[0x61; 4999];
    // One sector too few, a file of two pages where there is one home, a device with a mark, and a source that ends early,
    // of which the first page is written and nothing else.
    let rows = [
        (8194, b"FAMSYNC2", file(0, None), FormatFault::TooLarge, 0),
        (
            8203,
            b"FAMSYNC2",
            file(4097, None),
            FormatFault::TooLarge,
            0,
        ),
        (8203, b"FAMSYNC1", file(0, None), FormatFault::Formatted, 0),
        (8203, b"FAMSYNC2", file(0, None), FormatFault::Formatted, 0),
        (8203, b"FAMSYNC3", file(0, None), FormatFault::Formatted, 0),
        (8203, b"FAMSYNC4", file(0, None), FormatFault::Formatted, 0),
        (
            8219,
            &[0; 8],
            file(5000, Some(short)),
            FormatFault::Source,
            8,
        ),
    ];
    for (sectors, word, source, fault, writes) in rows {
        let mut disk = image(&rt, sectors, &[(0, sector(word, &[]))]);
        equal(&rt, format(&mut disk, &mut [source]), Err(fault));
        equal(&rt, (disk.writes(), disk.syncs()), (writes, 0));
    }
}

/// How many writes make a store of a file of a page.
const WRITES: u64 = 11;

/// What the format of a file of a page leaves that is stopped at that write.
fn formatted_until(rt: &(impl AllocGlobal + Abort), write: u64, bytes: Option<&[u8]>) -> SimDisk {
    let mut disk = SimDisk::new(rt.alloc(), 8203).expect(rt, "memory");
    disk.stop_at(write);
    let wanted = if write <= WRITES {
        Err(FormatFault::Device)
    } else {
        Ok(())
    };
    equal(rt, format(&mut disk, &mut [file(4096, bytes)]), wanted);
    disk
}

// The mark is the last write, whether a reader gives the file's bytes or they are zeros.
#[test]
fn a_stopped_format_leaves_no_mark_or_a_whole_store(rt: HostRuntime) {
    let page: &[u8] = &[0x61; 4096];
    for bytes in [Some(page), None] {
        let whole = formatted_until(&rt, WRITES + 1, bytes);
        let byte = if bytes.is_some() { 0x61 } else { 0 };
        let home = [(8195, [byte; 512]), (8202, [byte; 512])];
        check_device(&rt, &whole, (WRITES, 2), &home);
        for write in 1..WRITES + 1 {
            let stopped = formatted_until(&rt, write, bytes);
            check_left(&rt, &stopped, write == WRITES, &whole);
        }
    }
}
