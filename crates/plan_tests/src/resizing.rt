//! Plans that give files of a store of layout 4 other lengths.
use super::client::{
    Client, NO_FILE, SMALL, carry_out, equal, expect, file_of, lent_of, long, made, new_store,
    rows_of,
};
use super::stops::stopped_everywhere;
use disk_model::SimDisk;
use file_store::FileSource;
use pool_growth::FileSize;
use std::process::Abort;
use stores::NewStore;
use sync_plans::{ResizeRefusal, SizeUpdates};
use vm_types::FilePage;

/// A file of one byte, so many times.
fn of(bytes: &'static [u8], length: u32) -> FileSource<&'static [u8]> {
    FileSource {
        read_only: false,
        length,
        bytes: Some(bytes),
    }
}

/// A device with a store of three files, in homes 4 to 9, and with 16 homes more.
fn store(rt: &(impl AllocGlobal + Abort)) -> SimDisk {
    let mut files = [
        of(&[b'a'; 5000], 5000),
        of(&[b'b'; 12288], 12288),
        of(b"c", 1),
    ];
    made(rt, NewStore::Pool(1), &mut files, 16)
}

/// No file of this number.
fn gone(file: u32) -> FileSize {
    FileSize {
        file,
        is_there: 0,
        length: 0,
    }
}

fn page(file: u16, page: u32) -> FilePage {
    FilePage { file, page }
}

/// One file gets three pages more, one is cut within its second page, one goes, and one comes. The new pages come first.
/// The last of these is cut, and so it takes eight rows; each other is one call. A page of the directory, the map
/// and the gate take 17 rows and two syncs, and the two pages that were there a call each.
#[test]
fn files_get_other_lengths_all_at_once(rt: HostRuntime) {
    let before = [
        file_of(5000, b"aa\0\0\0"),
        file_of(12288, b"bbb\0\0"),
        file_of(1, b"c\0\0\0\0"),
        NO_FILE,
    ];
    let after = [
        file_of(20480, b"aidef"),
        file_of(4100, b"jb\0\0\0"),
        NO_FILE,
        file_of(4196, b"gh\0\0\0"),
    ];
    let bytes = b"defghij".map(|byte| [byte; 4096]);
    let lent = lent_of(&rt, &bytes);
    let updates = SizeUpdates {
        sizes: &[long(0, 20480), long(1, 4100), gone(2), long(3, 4196)],
        fresh: &[page(0, 2), page(0, 3), page(0, 4), page(3, 0), page(3, 1)],
        pages: &[page(0, 1), page(1, 0)],
        bytes: lent.as_slice(),
    };
    let mut client = Client::new(&rt, SMALL);
    let mut disk = store(&rt);
    let image = rows_of(&rt, &disk);
    equal(&rt, client.files(&rt, image.as_slice()), before);
    let answer = client.resize(image.as_slice(), updates);
    let plan = &client.plan;
    equal(&rt, (answer, plan.counts()), (Ok(33), [25, 2, 6, 0]));
    stopped_everywhere(&rt, &disk, plan, lent.as_slice(), [before, after], 3);
    let is_done = carry_out(&mut disk, plan, lent.as_slice(), 0, plan.used);
    expect(&rt, is_done, "a plan that can't be carried out");
    let image = rows_of(&rt, &disk);
    equal(&rt, client.files(&rt, image.as_slice()), after);
}

/// Sizes that are asked for, with new pages, and with pages that were pages before, and so many pages of bytes.
type Ask<'a> = (&'a [FileSize], &'a [FilePage], &'a [FilePage], usize);

/// Asks for that.
fn asked(
    rt: &(impl AllocGlobal + Abort),
    client: &mut Client,
    image: &[[u8; 512]],
    (sizes, fresh, pages, count): Ask<'_>,
) -> Result<usize, ResizeRefusal> {
    let bytes = Vec::from_elem(rt.alloc(), [9; 4096], count).expect(rt, "memory");
    let lent = lent_of(rt, bytes.as_slice());
    let bytes = lent.as_slice();
    let updates = SizeUpdates {
        sizes,
        fresh,
        pages,
        bytes,
    };
    client.resize(image, updates)
}

/// Asks that of an image.
fn refused(
    rt: &(impl AllocGlobal + Abort),
    image: &[[u8; 512]],
    asks: &[Ask<'_>],
    wanted: ResizeRefusal,
) {
    let mut client = Client::new(rt, SMALL);
    for ask in asks {
        let answer = asked(rt, &mut client, image, *ask);
        equal(rt, answer, Err(wanted));
    }
}

/// Files of 5,000, 1 and 4,096 bytes, of which the second may only be read. No home is free.
#[test]
fn bad_sizes_are_refused(rt: HostRuntime) {
    let image = rows_of(&rt, &new_store(&rt, NewStore::Pool(1)));
    let image = image.as_slice();
    let bad: &[Ask<'_>] = &[
        // The files don't rise, or have no place in the directory.
        (&[gone(2), long(0, 4096)], &[], &[], 0),
        (&[long(0, 4096), long(0, 4096)], &[], &[], 0),
        (&[long(64, 0)], &[], &[], 0),
        // The last page of a file that gets longer is missing.
        (&[long(0, 5001)], &[], &[], 0),
        (&[long(0, 5001)], &[], &[page(0, 0)], 1),
        // There are too few bytes, or too many.
        (&[long(0, 5001)], &[], &[page(0, 1)], 0),
        (&[long(0, 5001)], &[], &[page(0, 1)], 2),
        (&[gone(2)], &[], &[], 1),
        // A page is not in its file before or afterwards, or the pages don't rise.
        (&[long(0, 4096)], &[], &[page(0, 1)], 1),
        (&[gone(2)], &[], &[page(2, 0)], 1),
        (&[long(0, 5001)], &[], &[page(0, 1), page(0, 2)], 2),
        (&[], &[], &[page(2, 0), page(0, 0)], 2),
        // A new page was in its file before, or is not in it afterwards.
        (&[long(0, 5001)], &[page(0, 1)], &[], 1),
        (&[long(0, 5001)], &[page(0, 2)], &[page(0, 1)], 2),
    ];
    refused(&rt, image, bad, ResizeRefusal::BadPages);
    let locked: &[Ask<'_>] = &[
        (&[long(1, 1)], &[], &[], 0),
        (&[gone(1)], &[], &[], 0),
        (&[long(0, 4096)], &[], &[page(1, 0)], 1),
    ];
    refused(&rt, image, locked, ResizeRefusal::ReadOnly);
    let large: &[Ask<'_>] = &[
        (&[long(2, 4097)], &[], &[], 0),
        (&[long(3, 1)], &[page(3, 0)], &[], 1),
        // The homes of a file that goes are free only afterwards.
        (&[gone(2), long(3, 1)], &[page(3, 0)], &[], 1),
        (&[long(0, 8193)], &[page(0, 2)], &[page(0, 1)], 2),
    ];
    refused(&rt, image, large, ResizeRefusal::NoHomes);
    let none: &[Ask<'_>] = &[(&[long(0, 4096)], &[], &[], 0), (&[], &[], &[], 0)];
    let journal = rows_of(&rt, &new_store(&rt, NewStore::Journal));
    refused(&rt, journal.as_slice(), none, ResizeRefusal::NoPool);
    refused(&rt, &[], none, ResizeRefusal::NoPool);
}

/// A file that is cut, one that goes, and one of no page in another page of the directory: two pages of it, the map and the gate take 25 rows, with
/// two syncs.
#[test]
fn sizes_alone_take_the_directory(rt: HostRuntime) {
    let image = rows_of(&rt, &new_store(&rt, NewStore::Pool(1)));
    for (room, wanted) in [
        ([[27, 27], [27, 27]], Ok(27)),
        ([[26, 28], [28, 28]], Err(ResizeRefusal::Device)),
        ([[28, 26], [28, 28]], Err(ResizeRefusal::Device)),
        ([[28, 28], [26, 28]], Err(ResizeRefusal::Device)),
        ([[28, 28], [28, 0]], Err(ResizeRefusal::Device)),
    ] {
        let mut client = Client::new(&rt, room);
        let sizes = [long(0, 100), gone(2), long(63, 0)];
        let answer = asked(&rt, &mut client, image.as_slice(), (&sizes, &[], &[], 0));
        equal(&rt, answer, wanted);
    }
}
