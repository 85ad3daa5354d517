//! Where pages of files and objects are, and the touched ones.
use crate::bench::equal;
use page_cache::{FileRow, PageCache, Place, TooMany};
use std::process::Abort;
use std::test::Fail;
use vm_types::{FilePage, FrameNo, ObjectPage, PageKey, SlotNo};

const FRAMES: u32 = 1100;

// How many pages the list has room for.
const ROOM: usize = 1023;

fn file(file: u16, page: u32) -> PageKey {
    PageKey::File(FilePage { file, page })
}

// Moves the page, and touches or cleans it; a place that is not free for it ends the test.
fn put(rt: &impl Abort, cache: &mut PageCache, page: PageKey, place: Place, touched: bool) {
    match place {
        Place::Home => {
            assert!(rt; !cache.is_touched(page));
            cache.set_place(page, Place::Home);
        }
        Place::Frame(n) => {
            assert!(rt; n.0 < cache.frames());
            assert!(rt; cache.page_in_frame(n).is_none());
            cache.set_place(page, Place::Frame(n));
        }
        Place::Slot(n) => {
            assert!(rt; n.0 < cache.slots());
            assert!(rt; cache.page_in_slot(n).is_none());
            cache.set_place(page, Place::Slot(n));
        }
    }
    if touched {
        assert!(rt; cache.place(page) != Place::Home);
        cache.mark_dirty(page);
    } else {
        cache.clean(page);
    }
    if let Place::Frame(n) = place {
        assert!(rt; n.0 < cache.frames());
        assert!(rt; cache.is_frame_touched(n) == touched);
    }
}

#[test]
fn a_page_goes_to_frames_to_slots_and_home(rt: HostRuntime) -> Result<(), Fail> {
    let mut cache = PageCache::new(rt.alloc(), 8, 4)?;
    let page = PageKey::Object(ObjectPage { object: 1, page: 5 });
    // It is none of a file.
    let twin = file(1, 5);
    for (place, touched) in [
        (Place::Frame(FrameNo(7)), true),
        (Place::Slot(SlotNo(0)), true),
        (Place::Frame(FrameNo(3)), false),
        (Place::Home, false),
        (Place::Slot(SlotNo(0)), true),
        (Place::Frame(FrameNo(7)), true),
    ] {
        put(&rt, &mut cache, page, place, touched);
        equal(
            &rt,
            (cache.place(page), cache.is_touched(page), cache.place(twin)),
            (place, touched, Place::Home),
        );
    }
    Ok(())
}

// Of the touched pages 1,024 are of file 5, three of file 1, and one each of file 6, of an object and of file 0, where it is the
// last page that a file can have; page 6 of file 1 is in a frame and not touched.
#[test]
fn a_row_lists_its_touched_pages_once(rt: HostRuntime) -> Result<(), Fail> {
    let mut cache = PageCache::new(rt.alloc(), FRAMES, 0)?;
    for n in 0..1024 {
        let frame = Place::Frame(FrameNo(n));
        put(&rt, &mut cache, file(5, n), frame, true);
    }
    for (n, page, touched) in [
        (1024, file(1, 5), true),
        (1025, file(1, 6), false),
        (1026, file(1, 7), true),
        (1027, file(1, 8), true),
        (1028, file(6, 0), true),
        (
            1029,
            PageKey::Object(ObjectPage { object: 5, page: 0 }),
            true,
        ),
        (1030, file(0, u32::MAX), true),
    ] {
        put(&rt, &mut cache, page, Place::Frame(FrameNo(n)), touched);
    }
    assert!(&rt; cache.frames() + cache.slots() == FRAMES);
    let none = FilePage { file: 63, page: 0 };
    let mut list = [none; ROOM];
    let mut ranks = [7; FRAMES as usize];
    let mut entries = 0;
    for (file, first, count, used, listed) in [
        // shorter than the touched pages: by the row
        (5, 1, 1023, 0, Ok(1023)),
        (5, 0, 1024, 1023, Err(TooMany)),
        (5, 1, 1023, 1023, Ok(1023)),
        (6, 0, 1, 1023, Err(TooMany)),
        // longer: by the touched pages
        (5, 1, 2000, 0, Ok(1023)),
        (5, 0, 2000, 0, Err(TooMany)),
        (6, 0, 2000, 1022, Ok(1023)),
        (0, 1, u32::MAX, 0, Ok(1)),
        // two of file 1, the third, and none again
        (1, 7, 2, 0, Ok(2)),
        (1, 0, 2000, 2, Ok(3)),
        (1, 5, 3, 3, Ok(3)),
        (6, 0, 1, 3, Ok(4)),
        (3, 0, 2000, 4, Ok(4)),
        (1, 5, 0, 4, Ok(4)),
    ] {
        assert!(&rt; used <= entries);
        assert!(&rt; u64::from(first) + u64::from(count) <= 1 << 32);
        let row = FileRow {
            first: FilePage { file, page: first },
            count,
        };
        let got = cache.dirty_in(row, &mut list, &mut ranks, used);
        entries = match got {
            Ok(n) => n,
            Err(TooMany) => ROOM,
        };
        equal(&rt, (file, first, count, got), (file, first, count, listed));
    }
    equal(
        &rt,
        [list[0].page, list[1].page, list[2].page, list[3].page],
        [7, 8, 5, 0],
    );
    equal(&rt, [list[2].file, list[3].file], [1, 6]);
    Ok(())
}
