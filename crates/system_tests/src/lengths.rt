//! Files that get other lengths, in traces over a store of either layout.
use crate::bench::{
    Armed, CONFIG, Exchange, GOES_ON, PLAIN, Setting, expect_all, left_in, left_over,
};
use stores::NewStore;

/// 64 frames, over a file of two pages of zeros, in the smallest pool, whose device has no more homes.
const IN_A_POOL: Setting = Setting {
    length: 0x2000,
    store: NewStore::Pool(1),
    ..PLAIN
};

/// Files of layout 2 keep their lengths. There is one of 4,096 bytes.
const KEPT: Exchange<'static> = (
    b"truncate 1 0\ntruncate 0 0\ntruncate 0 4096\ntruncate 0 4398046511105\n",
    b"error 9 EBADF\nerror 22 EINVAL\nerror 22 EINVAL\nerror 22 EINVAL\n",
);

/// A trace, and one on the next machine, which sees the length that was made durable.
const LENGTHS: [(Exchange<'static>, Exchange<'static>); 2] = [
    // Nothing is made durable.
    (
        (
            b"truncate 0 0\nspawn\nmmap 1 0 4096 rw- shared 0 0\nload 1 0x10000 1\n",
            b"ok\npid 1\naddr 0x10000\nfault 13 BUS_ADRERR 0x10000\n",
        ),
        (
            b"spawn\nmmap 1 0 0x3000 rw- shared 0 0\nload 1 0x11000 1\nload 1 0x12000 1\n",
            b"pid 1\naddr 0x10000\nvalue 0x00\nfault 13 BUS_ADRERR 0x12000\n",
        ),
    ),
    // Shared pages of the file come before two private ones. It ends behind byte 5 of its page 1, then where that page begins. There is no
    // home for its third page; an msync of its fourth, which is past its end, makes the length of one page durable, with what that holds.
    (
        (
            b"spawn\nmmap 1 0 0x4000 rw- shared 0 0\nmmap 1 0 0x2000 rw- private 0 0\nstore 1 0x10000 1 0x5a\n\
store 1 0x11004 4 0x44332211\nstore 1 0x15000 1 0x66\ntruncate 0 4102\nload 1 0x11004 4\nload 1 0x12000 1\n\
load 1 0x15000 1\ntruncate 0 4096\nstore 1 0x11004 1 1\nload 1 0x15000 1\ntruncate 0 0x2000\n\
load 1 0x11004 4\nload 1 0x15000 1\ntruncate 0 4398046511105\ntruncate 1 0\ntruncate 0 0x4000\n\
store 1 0x13000 1 0x77\nmsync 1 0x13000 4096 sync\nload 1 0x13000 1\ntruncate 0 4096\nmsync 1 0x13000 4096 sync\n",
            b"pid 1\naddr 0x10000\naddr 0x14000\nok\nok\nok\nok\nvalue 0x00002211\nfault 13 BUS_ADRERR 0x12000\n\
value 0x66\nok\nfault 15 BUS_ADRERR 0x11004\nfault 13 BUS_ADRERR 0x15000\nok\n\
value 0x00000000\nvalue 0x00\nerror 27 EFBIG\nerror 9 EBADF\nok\n\
ok\nerror 28 ENOSPC\nvalue 0x77\nok\nok\n",
        ),
        (
            b"truncate 0 4096\nspawn\nmmap 1 0 0x2000 rw- shared 0 0\nload 1 0x10000 1\nload 1 0x11000 1\n",
            b"ok\npid 1\naddr 0x10000\nvalue 0x5a\nfault 13 BUS_ADRERR 0x11000\n",
        ),
    ),
];

#[test]
fn files_get_other_lengths(rt: HostRuntime) {
    expect_all(&rt, PLAIN, &[KEPT]);
    for (exchange, shown) in LENGTHS {
        let disk = left_in(&rt, IN_A_POOL, exchange, GOES_ON);
        let run = (CONFIG, Armed::Nothing);
        let _ = left_over(&rt, &disk, run, shown, GOES_ON);
    }
}
