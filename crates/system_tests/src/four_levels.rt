//! Address spaces of four levels: rows of traces in Sv48, and their replies.

/// Traces on an image of a page of zeros, each from a new start, and their replies.
pub(crate) const ROWS: [(&[u8], &[u8]); 6] = [
    // The last user page, and one past it.
    (
        b"spawn\nspawn\nmmap 1 0x7ffffffff000 4096 rw- anon fixed\nstore 1 0x7fffffffffff 1 9\n\
load 1 0x7fffffffffff 1\nmmap 1 0x800000000000 4096 rw- anon fixed\nload 1 0x800000000000 1\n\
mmap 2 0 0x7fffffff0000 r-- anon\n",
        b"pid 1\npid 2\naddr 0x7ffffffff000\nok\nvalue 0x09\nerror 12 ENOMEM\n\
fault 13 SEGV_MAPERR 0x800000000000\naddr 0x10000\n",
    ),
    // All user pages at once.
    (
        b"spawn\nmmap 1 0 0x7fffffff0001 r-- anon\nmmap 1 0 0x7fffffff0000 r-- anon\nload 1 0x7fffffffffff 1\n\
mmap 1 0 1 r-- anon\nmunmap 1 0x10000 0x7fffffff0000\nload 1 0x7fffffffffff 1\n",
        b"pid 1\nerror 12 ENOMEM\naddr 0x10000\nvalue 0x00\nerror 12 ENOMEM\nok\n\
fault 13 SEGV_MAPERR 0x7fffffffffff\n",
    ),
    // Pages that are not mapped, outside the user pages too.
    (
        b"spawn\nload 1 0x0 1\nload 1 0x4000000000 8\nload 1 0xffff7ffffffffff8 8\nload 1 0xffff800000000000 8\n",
        b"pid 1\nfault 13 SEGV_MAPERR 0x0\nfault 13 SEGV_MAPERR 0x4000000000\n\
fault 13 SEGV_MAPERR 0xffff7ffffffffff8\nfault 13 SEGV_MAPERR 0xffff800000000000\n",
    ),
    // Pages so far apart that they have only the root in common, and a copy of both.
    (
        b"spawn\nmmap 1 0 4096 rw- anon\nmmap 1 0x20000010000 4096 rw- anon\nstore 1 0x10000 1 5\n\
store 1 0x20000010000 1 7\nfork 1\nstore 2 0x20000010000 1 8\nload 1 0x20000010000 1\nload 2 0x20000010000 1\n\
exit 1\nload 2 0x10000 1\nmunmap 2 0x20000010000 4096\nload 2 0x20000010000 1\n",
        b"pid 1\naddr 0x10000\naddr 0x20000010000\nok\nok\npid 2\nok\nvalue 0x07\nvalue 0x08\nok\nvalue 0x05\nok\n\
fault 13 SEGV_MAPERR 0x20000010000\n",
    ),
    // No mapping passes the last page that a file can have; one of all of them is synced.
    (
        b"spawn\nmmap 1 0 0x100000001000 rw- shared 0 0\nmmap 1 0 0x100000000000 rw- shared 0 0\nstore 1 0x10000 1 3\n\
load 1 0x11000 1\nmsync 1 0x10000 0x100000000000 sync\nload 1 0x10000 1\n",
        b"pid 1\nerror 75 EOVERFLOW\naddr 0x10000\nok\nfault 13 BUS_ADRERR 0x11000\nok\nvalue 0x03\n",
    ),
    // Shared anonymous memory may have more pages than a file.
    (
        b"spawn\nmmap 1 0 0x100000001000 rw- common\nstore 1 0x100000010fff 1 6\nfork 1\nload 2 0x100000010fff 1\n\
load 2 0x10fff 1\nmmap 2 0 0x1000 rw- common\n",
        b"pid 1\naddr 0x10000\nok\npid 2\nvalue 0x06\nvalue 0x00\naddr 0x100000011000\n",
    ),
];

/// What Sv48 has and Sv39 has not, in Sv39.
pub(crate) const IN_THREE_LEVELS: (&[u8], &[u8]) = (
    b"spawn\nmmap 1 0x7ffffffff000 4096 rw- anon fixed\nload 1 0x7fffffffffff 1\nmmap 1 0 0x7fffffff0000 r-- anon\n",
    b"pid 1\nerror 12 ENOMEM\nfault 13 SEGV_MAPERR 0x7fffffffffff\nerror 12 ENOMEM\n",
);
