//! Own copies that are given up, and faults that are kept: rows of traces and their replies.

/// Traces on an image of a page of zeros, each from a new start, and their replies.
pub(crate) const ROWS: [(&[u8], &[u8]); 7] = [
    // A private page shows its file again once its own copy is given up.
    (
        b"spawn\nspawn\nmmap 1 0 4096 rw- private 0 0\nmmap 2 0 4096 rw- shared 0 0\nload 1 0x10000 1\n\
store 2 0x10000 1 0x55\nload 1 0x10000 1\nstore 1 0x10001 1 0x66\nstore 2 0x10000 1 0x77\n\
load 1 0x10000 2\ndontneed 1 0x10000 4096\nload 1 0x10000 2\n",
        b"pid 1\npid 2\naddr 0x10000\naddr 0x10000\nvalue 0x00\nok\nvalue 0x55\nok\nok\nvalue 0x6655\nok\n\
value 0x0077\n",
    ),
    // A shared page keeps what was stored to it.
    (
        b"spawn\nmmap 1 0 4096 rw- shared 0 0\nstore 1 0x10000 1 0x5a\ndontneed 1 0x10000 4096\n\
load 1 0x10000 1\nfork 1\ndontneed 2 0x10000 4096\nload 1 0x10000 1\n",
        b"pid 1\naddr 0x10000\nok\nok\nvalue 0x5a\npid 2\nok\nvalue 0x5a\n",
    ),
    // A child's copy outlives that of its parent, and the parent's page begins anew.
    (
        b"spawn\nmmap 1 0 8192 rw- anon\nstore 1 0x10000 1 1\nstore 1 0x11000 1 2\nfork 1\ndontneed 1 0x10000 4096\n\
load 1 0x10000 1\nload 1 0x11000 1\nload 2 0x10000 1\nstore 1 0x10000 1 3\nload 2 0x10000 1\n",
        b"pid 1\naddr 0x10000\nok\nok\npid 2\nok\nvalue 0x00\nvalue 0x02\nvalue 0x01\nok\nvalue 0x01\n",
    ),
    // The checks in their order; a hole refuses the whole range.
    (
        b"spawn\nmmap 1 0x20000 4096 rw- anon\nmmap 1 0x22000 4096 rw- anon\nstore 1 0x20000 1 7\n\
dontneed 9 0x20001 0\ndontneed 1 0x20001 0\ndontneed 1 0x50000 0\ndontneed 1 0x20000 0x3000\nload 1 0x20000 1\n\
dontneed 1 0x20000 1\nload 1 0x20000 1\n",
        b"pid 1\naddr 0x20000\naddr 0x22000\nok\nerror 3 ESRCH\nerror 22 EINVAL\nok\nerror 12 ENOMEM\nvalue 0x07\n\
ok\nvalue 0x00\n",
    ),
    // The faults, oldest first.
    (
        b"spawn\nload 1 0x0 1\nstore 1 0x20001 2 0\nfaults\n",
        b"pid 1\nfault 13 SEGV_MAPERR 0x0\nfault 6 BUS_ADRALN 0x20001\n\
faults 2\npast 1 13 SEGV_MAPERR 0x0\npast 1 6 BUS_ADRALN 0x20001\n",
    ),
    // Each fault is that of its process, also of one that has ended; refused calls and accesses of no process are none.
    (
        b"faults\nspawn\nspawn\nfetch 2 0x30000\nmunmap 1 0 0\nload 9 0x0 1\nload 1 0x8 4\nexit 2\nfaults\nfaults\n",
        b"faults 0\npid 1\npid 2\nfault 12 SEGV_MAPERR 0x30000\nerror 22 EINVAL\nerror 3 ESRCH\n\
fault 13 SEGV_MAPERR 0x8\nok\nfaults 2\npast 2 12 SEGV_MAPERR 0x30000\npast 1 13 SEGV_MAPERR 0x8\n\
faults 2\npast 2 12 SEGV_MAPERR 0x30000\npast 1 13 SEGV_MAPERR 0x8\n",
    ),
    // Of seventeen faults the first is forgotten.
    (
        b"spawn\nmmap 1 0 1 rw- anon\nload 1 0x10ff8 8\nload 1 0x0 1\nload 1 0x1 1\nload 1 0x2 1\n\
load 1 0x3 1\nload 1 0x4 1\nload 1 0x5 1\nload 1 0x6 1\nload 1 0x7 1\nload 1 0x8 1\nload 1 0x9 1\n\
load 1 0xa 1\nload 1 0xb 1\nload 1 0xc 1\nload 1 0xd 1\nload 1 0xe 1\nload 1 0xf 1\nload 1 0x10 1\n\
faults\n",
        b"pid 1\naddr 0x10000\nvalue 0x0000000000000000\nfault 13 SEGV_MAPERR 0x0\nfault 13 SEGV_MAPERR 0x1\n\
fault 13 SEGV_MAPERR 0x2\nfault 13 SEGV_MAPERR 0x3\nfault 13 SEGV_MAPERR 0x4\n\
fault 13 SEGV_MAPERR 0x5\nfault 13 SEGV_MAPERR 0x6\nfault 13 SEGV_MAPERR 0x7\n\
fault 13 SEGV_MAPERR 0x8\nfault 13 SEGV_MAPERR 0x9\nfault 13 SEGV_MAPERR 0xa\n\
fault 13 SEGV_MAPERR 0xb\nfault 13 SEGV_MAPERR 0xc\nfault 13 SEGV_MAPERR 0xd\n\
fault 13 SEGV_MAPERR 0xe\nfault 13 SEGV_MAPERR 0xf\nfault 13 SEGV_MAPERR 0x10\nfaults 16\n\
past 1 13 SEGV_MAPERR 0x1\npast 1 13 SEGV_MAPERR 0x2\npast 1 13 SEGV_MAPERR 0x3\n\
past 1 13 SEGV_MAPERR 0x4\npast 1 13 SEGV_MAPERR 0x5\npast 1 13 SEGV_MAPERR 0x6\n\
past 1 13 SEGV_MAPERR 0x7\npast 1 13 SEGV_MAPERR 0x8\npast 1 13 SEGV_MAPERR 0x9\n\
past 1 13 SEGV_MAPERR 0xa\npast 1 13 SEGV_MAPERR 0xb\npast 1 13 SEGV_MAPERR 0xc\n\
past 1 13 SEGV_MAPERR 0xd\npast 1 13 SEGV_MAPERR 0xe\npast 1 13 SEGV_MAPERR 0xf\n\
past 1 13 SEGV_MAPERR 0x10\n",
    ),
];
