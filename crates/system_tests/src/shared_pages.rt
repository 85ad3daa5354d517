//! Pages of a file that all processes share: rows of traces and their replies.

/// Traces on an image of two pages, each from a new start, and their replies.
pub(crate) const ROWS: [(&[u8], &[u8]); 8] = [
    (b"", b""),
    // A byte that is stored is loaded by each width.
    (
        b"spawn\nmmap 1 0 1 rw- shared 0 0\nload 1 0x10ff8 8\nstore 1 0x10000 8 0x1122334455667788\n\
load 1 0x10000 1\nload 1 0x10002 2\nload 1 0x10004 4\n",
        b"pid 1\naddr 0x10000\nvalue 0x0000000000000000\nok\nvalue 0x88\nvalue 0x5566\nvalue 0x11223344\n",
    ),
    // Misaligned accesses, before it is asked whether the page is mapped.
    (
        b"spawn\nload 1 0x20004 8\nstore 1 0x20001 2 0\n",
        b"pid 1\nfault 4 BUS_ADRALN 0x20004\nfault 6 BUS_ADRALN 0x20001\n",
    ),
    // Pages that are not mapped, outside the user pages too.
    (
        b"spawn\nload 1 0x0 1\nload 1 0x4000000000 8\nload 1 0xffffffc000000000 8\n",
        b"pid 1\nfault 13 SEGV_MAPERR 0x0\nfault 13 SEGV_MAPERR 0x4000000000\n\
fault 13 SEGV_MAPERR 0xffffffc000000000\n",
    ),
    // A mapping past the end of the file.
    (
        b"spawn\nmmap 1 0 12288 rw- shared 0 0\nstore 1 0x11fff 1 0xaa\nload 1 0x12000 1\n\
msync 1 0x10000 12288 sync\nload 1 0x11fff 1\n",
        b"pid 1\naddr 0x10000\nok\nfault 13 BUS_ADRERR 0x12000\nok\nvalue 0xaa\n",
    ),
    // Who may write may read, who may only run may not.
    (
        b"spawn\nmmap 1 0 4096 -w- shared 0 0\nload 1 0x10000 1\nstore 1 0x10000 1 1\n",
        b"pid 1\naddr 0x10000\nvalue 0x00\nok\n",
    ),
    (
        b"spawn\nmmap 1 0 4096 --x shared 0 0\nload 1 0x10000 4\nstore 1 0x10000 1 1\n",
        b"pid 1\naddr 0x10000\nfault 13 SEGV_ACCERR 0x10000\nfault 15 SEGV_ACCERR 0x10000\n",
    ),
    // Refused mappings, in the order of the checks.
    (
        b"spawn\nmmap 9 0 0 rw- shared 0 0\nmmap 1 0 0 rw- shared 0 0\nmmap 1 0 4096 rw- shared 9 0\n\
mmap 1 0 4096 r-- shared 0 1\nmmap 1 0 4096 r-- shared 0 0x100000000000\nmmap 1 0 4096 r-- shared 0 0\n\
store 1 0x10000 1 1\nmsync 9 0 0 sync\nmsync 1 1 0 sync\nmsync 1 0x20000 4096 sync\n",
        b"pid 1\nerror 3 ESRCH\nerror 22 EINVAL\nerror 9 EBADF\nerror 22 EINVAL\nerror 75 EOVERFLOW\n\
addr 0x10000\nfault 15 SEGV_ACCERR 0x10000\nerror 3 ESRCH\nerror 22 EINVAL\nerror 12 ENOMEM\n",
    ),
];
