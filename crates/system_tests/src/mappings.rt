//! Many mappings in one process: rows of calls on ranges, and their replies.

/// Traces on an image of eight pages of zeros, each from a new start, and their replies.
pub(crate) const ROWS: [(&[u8], &[u8]); 6] = [
    // A part of a mapping is replaced and given back its permission, and another is put over it.
    (
        b"spawn\nmmap 1 0x20000 0x5000 rw- shared 0 0\nmmap 1 0x22000 0x1000 r-- shared 0 0x2000 fixed\n\
store 1 0x22000 1 1\nmprotect 1 0x22000 0x1000 rw-\nmmap 1 0x23000 0x1000 rw- shared 0 0 fixed\n\
munmap 1 0x21000 0x2000\nstore 1 0x23000 1 5\nload 1 0x20000 1\nload 1 0x22fff 1\n\
mprotect 1 0x20000 0x4000 r--\n",
        b"pid 1\naddr 0x20000\naddr 0x22000\nfault 15 SEGV_ACCERR 0x22000\nok\naddr 0x23000\nok\nok\n\
value 0x05\nfault 13 SEGV_MAPERR 0x22fff\nerror 12 ENOMEM\n",
    ),
    // A hole in a mapping is filled, and nothing is put where a page is mapped.
    (
        b"spawn\nmmap 1 0x20000 0x5000 rw- shared 0 0\nmmap 1 0x22000 0x1000 r-- shared 0 0x2000 fixed\n\
munmap 1 0x21000 0x3000\nload 1 0x24000 1\nload 1 0x23fff 1\n\
mmap 1 0x21000 0x3000 rw- shared 0 0x1000 noreplace\nmmap 1 0x24000 0x1000 r-- shared 0 0 noreplace\n",
        b"pid 1\naddr 0x20000\naddr 0x22000\nok\nvalue 0x00\nfault 13 SEGV_MAPERR 0x23fff\naddr 0x21000\n\
error 17 EEXIST\n",
    ),
    // An mprotect that is refused changes nothing, before a hole neither.
    (
        b"spawn\nmmap 1 0x20000 0x1000 rw- shared 0 0\nmmap 1 0x22000 0x1000 rw- shared 0 0\n\
mprotect 1 0x20000 0x3000 r--\nstore 1 0x20000 1 1\nmprotect 1 0x20001 0x1000 r--\n\
mprotect 1 0x20000 0 r--\nstore 1 0x20000 1 2\n",
        b"pid 1\naddr 0x20000\naddr 0x22000\nerror 12 ENOMEM\nok\nerror 22 EINVAL\nok\nok\n",
    ),
    // All user pages at once; whatever is behind the end of the file is a bus error.
    (
        b"spawn\nmmap 1 0 0x3fffff0001 r-- shared 0 0\nmmap 1 0 0x3fffff0000 r-- shared 0 0\n\
load 1 0x3fffffffff 1\nload 1 0x10000 1\nmmap 1 0 1 r-- shared 0 0\n",
        b"pid 1\nerror 12 ENOMEM\naddr 0x10000\nfault 13 BUS_ADRERR 0x3fffffffff\nvalue 0x00\nerror 12 ENOMEM\n",
    ),
    // Numbers up to the largest of 64 bits.
    (
        b"spawn\nload 1 18446744073709551615 1\nload 1 18446744073709551616 1\n\
mmap 1 0 18446744073709551615 rw- shared 0 0\nmmap 1 0 4096 r-- shared 0 18446744073709547520\n\
munmap 1 0xfffffffffffff000 0xffffffffffffffff\nmmap 1 0xfffffffffffff000 4096 rw- shared 0 0\n\
mprotect 1 0xfffffffffffff000 0xffffffffffffffff r--\nmunmap 1 0x10000 0xffffffffffffffff\nload 1 0x10000 1\n",
        b"pid 1\nfault 13 SEGV_MAPERR 0xffffffffffffffff\nbad line\nerror 75 EOVERFLOW\nerror 75 EOVERFLOW\nok\n\
addr 0x10000\nerror 12 ENOMEM\nok\nfault 13 SEGV_MAPERR 0x10000\n",
    ),
    // Refused calls, in the order of the checks.
    (
        b"spawn\nmunmap 9 1 0\nmunmap 1 0x10000 0\nmunmap 1 0x10001 1\nmprotect 9 1 0 r--\nmprotect 1 1 0 r--\n\
mmap 1 0x10001 4096 r-- shared 9 1 fixed\nmmap 1 0x1000 4096 r-- shared 9 0 fixed\n\
mmap 1 0x1000 4096 r-- shared 0 0 fixed\nmmap 1 0x3ffffff000 8192 r-- shared 0 0 noreplace\n",
        b"pid 1\nerror 3 ESRCH\nerror 22 EINVAL\nerror 22 EINVAL\nerror 3 ESRCH\nerror 22 EINVAL\nerror 22 EINVAL\n\
error 9 EBADF\nerror 12 ENOMEM\nerror 12 ENOMEM\n",
    ),
];
