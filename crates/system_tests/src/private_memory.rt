//! Anonymous and private memory, who may do what with a page, and lines that are no command: rows of traces and their replies.

/// Traces on an image of a page of zeros, each from a new start, and their replies.
pub(crate) const ROWS: [(&[u8], &[u8]); 12] = [
    // Anonymous memory begins with zeros.
    (
        b"spawn\nmmap 1 0 1 rw- anon\nload 1 0x10ff8 8\n",
        b"pid 1\naddr 0x10000\nvalue 0x0000000000000000\n",
    ),
    // A byte that is stored is loaded by each width.
    (
        b"spawn\nmmap 1 0 1 rw- anon\nload 1 0x10ff8 8\nstore 1 0x10000 8 0x1122334455667788\n\
load 1 0x10000 1\nload 1 0x10002 2\nload 1 0x10004 4\n",
        b"pid 1\naddr 0x10000\nvalue 0x0000000000000000\nok\nvalue 0x88\nvalue 0x5566\nvalue 0x11223344\n",
    ),
    // Misaligned accesses, before it is asked whether the page is mapped.
    (
        b"spawn\nload 1 0x20004 8\nstore 1 0x20001 2 0\nfetch 1 0x20002\n",
        b"pid 1\nfault 4 BUS_ADRALN 0x20004\nfault 6 BUS_ADRALN 0x20001\nfault 0 BUS_ADRALN 0x20002\n",
    ),
    // Pages that are not mapped, outside the user pages too.
    (
        b"spawn\nload 1 0x0 1\nload 1 0x4000000000 8\nload 1 0xffffffc000000000 8\n",
        b"pid 1\nfault 13 SEGV_MAPERR 0x0\nfault 13 SEGV_MAPERR 0x4000000000\n\
fault 13 SEGV_MAPERR 0xffffffc000000000\n",
    ),
    // Who may write may read, and who may only run may not.
    (
        b"spawn\nmmap 1 0 4096 -w- anon\nload 1 0x10000 1\nmmap 1 0 4096 --x anon\nfetch 1 0x11000\n\
load 1 0x11000 4\nfetch 1 0x10000\n",
        b"pid 1\naddr 0x10000\nvalue 0x00\naddr 0x11000\nvalue 0x00000000\nfault 13 SEGV_ACCERR 0x11000\n\
fault 12 SEGV_ACCERR 0x10000\n",
    ),
    // A private page shows the file until its process stores to it.
    (
        b"spawn\nspawn\nmmap 1 0 4096 rw- private 0 0\nmmap 2 0 4096 rw- shared 0 0\nload 1 0x10000 1\n\
store 2 0x10000 1 0x55\nload 1 0x10000 1\nstore 1 0x10001 1 0x66\nstore 2 0x10000 1 0x77\n\
load 1 0x10000 2\nload 2 0x10000 2\n",
        b"pid 1\npid 2\naddr 0x10000\naddr 0x10000\nvalue 0x00\nok\nvalue 0x55\nok\nok\nvalue 0x6655\n\
value 0x0077\n",
    ),
    // A part of a mapping is replaced and removed, and its place is taken again.
    (
        b"spawn\nmmap 1 0x20000 0x5000 rw- anon\nmmap 1 0x22000 0x1000 r-- anon fixed\n\
munmap 1 0x21000 0x3000\nload 1 0x24000 1\nload 1 0x23fff 1\n\
mmap 1 0x21000 0x3000 rw- anon noreplace\nmmap 1 0x24000 0x1000 r-- anon noreplace\n",
        b"pid 1\naddr 0x20000\naddr 0x22000\nok\nvalue 0x00\nfault 13 SEGV_MAPERR 0x23fff\naddr 0x21000\n\
error 17 EEXIST\n",
    ),
    // An mprotect that is refused changes nothing, before a hole neither.
    (
        b"spawn\nmmap 1 0x20000 0x1000 rw- anon\nmmap 1 0x22000 0x1000 rw- anon\n\
mprotect 1 0x20000 0x3000 r--\nstore 1 0x20000 1 1\nmprotect 1 0x20001 0x1000 r--\n\
mprotect 1 0x20000 0 r--\nstore 1 0x20000 1 2\n",
        b"pid 1\naddr 0x20000\naddr 0x22000\nerror 12 ENOMEM\nok\nerror 22 EINVAL\nok\nok\n",
    ),
    // All user pages at once.
    (
        b"spawn\nmmap 1 0 0x3fffff0001 r-- anon\nmmap 1 0 0x3fffff0000 r-- anon\nload 1 0x3fffffffff 1\n\
mmap 1 0 1 r-- anon\nmunmap 1 0x10000 0x3fffff0000\nload 1 0x3fffffffff 1\n",
        b"pid 1\nerror 12 ENOMEM\naddr 0x10000\nvalue 0x00\nerror 12 ENOMEM\nok\n\
fault 13 SEGV_MAPERR 0x3fffffffff\n",
    ),
    // Lines that are nearly a command, and numbers up to the largest of 64 bits.
    (
        b"spawn\nload 1 0x10000 1 \nload 1  0x10000 1\nload 1 0X10000 1\nload 1 0x 1\nload 1 0x10000 1\r\n\
load 1 18446744073709551616 1\nload 1 18446744073709551615 1\nfork 18446744073709551615\n\
mmap 1 0 18446744073709551615 rw- anon\nmmap 1 0 4096 r-- shared 0 18446744073709547520\n\
munmap 1 0xfffffffffffff000 0xffffffffffffffff\nmmap 1 0xfffffffffffff000 4096 rw- anon\n",
        b"pid 1\nbad line\nbad line\nbad line\nbad line\nbad line\nbad line\n\
fault 13 SEGV_MAPERR 0xffffffffffffffff\nerror 3 ESRCH\nerror 12 ENOMEM\nerror 75 EOVERFLOW\nok\naddr 0x10000\n",
    ),
    // What is taken from a page by mprotect and given back: its bytes stay, those of its own and those of the file.
    (
        b"spawn\nmmap 1 0 4096 rw- anon\nmmap 1 0 4096 rw- shared 0 0\nstore 1 0x10000 1 1\n\
store 1 0x11000 1 2\nmprotect 1 0x10000 0x2000 ---\nload 1 0x10000 1\nstore 1 0x11000 1 3\n\
mprotect 1 0x10000 0x2000 r--\nload 1 0x10000 1\nload 1 0x11000 1\nstore 1 0x10000 1 4\n\
mprotect 1 0x10000 0x2000 rwx\nstore 1 0x10001 1 5\nfetch 1 0x10000\nload 1 0x11000 1\n",
        b"pid 1\naddr 0x10000\naddr 0x11000\nok\nok\nok\nfault 13 SEGV_ACCERR 0x10000\n\
fault 15 SEGV_ACCERR 0x11000\nok\nvalue 0x01\nvalue 0x02\nfault 15 SEGV_ACCERR 0x10000\nok\nok\n\
value 0x00000501\nvalue 0x02\n",
    ),
    // Lines of 256 bytes and of 257, a number that is too large for its width, an empty line, and one without a newline.
    (
        b"spawn\nmmap 1 0 1 rw- anon\nload 1 0x10ff8 8\n\
load 1 0x00000000000000000000000000000000000000000000000000000000000000000000000000000000000000000000000000000\
00000000000000000000000000000000000000000000000000000000000000000000000000000000000000000000000000000000000000\
0000000000000000000000000000010000 1\n\
load 1 0x00000000000000000000000000000000000000000000000000000000000000000000000000000000000000000000000000000\
00000000000000000000000000000000000000000000000000000000000000000000000000000000000000000000000000000000000000\
00000000000000000000000000000010000 1\n\
store 1 0x10000 1 0x100\n\nexit 1",
        b"pid 1\naddr 0x10000\nvalue 0x0000000000000000\nvalue 0x00\nbad line\nbad line\nbad line\nok\n",
    ),
];

/// Traces on an image of one page of the letter A, which may only be read, and their replies.
pub(crate) const LETTERS: [(&[u8], &[u8]); 2] = [
    // Refused calls, in the order of their checks.
    (
        b"spawn\nmmap 1 0 0 rw- anon\nmmap 1 0 4096 rw- shared 0 0\nmmap 1 0 4096 rw- shared 9 0\n\
mmap 1 0 4096 r-- shared 0 1\nmmap 1 0x1000 4096 rw- anon fixed\nmmap 1 0x20001 4096 rw- anon fixed\n\
mmap 1 0 4096 r-- shared 0 0x100000000000\nmmap 1 0 4096 r-- shared 0 0\nload 1 0x10000 1\n\
mprotect 1 0x10000 4096 rw-\nmunmap 1 0x50000 4096\nfork 9\nexit 9\nfetch 9 0x10000\n\
mmap 1 0 4096 rw- private 0 0\nstore 1 0x11000 1 0x42\nload 1 0x11000 2\nload 1 0x10000 2\n",
        b"pid 1\nerror 22 EINVAL\nerror 13 EACCES\nerror 9 EBADF\nerror 22 EINVAL\nerror 12 ENOMEM\n\
error 22 EINVAL\nerror 75 EOVERFLOW\naddr 0x10000\nvalue 0x41\nerror 13 EACCES\nok\nerror 3 ESRCH\n\
error 3 ESRCH\nerror 3 ESRCH\naddr 0x11000\nok\nvalue 0x4142\nvalue 0x4141\n",
    ),
    // The file is not mapped for stores, nor given them later.
    (
        b"spawn\nmmap 1 0 0 rw- shared 0 0\nmmap 1 0 4096 rw- shared 0 0\nmmap 1 0 4096 rw- shared 9 0\n\
mmap 1 0 4096 r-- shared 0 1\nmmap 1 0x1000 4096 r-- shared 0 0 fixed\nmmap 1 0x20001 4096 r-- shared 0 0 fixed\n\
mmap 1 0 4096 r-- shared 0 0x100000000000\nmmap 1 0 4096 r-- shared 0 0\nload 1 0x10000 1\n\
mprotect 1 0x10000 4096 rw-\nmunmap 1 0x50000 4096\nmprotect 1 0x10000 4096 r-x\n",
        b"pid 1\nerror 22 EINVAL\nerror 13 EACCES\nerror 9 EBADF\nerror 22 EINVAL\nerror 12 ENOMEM\n\
error 22 EINVAL\nerror 75 EOVERFLOW\naddr 0x10000\nvalue 0x41\nerror 13 EACCES\nok\nok\n",
    ),
];
