//! Processes, made, copied and ended: rows of traces and their replies.

/// Traces on an image of a page of zeros, each from a new start, and their replies.
pub(crate) const ROWS: [(&[u8], &[u8]); 5] = [
    // After a fork each has its own memory, and the file is that of both.
    (
        b"spawn\nmmap 1 0 4096 rw- anon\nmmap 1 0 4096 rw- shared 0 0\nstore 1 0x10000 1 0x11\nfork 1\n\
store 1 0x10000 1 0x22\nstore 2 0x10000 1 0x33\nload 1 0x10000 1\nload 2 0x10000 1\nstore 2 0x11000 1 0x44\n\
load 1 0x11000 1\n",
        b"pid 1\naddr 0x10000\naddr 0x11000\nok\npid 2\nok\nok\nvalue 0x22\nvalue 0x33\nok\nvalue 0x44\n",
    ),
    // A copy outlives the process that it was copied from.
    (
        b"spawn\nmmap 1 0 4096 rw- private 0 0\nstore 1 0x10000 1 7\nfork 1\nexit 1\nload 2 0x10000 1\nfork 2\n\
store 1 0x10000 1 8\nload 2 0x10000 1\nexit 3\n",
        b"pid 1\naddr 0x10000\nok\npid 2\nok\nvalue 0x07\npid 1\nok\nvalue 0x07\nerror 3 ESRCH\n",
    ),
    // What was stored through a shared page stays touched when its process ends.
    (
        b"spawn\nmmap 1 0 4096 rw- shared 0 0\nstore 1 0x10000 1 9\nexit 1\nload 1 0x10000 1\nspawn\n\
mmap 1 0 4096 rw- shared 0 0\nload 1 0x10000 1\nmsync 1 0x10000 4096 sync\n",
        b"pid 1\naddr 0x10000\nok\nok\nerror 3 ESRCH\npid 1\naddr 0x10000\nvalue 0x09\nok\n",
    ),
    // Shared anonymous pages are those of both after a fork, outlive the process that mapped them, and are gone with their last name.
    (
        b"spawn\nmmap 1 0 8192 rw- common\nfork 1\nstore 1 0x10000 1 5\nload 2 0x10000 1\nexit 1\nload 2 0x10000 1\n\
store 2 0x11000 1 6\nmunmap 2 0x10000 4096\nload 2 0x11000 1\nmunmap 2 0x11000 4096\nmmap 2 0 8192 rw- common\nload 2 0x10000 1\n\
load 2 0x11000 1\n",
        b"pid 1\naddr 0x10000\npid 2\nok\nvalue 0x05\nok\nvalue 0x05\nok\nok\nvalue 0x06\nok\naddr 0x10000\nvalue 0x00\nvalue 0x00\n",
    ),
    // A copy of a copy, and who stores last has the page alone.
    (
        b"spawn\nmmap 1 0 8192 rw- anon\nstore 1 0x10000 1 1\nstore 1 0x11000 1 2\nfork 1\nfork 2\n\
store 2 0x10000 1 3\nstore 3 0x11000 1 4\nexit 2\nstore 1 0x10000 1 5\nload 1 0x11000 1\nload 3 0x10000 1\n\
load 3 0x11000 1\nmunmap 3 0x10000 4096\nload 1 0x10000 1\nload 3 0x10000 1\n",
        b"pid 1\naddr 0x10000\nok\nok\npid 2\npid 3\nok\nok\nok\nok\nvalue 0x02\nvalue 0x01\nvalue 0x04\nok\n\
value 0x05\nfault 13 SEGV_MAPERR 0x10000\n",
    ),
];
