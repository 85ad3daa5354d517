//! A batch that is brought a page at a time.
ghost use Rattle.std.specs.Prelude.{◌≡◌, ◌≤◌, ◌<◌, ◌↔◌, true, IfOk, IsTrue, length, vec_capacity};

use std::alloc::{AllocError, Global};
use vm_types::FilePage;

/// Room for a batch, and the pages brought so far.
#[derive(Drop)]
pub(crate) struct Batch {
    pages: Vec<FilePage>,
    bytes: Vec<[u8; 4096]>,
    /// How many pages a batch may have.
    most: usize,
    /// More pages were brought than that.
    over: bool,
    ghost long: { length bytes.items ≡ length pages.items },
    ghost room: { most ≤ vec_capacity pages },
    ghost bytes_room: { most ≤ vec_capacity bytes },
    ghost filled: { over ≡ true → most ≤ length pages.items },
}

impl Batch {
    ghost use Rattle.batches.specs.Brought.{pages_in, bytes_in, IsBegunAnew, BringsPage};

    /// Room for so many pages. It is reserved and not touched: the host gives memory for what a batch brings, a page at a time.
    pub(crate) fn new(alloc: Global, most: usize) -> Result<Batch, AllocError>
        ensures { IfOk result (λ batch. IsBegunAnew most batch) }
    {
        Ok(Batch {
            pages: Vec::with_capacity(alloc, most)?,
            bytes: Vec::with_capacity(alloc, most)?,
            most,
            over: false,
        })
    }

    /// Adds a page. Past the most pages it is only noted that there are too many.
    pub(crate) fn add(&mut self, page: FilePage, bytes: &[u8; 4096])
        ensures { BringsPage self.old self.new page bytes.now }
    {
        if self.pages.len() >= self.most {
            self.over = true;
            return;
        }
        self.pages.push_reserved(page);
        self.bytes.push_reserved(*bytes);
    }

    /// Lets go of all pages.
    pub(crate) fn clear(&mut self)
        ensures { IsBegunAnew self.old.most self.new }
    {
        self.pages.clear();
        self.bytes.clear();
        self.over = false;
    }

    /// The pages and their bytes; no pages at all where there were too many.
    pub(crate) fn brought(&self) -> (&[FilePage], &[[u8; 4096]])
        ensures pages { result.0.now ≡ pages_in self.now }
        ensures bytes { result.1.now ≡ bytes_in self.now }
        ensures long { length result.1.now ≡ length result.0.now }
    {
        let count = if self.over { 0 } else { self.pages.len() };
        (&self.pages[..count], &self.bytes[..count])
    }

    /// Whether a page was brought.
    pub(crate) fn is_begun(&self) -> bool
        ensures { IsTrue result ↔ 0 < length self.now.pages.items }
    {
        !self.pages.is_empty()
    }
}
