//! The line that is being read.
ghost use Rattle.std.specs.Prelude.{◌≡◌, [], ◌++◌, take, length, ◌==◌};

use std::marker::Model;

/// The most bytes that are kept of a line: one more than the longest line that can be a command.
const KEPT_BYTES: usize = 257;

/// The first 257 bytes of a line. In contracts it is those bytes.
#[derive(Drop)]
pub struct LineBuffer {
    bytes: [u8; 257],
    len: usize,
}

impl Model for LineBuffer {
    ghost use Rattle.std.specs.Prelude.{ℕ, List, take, ◌≤◌};

    ghost Value = { List ℕ };

    ghost view = { λ b. take b.len b.bytes };

    ghost invariant = { λ b. b.len ≤ 257 };
}

impl LineBuffer {
    /// A line of no bytes.
    pub fn new() -> Self
        ensures { result ≡ [] }
    {
        LineBuffer {
            bytes: [0; 257],
            len: 0,
        }
    }

    /// The bytes that are kept.
    pub fn as_slice(&self) -> &[u8]
        ensures { result.now ≡ self.now }
    {
        &self.bytes[..self.len]
    }

    /// Whether the line has no bytes.
    pub fn is_empty(&self) -> bool
        ensures { result ≡ (length self.now == 0) }
    {
        self.len == 0
    }

    /// Goes on by bytes. Those after the line's first 257 are dropped.
    pub fn extend(&mut self, bytes: &[u8])
        ensures { self.new ≡ take 257 (self.old ++ bytes.now) }
    {
        let count = bytes.len().min(KEPT_BYTES - self.len);
        let end = self.len + count;
        self.bytes[self.len..end].copy_from_slice(&bytes[..count]);
        self.len = end;
    }

    /// Begins a new line.
    pub fn clear(&mut self)
        ensures { self.new ≡ [] }
    {
        self.len = 0;
    }
}
