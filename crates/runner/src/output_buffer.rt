//! Bytes on their way to a writer.
ghost use Rattle.std.specs.Prelude.{◌≡◌, [], ◌++◌, ◌+◌, ◌<◌, ◌≤◌, length, take, IfOk, MatchResult, IsTrue, ◌↔◌};
ghost use Rattle.std.specs.Io.KnownBytes.{Appends, Keeps};
ghost use Rattle.trace_lang.specs.Texts.{text_of};
ghost use Rattle.vm_types.specs.Replies.{reply_of};
ghost use Rattle.vm_types.specs.declared.reply.Reply.TheVariants.{Past};
ghost use Rattle.runner.specs.Bytes.{WritesBeginning};

use std::io::{ErrorKind, Write};
use std::marker::Model;
use thiserror::Error;
use trace_lang::{answer_text, history_text};
use vm_types::{Answer, History};

/// The writer failed, or took no bytes. `Display` says so as the programs tell it.
#[derive(Clone, Copy, Debug, PartialEq, Eq, Error)]
#[error("write failed")]
pub struct WriteFault;

/// From so many bytes on the buffer is written out: 32 KiB.
const FULL_BYTES: usize = 32768;

/// The most bytes of a reply's text.
const TEXT_BYTES: usize = 1024;

/// Bytes that a writer has not taken yet, at most 34 KiB. In contracts it is those bytes.
#[derive(Drop)]
pub(crate) struct OutputBuffer {
    bytes: [u8; 34816],
    len: usize,
}

impl Model for OutputBuffer {
    ghost use Rattle.std.specs.Prelude.{ℕ, List, take, ◌≤◌};

    ghost Value = { List ℕ };

    ghost view = { λ b. take b.len b.bytes };

    ghost invariant = { λ b. b.len ≤ 34816 };
}

impl OutputBuffer {
    /// A buffer of no bytes.
    pub(crate) fn new() -> Self
        ensures { result ≡ [] }
    {
        OutputBuffer {
            bytes: [0; 34816],
            len: 0,
        }
    }

    /// Whether it is time to write the bytes out.
    pub(crate) fn is_full(&self) -> bool
        ensures { IsTrue result ↔ (32768 ≤ length self.now) }
    {
        self.len >= FULL_BYTES
    }

    /// Adds bytes, for which there must be room.
    pub(crate) fn push(&mut self, text: &[u8])
        requires { length self.old + length text.now ≤ 34816 }
        ensures { self.new ≡ self.old ++ text.now }
    {
        let end = append(&mut self.bytes, self.len, text);
        self.len = end;
    }

    /// Adds the text of a reply, for which there must be room.
    pub(crate) fn push_answer(&mut self, answer: &Answer)
        requires { length self.old + 1024 ≤ 34816 }
        ensures text { self.new ≡ self.old ++ text_of (reply_of answer.now) }
        ensures room { length self.new ≤ length self.old + 1024 }
    {
        let end = append_answer(&mut self.bytes, self.len, answer);
        self.len = end;
    }

    /// Adds the text of a history, for which there must be room.
    pub(crate) fn push_history(&mut self, history: &History)
        requires { length self.old + 1024 ≤ 34816 }
        ensures text { self.new ≡ self.old ++ text_of (Past history.now) }
        ensures room { length self.new ≤ length self.old + 1024 }
    {
        let mut text = [0; 1024];
        let count = history_text(history, &mut text);
        let end = append(&mut self.bytes, self.len, &text[..count]);
        self.len = end;
    }

    /// Gives all bytes to the writer, which is called until it has taken them. A call that was interrupted is made
    /// again. A fault comes where the writer fails otherwise or takes no bytes; it took a beginning of the bytes then.
    pub(crate) fn write_out<W: Write>(&mut self, writer: &mut W) -> Result<(), WriteFault>
        ensures empty { self.new ≡ [] }
        ensures written { MatchResult result
            (λ _. Appends (W.contents writer.old) (W.contents writer.new) self.old)
            (λ _. WritesBeginning (W.contents writer.old) (W.contents writer.new) self.old) }
    {
        let len = self.len;
        self.len = 0;
        write_bytes(&self.bytes[..len], writer)
    }
}

// Writes the text after the first `len` bytes, and returns where it ends.
fn append(bytes: &mut [u8; 34816], len: usize, text: &[u8]) -> usize
    requires { len + length text.now ≤ 34816 }
    ensures bytes { take result bytes.new ≡ take len bytes.old ++ text.now }
    ensures end { result ≡ len + length text.now }
{
    let end = len + text.len();
    bytes[len..end].copy_from_slice(text);
    end
}

// Writes the text of a reply where it is to stand, after the first `len` bytes, and returns where it ends.
fn append_answer(bytes: &mut [u8; 34816], len: usize, answer: &Answer) -> usize
    requires { len + 1024 ≤ 34816 }
    ensures bytes { take result bytes.new ≡ take len bytes.old ++ text_of (reply_of answer.now) }
    ensures end { result ≤ len + 1024 }
{
    len + answer_at_front(&mut bytes[len..len + TEXT_BYTES], answer)
}

// Writes the text of a reply to the front, and returns how many bytes that is.
fn answer_at_front(room: &mut [u8], answer: &Answer) -> usize
    requires { length room.old ≡ 1024 }
    ensures text { take result room.new ≡ text_of (reply_of answer.now) }
    ensures within { result ≤ 1024 }
{
    let Some(text) = room.as_mut_array() else {
        unreachable!();
    };
    answer_text(answer, text)
}

/// Gives the bytes to the writer, in as many calls as it wants. A call that was interrupted is made again. `WriteFault`
/// comes where the writer fails otherwise, takes no bytes, or was called 2^64 - 1 times; it took a beginning of the bytes then.
pub fn write_bytes<W: Write>(bytes: &[u8], writer: &mut W) -> Result<(), WriteFault>
    ensures { MatchResult result
        (λ _. Appends (W.contents writer.old) (W.contents writer.new) bytes.now)
        (λ _. WritesBeginning (W.contents writer.old) (W.contents writer.new) bytes.now) }
{
    let mut at = 0;
    for i in 0..u64::MAX {
        if at >= bytes.len() {
            return Ok(());
        }
        match write_once(&bytes[at..], writer) {
            Ok(n) => at += n,
            Err(fault) => return Err(fault),
        }
    }
    Err(WriteFault)
}

// One call of the writer with bytes for it: how many it took, 0 only where it was interrupted.
fn write_once<W: Write>(bytes: &[u8], writer: &mut W) -> Result<usize, WriteFault>
    requires { 0 < length bytes.now }
    ensures taken { MatchResult result
        (λ n. Appends (W.contents writer.old) (W.contents writer.new) (take n bytes.now))
        (λ _. Keeps (W.contents writer.old) (W.contents writer.new)) }
    ensures bound { IfOk result (λ n. n ≤ length bytes.now) }
{
    match writer.write(bytes) {
        Ok(0) => Err(WriteFault),
        Ok(n) => Ok(n),
        Err(error) if error.kind() == ErrorKind::Interrupted => Ok(0),
        Err(_) => Err(WriteFault),
    }
}
