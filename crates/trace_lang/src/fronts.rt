//! Numbers that stand at the front of a text. Each word of a line but the last is read so, and the line is gone over once.
ghost use Rattle.std.specs.Prelude.{◌≡◌, ◌<◌, ◌≤◌, ◌^◌, ◌*◌, ℕ, List, IfNone, IfSome};
ghost use Rattle.trace_lang.specs.Words.{BeginsWith, BeginsWithDigits};
ghost use Rattle.vm_types.specs.Width.{byte_count};
ghost use Rattle.vm_types.specs.declared.width.Width.{Width};

use crate::numerals::{front_digits, parse_number};
use crate::radices::{DECIMAL, HEXADECIMAL, Radix};
use crate::words::cut;
use vm_types::Width;

/// The number that digits write before the first space, no more than there is always room for, and what stands after it.
#[inline(always)]
fn short_front(text: &[u8], radix: Radix) -> Option<(u64, &[u8])>
    ensures { IfSome result (λ r. BeginsWithDigits radix.base r.0 r.1.now text.now) }
{
    let (value, at) = front_digits(text, radix);
    if at > 0 && at < text.len() && text[at] == b' ' {
        Some((value, &text[at + 1..]))
    } else {
        None
    }
}

/// The number that the first word writes, however many its digits are, and what the other words stand in.
#[inline(never)]
fn any_front(text: &[u8]) -> Option<(u64, &[u8])>
    ensures found { IfSome result (λ r. BeginsWith r.0 r.1.now text.now) }
    ensures none { IfNone result ((n : ℕ) (rest : List ℕ) → BeginsWith n rest text.now → ⊥) }
{
    if let [b'0', b'x', digits @ ..] = text {
        if let Some(front) = short_front(digits, HEXADECIMAL) {
            return Some(front);
        }
    }
    let (word, rest) = cut(text)?;
    let value = parse_number(word)?;
    Some((value, rest))
}

/// The number that the first word writes, and what the other words stand in; `None` exactly where the text has one word, or the
/// first writes no number.
pub(crate) fn front_number(text: &[u8]) -> Option<(u64, &[u8])>
    ensures found { IfSome result (λ r. BeginsWith r.0 r.1.now text.now) }
    ensures none { IfNone result ((n : ℕ) (rest : List ℕ) → BeginsWith n rest text.now → ⊥) }
{
    match short_front(text, DECIMAL) {
        Some(front) => Some(front),
        None => any_front(text),
    }
}

/// The width that the first word writes as a number of bytes, and what the other words stand in; `None` exactly where the text has
/// one word, or the first writes no width.
pub(crate) fn front_width(text: &[u8]) -> Option<(Width, &[u8])>
    ensures found { IfSome result (λ r. BeginsWith (byte_count r.0) r.1.now text.now) }
    ensures none { IfNone result ((width : Width) (rest : List ℕ) → BeginsWith (byte_count width) rest text.now → ⊥) }
{
    let (bytes, rest) = front_number(text)?;
    let width = Width::from_bytes(bytes)?;
    Some((width, rest))
}
