//! Numbers as words write them.
ghost use Rattle.std.specs.Prelude.{◌≡◌, ℕ, ◌<◌, ◌^◌, IfSome};
ghost use Rattle.trace_lang.specs.Grammar.{IsNumber};

use crate::faults::WordsFault;
use trace_lang::parse_number;

/// The number that a word writes as a trace does, in decimal, or after `0x` in hexadecimal with digits of either case;
/// `None` exactly where it writes none or one of 2^32 or more.
pub fn number(text: &str) -> Option<u32>
    ensures found { IfSome result (λ n. IsNumber text.now n) }
    ensures only { (n : ℕ) → IsNumber text.now n → n < 2 ^ 32 → result ≡ Some n }
{
    let Some(number) = parse_number(text.as_bytes()) else {
        return None;
    };
    u32::try_from(number).ok()
}

/// The number that a word writes.
pub(crate) fn wanted_number(word: &str) -> Result<u32, WordsFault> {
    match number(word) {
        Some(number) => Ok(number),
        None => Err(WordsFault::Usage),
    }
}

/// The number that a word writes, or the one that stands where none is given.
pub(crate) fn number_or(word: Option<&str>, otherwise: u32) -> Result<u32, WordsFault> {
    match word {
        Some(word) => wanted_number(word),
        None => Ok(otherwise),
    }
}
