//! Numbers and widths as lines write them.
ghost use Rattle.std.specs.Prelude.{◌≡◌, ℕ, ◌+◌, ◌<◌, ◌≤◌, ◌^◌, ◌*◌, length, take, slice_index, SomeIff, IfSome, IfNone};
ghost use Rattle.std.specs.Char.{digit_value};
ghost use Rattle.std.specs.Str.Parse.{AllDigits, IsNumeral, digits_value};
ghost use Rattle.trace_lang.specs.Grammar.{IsNumber, IsWidth};
ghost use Rattle.vm_types.specs.Width.{byte_count};
ghost use Rattle.vm_types.specs.declared.access.StoredValue.{StoredValue};
ghost use Rattle.vm_types.specs.declared.width.Width.{Width};

use crate::radices::{DECIMAL, HEXADECIMAL, Radix};
use fast_float::parse_u64;
use vm_types::{StoredValue, Width};

/// The digit of a radix that a byte is; `None` exactly where it is none.
#[inline(always)]
fn digit_of(byte: u8, radix: Radix) -> Option<u64>
    ensures { SomeIff result (digit_value byte < radix.base) (digit_value byte) }
{
    let digit = char::from(byte).to_digit(radix.base as u32)?;
    Some(u64::from(digit))
}

/// The number that digits write in a radix; `None` exactly where there is no digit, a byte is no digit of the radix,
/// or the number is 2^64 or more.
// (inlined, so that each call has its radix as a constant)
#[inline(always)]
fn value_of(digits: &[u8], radix: Radix) -> Option<u64>
    ensures { SomeIff result (IsNumeral radix.base digits.now × (digits_value radix.base digits.now < 2 ^ 64)) (digits_value radix.base digits.now) }
{
    if digits.is_empty() {
        return None;
    }
    let mut value: u64 = 0;
    for byte in digits {
        let digit = digit_of(*byte, radix)?;
        value = with_digit(value, radix.base, digit)?;
    }
    Some(value)
}

/// The number with one more digit of a radix after it; `None` exactly where that is 2^64 or more. Below the greatest number
/// without its last digit there is room for any digit, and no test of each step.
#[inline(always)]
fn with_digit(value: u64, radix: u64, digit: u64) -> Option<u64>
    requires low { 2 ≤ radix }
    requires digit { digit < radix }
    ensures { SomeIff result (value * radix + digit < 2 ^ 64) (value * radix + digit) }
{
    if value < u64::MAX / radix {
        return Some(value * radix + digit);
    }
    let shifted = value.checked_mul(radix)?;
    shifted.checked_add(digit)
}

/// The number that the digits at the front of a text write, and how many these are: at most as many as there is always room for.
#[inline(always)]
pub(crate) fn front_digits(text: &[u8], radix: Radix) -> (u64, usize)
    ensures count { (result.1 ≤ length text.now) × (result.1 ≤ radix.most) }
    ensures digits { AllDigits radix.base (take result.1 text.now) × (result.0 ≡ digits_value radix.base (take result.1 text.now)) }
    // It ends at a byte that is no digit, or for want of more.
    ensures end { result.1 < length text.now → result.1 < radix.most → radix.base ≤ digit_value (slice_index text.now result.1) }
{
    let end = text.len().min(radix.most);
    let mut value: u64 = 0;
    for at in 0..end {
        let Some(digit) = digit_of(text[at], radix) else {
            return (value, at);
        };
        value = value * radix.base + digit;
    }
    (value, end)
}

/// The number that no more digits write than there is always room for.
#[inline(always)]
fn short_numeral(digits: &[u8], radix: Radix) -> Option<u64>
    requires short { length digits.now ≤ radix.most }
    ensures { SomeIff result (IsNumeral radix.base digits.now × (digits_value radix.base digits.now < 2 ^ 64)) (digits_value radix.base digits.now) }
{
    if digits.is_empty() {
        return None;
    }
    let (value, count) = front_digits(digits, radix);
    if count == digits.len() {
        Some(value)
    } else {
        None
    }
}

/// The number that more decimal digits write. (It stays out of the way of short ones, which it would hold up.)
#[inline(never)]
fn long_decimal(digits: &[u8]) -> Option<u64>
    requires { 0 < length digits.now }
    ensures { SomeIff result (IsNumeral 10 digits.now × (digits_value 10 digits.now < 2 ^ 64)) (digits_value 10 digits.now) }
{
    // `parse_u64` takes a plus in front, which is no part of a number here.
    if digits[0] == b'+' {
        return None;
    }
    parse_u64(digits).ok()
}

/// The number that decimal digits write; `None` exactly where there is no digit, a byte is no digit, or the number is 2^64 or
/// more.
fn decimal_of(digits: &[u8]) -> Option<u64>
    ensures { SomeIff result (IsNumeral 10 digits.now × (digits_value 10 digits.now < 2 ^ 64)) (digits_value 10 digits.now) }
{
    match digits.len() {
        0..=7 => short_numeral(digits, DECIMAL),
        8..=19 => long_decimal(digits),
        // with so many, `parse_u64` counts in 128 bits
        _ => value_of(digits, DECIMAL),
    }
}

/// The number that hexadecimal digits of either case write; `None` exactly where there is no digit, a byte is no digit, or the
/// number is 2^64 or more.
fn hexadecimal_of(digits: &[u8]) -> Option<u64>
    ensures { SomeIff result (IsNumeral 16 digits.now × (digits_value 16 digits.now < 2 ^ 64)) (digits_value 16 digits.now) }
{
    match digits.len() {
        0..=16 => short_numeral(digits, HEXADECIMAL),
        _ => value_of(digits, HEXADECIMAL),
    }
}

/// The number that a word writes: one decimal digit or more, or `0x` and one hexadecimal digit of either case or more;
/// leading zeros change nothing. `None` exactly where the word writes none, or one of 2^64 or more.
#[inline(never)]
pub fn parse_number(text: &[u8]) -> Option<u64>
    ensures found { IfSome result (λ n. IsNumber text.now n) }
    ensures none { IfNone result ((n : ℕ) → IsNumber text.now n → ⊥) }
    // So a word writes one number at most.
    ensures only { (n : ℕ) → IsNumber text.now n → result ≡ Some n }
{
    match text {
        [b'0', b'x', digits @ ..] => hexadecimal_of(digits),
        digits => decimal_of(digits),
    }
}

/// The width that one decimal digit writes as a number of bytes; `None` exactly where it writes none.
#[inline(always)]
fn digit_width(digit: u8) -> Option<Width>
    ensures found { IfSome result (λ width. digit ≡ 48 + byte_count width) }
    ensures only { (width : Width) → digit ≡ 48 + byte_count width → result ≡ Some width }
{
    match digit {
        b'1' => Some(Width::One),
        b'2' => Some(Width::Two),
        b'4' => Some(Width::Four),
        b'8' => Some(Width::Eight),
        _ => None,
    }
}

/// The width that a word writes as a number of bytes; `None` exactly where it writes none.
#[inline(always)]
pub(crate) fn width_of(text: &[u8]) -> Option<Width>
    ensures found { IfSome result (λ width. IsWidth text.now width) }
    ensures only { (width : Width) → IsWidth text.now width → result ≡ Some width }
{
    if let [digit] = text {
        return digit_width(*digit);
    }
    let bytes = parse_number(text)?;
    Width::from_bytes(bytes)
}

/// The value of a width that a word writes; `None` exactly where it writes none, or one that doesn't fit the width.
#[inline(always)]
pub(crate) fn stored_of(width: Width, text: &[u8]) -> Option<StoredValue>
    ensures found { IfSome result (λ stored. (stored.width ≡ width) × IsNumber text.now stored.value × (stored.value < 2 ^ (8 * byte_count width))) }
    ensures only { (stored : StoredValue) → stored.width ≡ width → IsNumber text.now stored.value → stored.value < 2 ^ (8 * byte_count width) → result ≡ Some stored }
{
    let value = parse_number(text)?;
    StoredValue::new(width, value)
}
