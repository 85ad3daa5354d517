//! Appends texts to a buffer.
ghost use Rattle.std.specs.Prelude.{◌≡◌, ◌+◌, ◌≤◌, ◌<◌, ◌/◌, ◌%◌, ◌++◌, ◌∷◌, [], take, set, length, decimal, codes, false};
ghost use Rattle.std.specs.Fmt.{digits, digit_glyph};
ghost use Rattle.trace_lang.specs.Texts.{hex_digits, hexadecimal};

/// Writes a text at `at`, and returns the place behind it.
pub(crate) fn push(out: &mut [u8; 1024], at: usize, text: &[u8]) -> usize
    requires { at + length text.now ≤ 1024 }
    ensures end { result ≡ at + length text.now }
    ensures text { take result out.new ≡ take at out.old ++ text.now }
{
    let end = at + text.len();
    out[at..end].copy_from_slice(text);
    end
}

/// Writes a number in decimal, with no leading zeros, which takes at most 20 bytes.
pub(crate) fn push_decimal(out: &mut [u8; 1024], at: usize, number: u64) -> usize
    requires { at + 20 ≤ 1024 }
    ensures end { result ≤ at + 20 }
    ensures text { take result out.new ≡ take at out.old ++ decimal number }
{
    let mut buffer = itoa::Buffer::new();
    push(out, at, buffer.format(number).as_bytes())
}

/// Writes a number below 256 in decimal, with no leading zeros, which takes at most 3 bytes.
pub(crate) fn push_small(out: &mut [u8; 1024], at: usize, number: u8) -> usize
    requires { at + 3 ≤ 1024 }
    ensures end { result ≤ at + 3 }
    ensures text { take result out.new ≡ take at out.old ++ decimal number }
{
    let mut buffer = itoa::Buffer::new();
    push(out, at, buffer.format(number).as_bytes())
}

/// The two hexadecimal digits of each byte, in lower case.
static PAIRS: [u8; 512] =
    *b"000102030405060708090a0b0c0d0e0f101112131415161718191a1b1c1d1e1f202122232425262728292a2b2c2d2e2f303132333435363738393a3b3c3d3e3f404142434445464748494a4b4c4d4e4f505152535455565758595a5b5c5d5e5f606162636465666768696a6b6c6d6e6f707172737475767778797a7b7c7d7e7f808182838485868788898a8b8c8d8e8f909192939495969798999a9b9c9d9e9fa0a1a2a3a4a5a6a7a8a9aaabacadaeafb0b1b2b3b4b5b6b7b8b9babbbcbdbebfc0c1c2c3c4c5c6c7c8c9cacbcccdcecfd0d1d2d3d4d5d6d7d8d9dadbdcdddedfe0e1e2e3e4e5e6e7e8e9eaebecedeeeff0f1f2f3f4f5f6f7f8f9fafbfcfdfeff";

/// Writes the two hexadecimal digits of a byte, in lower case.
#[inline(always)]
fn write_pair(out: &mut [u8; 1024], at: usize, byte: u8)
    requires { at + 2 ≤ 1024 }
    ensures { out.new ≡ set (set out.old (at + 1) (digit_glyph false (byte % 16))) at (digit_glyph false (byte / 16)) }
{
    let from = byte as usize * 2;
    let (high, low) = (PAIRS[from], PAIRS[from + 1]);
    out[at + 1] = low;
    out[at] = high;
}

/// Writes the last `count` hexadecimal digits of a number, in lower case.
pub(crate) fn push_hex_digits(out: &mut [u8; 1024], at: usize, number: u64, count: usize) -> usize
    requires { at + count ≤ 1024 }
    ensures end { result ≡ at + count }
    ensures text { take result out.new ≡ take at out.old ++ hex_digits count number }
{
    let mut rest = number;
    let mut place = at + count;
    while place >= at + 2 {
        place -= 2;
        write_pair(out, place, (rest % 256) as u8);
        rest /= 256;
    }
    if place > at {
        out[at] = PAIRS[(rest % 16) as usize * 2 + 1];
    }
    at + count
}

/// How many hexadecimal digits a number has without leading zeros, 1 to 16; zero has one.
fn hex_len(number: u64) -> usize
    ensures range { result ≤ 16 }
    ensures digits { hex_digits result number ≡ digits 16 false number }
{
    if number == 0 {
        1
    } else {
        number.ilog2() as usize / 4 + 1
    }
}

/// Writes `0x` and a number in hexadecimal, with no leading zeros, which takes at most 18 bytes.
pub(crate) fn push_hexadecimal(out: &mut [u8; 1024], at: usize, number: u64) -> usize
    requires { at + 18 ≤ 1024 }
    ensures end { result ≤ at + 18 }
    ensures text { take result out.new ≡ take at out.old ++ hexadecimal number }
{
    let at = push(out, at, b"0x");
    push_hex_digits(out, at, number, hex_len(number))
}
