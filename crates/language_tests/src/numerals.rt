//! Numbers as lines write them.
use trace_lang::parse_number;

/// Texts, and the number that each is, if it is one.
const TEXTS: [(&[u8], Option<u64>); 20] = [
    (b"0", Some(0)),
    (b"1", Some(1)),
    (b"0x10", Some(16)),
    (b"0xAbC", Some(0xabc)),
    (b"0000000000000000000000012", Some(12)),
    (b"0x00000000000000000000001f", Some(31)),
    (b"18446744073709551615", Some(u64::MAX)),
    (b"0xffffffffffffffff", Some(u64::MAX)),
    (b"", None),
    (b"x", None),
    (b"0x", None),
    (b"0X10", None),
    (b"+1", None),
    (b"-1", None),
    (b" 1", None),
    (b"1 ", None),
    (b"1a", None),
    (b"0xg", None),
    (b"18446744073709551616", None),
    (b"0x10000000000000000", None),
];

#[test]
fn numbers_are_read(rt: HostRuntime) {
    for (text, want) in TEXTS {
        assert_eq!(rt; parse_number(text), want, "at {text:?}");
    }
}
