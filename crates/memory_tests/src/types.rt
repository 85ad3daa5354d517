//! Which numbers are processes, user pages, widths and bytes.
use crate::bench::equal;
use vm_types::{Pid, StoredValue, Sv39, Sv48, Vpn, Width};

#[test]
fn numbers_have_ranges(rt: HostRuntime) {
    for (number, known) in [
        (0, [false, false, false, false, true]),
        (1, [true, false, false, true, true]),
        (2, [true, false, false, true, true]),
        (3, [true, false, false, false, true]),
        (4, [true, false, false, true, true]),
        (8, [true, false, false, true, true]),
        (15, [true, false, false, false, true]),
        (16, [true, true, true, false, true]),
        (64, [true, true, true, false, true]),
        (65, [false, true, true, false, true]),
        (0xff, [false, true, true, false, true]),
        (0x100, [false, true, true, false, false]),
        (0x3ff_ffff, [false, true, true, false, false]),
        (0x400_0000, [false, false, true, false, false]),
        (0x7_ffff_ffff, [false, false, true, false, false]),
        (0x8_0000_0000, [false; 5]),
    ] {
        let found = [
            Pid::new(number).is_some(),
            Vpn::new::<Sv39>(number).is_some(),
            Vpn::new::<Sv48>(number).is_some(),
            Width::from_bytes(number).is_some(),
            StoredValue::new(Width::One, number).is_some(),
        ];
        // The number is there to be told where a test fails.
        equal(&rt, (number, found), (number, known));
    }
}
