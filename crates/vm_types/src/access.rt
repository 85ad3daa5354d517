//! What an access does, and a value that fits its width.
ghost use Rattle.std.specs.Prelude.{◌≡◌, ◌<◌, ◌≤◌, ◌^◌, ◌*◌, IfSome, IsSome, ◌↔◌};
ghost use Rattle.vm_types.specs.Width.{byte_count};

use crate::width::Width;

/// What an access does (RISC-V Privileged Specification, Sv32 "Virtual Address Translation Process").
#[derive(Clone, Copy, Debug, PartialEq, Eq)]
pub enum Access {
    Load,
    Store,
    Fetch,
}

/// A value to store, which is under two to the power of the width's bits.
#[derive(Clone, Copy, Debug, PartialEq, Eq)]
pub struct StoredValue {
    pub width: Width,
    pub value: u64,
    pub ghost fits: { value < 2 ^ (8 * byte_count width) },
}

impl StoredValue {
    /// The value at this width; `None` exactly where it doesn't fit.
    pub fn new(width: Width, value: u64) -> Option<StoredValue>
        ensures found { IfSome result (λ stored. (stored.width ≡ width) × (stored.value ≡ value)) }
        ensures fits { IsSome result ↔ (value < 2 ^ (8 * byte_count width)) }
    {
        let fits = match width {
            Width::One => value < 1 << 8,
            Width::Two => value < 1 << 16,
            Width::Four => value < 1 << 32,
            Width::Eight => true,
        };
        if fits {
            Some(StoredValue { width, value })
        } else {
            None
        }
    }
}
