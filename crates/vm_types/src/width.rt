//! The width of an access.
ghost use Rattle.std.specs.Prelude.{◌≡◌, IfSome, IsSome, ◌↔◌, ◌⊎◌};

/// How many bytes a load or a store moves: 1, 2, 4 or 8 (RISC-V Unprivileged Specification, "Load and Store Instructions").
#[derive(Clone, Copy, Debug, PartialEq, Eq)]
pub enum Width {
    One,
    Two,
    Four,
    Eight,
}

impl Width {
    ghost use Rattle.vm_types.specs.Width.{byte_count};

    /// The number of bytes: 1, 2, 4 or 8.
    pub fn bytes(self) -> u8
        ensures { result ≡ byte_count self }
    {
        match self {
            Width::One => 1,
            Width::Two => 2,
            Width::Four => 4,
            Width::Eight => 8,
        }
    }

    /// The width of so many bytes; `None` exactly where there is none of them.
    pub fn from_bytes(bytes: u64) -> Option<Width>
        ensures found { IfSome result (λ w. byte_count w ≡ bytes) }
        ensures known { IsSome result ↔ ((bytes ≡ 1) ⊎ (bytes ≡ 2) ⊎ (bytes ≡ 4) ⊎ (bytes ≡ 8)) }
    {
        match bytes {
            1 => Some(Width::One),
            2 => Some(Width::Two),
            4 => Some(Width::Four),
            8 => Some(Width::Eight),
            _ => None,
        }
    }
}
