//! Where the parts of the store lie, in sectors.
ghost use Rattle.std.specs.Prelude.{◌≡◌};
ghost use Rattle.sync_journal.specs.Layout.{home_count as homes_of};

/// The gate.
pub const GATE: u64 = 2;

/// The first sector of the journal map.
pub(crate) const MAP: u64 = 3;

/// The first sector of the journal body.
pub const BODY: u64 = 11;

/// The first sector of the first home page.
pub const FIRST_HOME: u64 = 8195;

/// The sectors of a page of 4,096 bytes.
pub const PAGE_SECTORS: u64 = 8;

/// The most pages of one commit.
pub const PAGE_LIMIT: usize = 1023;

/// The most home pages of a store, however large the device is.
pub const MAX_HOMES: u64 = 1 << 30;

/// The number of home pages of a device of so many sectors.
pub fn home_count(sectors: u64) -> u64
    ensures { result ≡ homes_of sectors }
{
    (sectors.saturating_sub(FIRST_HOME) / PAGE_SECTORS).min(MAX_HOMES)
}
