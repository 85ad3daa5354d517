//! The layouts of stores whose pages go home with each commit.
ghost use Rattle.std.specs.Prelude.{◌≡◌, ◌≤◌, true};
ghost use Rattle.sync_journal.specs.OldLayouts.{old_home_count, sizes_under};

use crate::layout::{FIRST_HOME, MAX_HOMES, PAGE_SECTORS};

/// The layout of a store: 1, 2 or 3. Stores are made and opened in layout 2. Of all three an upgrade reads what stands.
#[derive(Clone, Copy, Debug, PartialEq, Eq)]
pub enum Version {
    /// One journal of 127 pages.
    One,
    /// One journal of 1,023 pages.
    Two,
    /// Two journals of 1,023 pages, of which the gate names the one that counts.
    Three,
}

impl Version {
    /// The first sector of the first home page.
    pub fn first_home(self) -> u64
        ensures is { result ≡ (sizes_under self true).homes }
        ensures behind { 1020 ≤ result }
        ensures small { result ≤ 16408 }
    {
        match self {
            Version::One => 1020,
            Version::Two => FIRST_HOME,
            Version::Three => 16_408,
        }
    }

    /// The number of home pages of a device of so many sectors.
    pub fn home_count(self, sectors: u64) -> u64
        ensures { result ≡ old_home_count self sectors }
    {
        (sectors.saturating_sub(self.first_home()) / PAGE_SECTORS).min(MAX_HOMES)
    }
}
