//! The journal of a store from which an upgrade makes one of a later layout, and which is only read.
ghost use Rattle.std.specs.Prelude.{◌≡◌, ◌<◌, ◌≤◌, ◌+◌, ◌*◌, ◌⊎◌, true};
ghost use Rattle.disk_model.specs.Sectors.{joined};
ghost use Rattle.sync_journal.specs.Layout.{home_at, page_limit, sizes_1};
ghost use Rattle.sync_journal.specs.Map.{home_rank};
ghost use Rattle.sync_journal.specs.OldMaps.{ReadsHomes};
ghost use Rattle.sync_journal.specs.OldLayouts.{old_gate, old_home_count, sizes_under, holds_under};
ghost use Rattle.sync_journal.specs.Standing.{place_or_home_in};
ghost use Rattle.sync_journal.specs.Steps.{SeesPage};

use crate::commits::place;
use crate::faults::RecoverFault;
use crate::gate::is_open_gate;
use crate::layout::{BODY, GATE, MAP, PAGE_LIMIT, PAGE_SECTORS};
use crate::map::read_homes;
use crate::pages::read_page;
use crate::version::Version;
use disk_model::{DiskFault, SectorDisk};

/// The most pages of one commit of layout 1.
const OLD_PAGE_LIMIT: usize = 127;

/// The journal of a store of layout 1, 2 or 3, as its gate and its map say. It holds no device: each call takes it.
#[derive(Debug, Drop)]
pub struct OldJournal {
    pub(crate) version: Version,
    /// Whether the gate is open.
    pub(crate) is_open: bool,
    /// The homes of the pages in the body, at the front.
    pub(crate) homes: [u32; PAGE_LIMIT],
    /// How many they are: none where no page stands in the journal.
    pub(crate) count: usize,
    ghost within: { count ≤ (sizes_under version is_open).most },
}

impl OldJournal {
    ghost use Rattle.sync_journal.specs.{OldLayouts.{old_standing}, OldJournal.{old_homes, old_sizes, StandsAsFound, FindsOld}};

    /// Looks at gate and map. Nothing is written.
    ///
    /// # Errors
    ///
    /// `BadJournal` comes exactly where pages stand in the journal and its map names more than it has room for, a home that the
    /// device hasn't or a home twice, unless the device fails first. `Device` comes exactly where the device failed.
    pub fn find<D: SectorDisk>(disk: &mut D, version: Version) -> Result<OldJournal, RecoverFault>
        requires { (sizes_under version true).homes ≤ D.sector_count disk.old }
        ensures { FindsOld D.SectorDisk version disk.old disk.new result }
    {
        let mut homes = [0; PAGE_LIMIT];
        let mut sector = [0; 512];
        disk.read(gate_of(version), &mut sector)?;
        let is_open = is_open_gate(&sector);
        if !holds_pages(version, is_open) {
            let count = 0;
            return Ok(OldJournal {
                version,
                is_open,
                homes,
                count,
            });
        }
        match read_map(disk, version, is_open, &mut homes)? {
            Some(count) => Ok(OldJournal {
                version,
                is_open,
                homes,
                count,
            }),
            None => Err(RecoverFault::BadJournal),
        }
    }

    /// Reads the page that stands for a home. A fault comes only where the device failed, and nothing is then said of `to`.
    pub fn read<D: SectorDisk>(
        &self,
        disk: &mut D,
        home: u32,
        to: &mut [u8; 4096],
    ) -> Result<(), DiskFault>
        requires home { home < old_home_count self.now.version (D.sector_count disk.old) }
        requires found { D.keeps_model disk.old → StandsAsFound self.now (D.content disk.old) }
        ensures { SeesPage D.SectorDisk (joined (old_standing self.now.version (D.content disk.old) home) 8)
            (place_or_home_in (old_sizes self.now) home (home_rank (old_homes self.now) home))
            (StandsAsFound self.now (D.content disk.new)) disk.old disk.new to.new result }
    {
        read_page(disk, self.stands_at(home), to)
    }

    // The first sector of the page that stands for a home.
    fn stands_at(&self, home: u32) -> u64
        ensures at { result ≡ place_or_home_in (old_sizes self.now) home (home_rank (old_homes self.now) home) }
        ensures inside { (result + 8 ≤ (old_sizes self.now).homes) ⊎ (result ≡ home_at (old_sizes self.now) home) }
    {
        match place(&self.homes[..self.count], home) {
            Some(j) => body_of(self.version, self.is_open) + PAGE_SECTORS * j as u64,
            None => self.version.first_home() + PAGE_SECTORS * u64::from(home),
        }
    }
}

// The sector of the gate.
fn gate_of(version: Version) -> u64
    ensures is { result ≡ old_gate version }
    ensures low { result ≤ 16 }
{
    match version {
        Version::One | Version::Two => GATE,
        Version::Three => 16,
    }
}

// Whether pages stand in the journal that counts under such a gate.
fn holds_pages(version: Version, is_open: bool) -> bool
    ensures { result ≡ holds_under version is_open }
{
    match version {
        Version::One | Version::Two => is_open,
        Version::Three => true,
    }
}

// The first sector of its map.
fn map_of(version: Version, is_open: bool) -> u64
    ensures is { result ≡ (sizes_under version is_open).map }
    ensures low { result ≤ 8216 }
{
    match (version, is_open) {
        (Version::One | Version::Two, _) => MAP,
        (Version::Three, false) => 24,
        (Version::Three, true) => 8216,
    }
}

// The first sector of its body.
fn body_of(version: Version, is_open: bool) -> u64
    ensures is { result ≡ (sizes_under version is_open).body }
    ensures after { result + 8 * (sizes_under version is_open).most ≤ (sizes_under version is_open).homes }
    ensures small { result ≤ 8224 }
{
    match (version, is_open) {
        (Version::One, _) => 4,
        (Version::Two, _) => BODY,
        (Version::Three, false) => 32,
        (Version::Three, true) => 8224,
    }
}

// Reads the homes that the map names of the journal that counts under such a gate to the front of `homes`, and says how many they are;
// `None` where the map is bad.
fn read_map<D: SectorDisk>(
    disk: &mut D,
    version: Version,
    is_open: bool,
    homes: &mut [u32; PAGE_LIMIT],
) -> Result<Option<usize>, DiskFault>
    requires { (sizes_under version is_open).homes ≤ D.sector_count disk.old }
    ensures { ReadsHomes D.SectorDisk (sizes_under version is_open) disk.old disk.new homes.new result }
{
    match version {
        Version::One => read_sector_map(disk, homes),
        Version::Two | Version::Three => read_page_map(disk, version, is_open, homes),
    }
}

// The same of layout 1, whose map is one sector.
fn read_sector_map<D: SectorDisk>(
    disk: &mut D,
    homes: &mut [u32; PAGE_LIMIT],
) -> Result<Option<usize>, DiskFault>
    requires { sizes_1.homes ≤ D.sector_count disk.old }
    ensures { ReadsHomes D.SectorDisk sizes_1 disk.old disk.new homes.new result }
{
    let mut map = [0; 512];
    disk.read(MAP, &mut map)?;
    let found = read_homes(
        &map,
        Version::One.home_count(disk.sectors()),
        &mut homes[..OLD_PAGE_LIMIT],
    );
    Ok(found)
}

// The same of a layout whose map is a page.
fn read_page_map<D: SectorDisk>(
    disk: &mut D,
    version: Version,
    is_open: bool,
    homes: &mut [u32; PAGE_LIMIT],
) -> Result<Option<usize>, DiskFault>
    requires room { (sizes_under version is_open).homes ≤ D.sector_count disk.old }
    requires paged { (sizes_under version is_open).map_sectors ≡ 8 }
    requires most { (sizes_under version is_open).most ≡ page_limit }
    ensures { ReadsHomes D.SectorDisk (sizes_under version is_open) disk.old disk.new homes.new result }
{
    let mut map = [0; 4096];
    read_page(disk, map_of(version, is_open), &mut map)?;
    let found = read_homes(&map, version.home_count(disk.sectors()), homes);
    Ok(found)
}
