//! Pages of eight sectors on a device, and what was written to them.
ghost use Rattle.std.specs.Prelude.{◌≡◌, ◌≤◌, ◌+◌, ◌*◌, []};
ghost use Rattle.swap.specs.Written.{IsAsWritten};

use disk_model::{DiskFault, Log, SectorDisk, parts};

const PAGE_SECTORS: u64 = 8;

/// A device of pages, the first in sectors 0 to 7. Contracts see what was last written to each.
#[derive(Drop)]
pub struct Pages<D> {
    pub(crate) disk: D,
    /// What was written, as contracts alone see.
    pub(crate) written: Log,
}

impl<D: SectorDisk> Pages<D> {
    ghost use Rattle.swap.specs.SlotAccess.{WritesPage, ReadsPage};

    /// The pages of a device, of which nothing is known.
    pub(crate) fn new(disk: D) -> Pages<D>
        ensures disk { result.disk ≡ disk }
        ensures unknown { result.written.notes ≡ [] }
    {
        Pages {
            disk,
            written: Log::new(),
        }
    }

    /// Writes page `n`, and syncs nothing. Where the device fails nothing is known of that page.
    pub(crate) fn put(&mut self, n: u32, page: &[u8; 4096]) -> Result<(), DiskFault>
        requires room { 8 * n + 8 ≤ D.sector_count self.old.disk }
        requires as_written { IsAsWritten D.SectorDisk self.old.disk self.old.written.notes }
        ensures { WritesPage D.SectorDisk self.old self.new n page.now result }
    {
        self.written.note(&[u64::from(n)], &[], &[]);
        self.disk.write_page(PAGE_SECTORS * u64::from(n), page)?;
        self.written.note(&[u64::from(n)], parts(page), &[]);
        Ok(())
    }

    /// Reads page `n`.
    pub(crate) fn get(&mut self, n: u32, to: &mut [u8; 4096]) -> Result<(), DiskFault>
        requires room { 8 * n + 8 ≤ D.sector_count self.old.disk }
        requires as_written { IsAsWritten D.SectorDisk self.old.disk self.old.written.notes }
        ensures { ReadsPage D.SectorDisk self.old self.new n to.new result }
    {
        self.disk.read_page(PAGE_SECTORS * u64::from(n), to)
    }
}
