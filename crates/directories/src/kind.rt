//! The kind: sector 1 of a store whose pages stay in a pool.
ghost use Rattle.std.specs.Prelude.{◌≡◌, ℕ, Err, IfOk, IfErr, OnErr, IsTrue, ◌↔◌};
ghost use Rattle.directories.specs.Kinds.{kind_sector, IsMapSize, IsDirectorySize, IsKind, IsNoKind, IsOlder};
ghost use Rattle.directories.specs.declared.kind.KindFault.TheVariants.{NotStamped};

use byteorder::{ByteOrder, LittleEndian};

/// The most blocks of a map.
pub const MAX_MAP_BLOCKS: u32 = 2048;

/// The most pages of a directory.
pub const MAX_DIRECTORY_PAGES: u32 = 256;

/// What a kind holds, but for its two numbers.
const STAMPS: &[u8; 512] = b"\
    FAMSYNC4FAMSYNC4FAMSYNC4FAMSYNC4FAMSYNC4FAMSYNC4FAMSYNC4FAMSYNC4\
    FAMSYNC4FAMSYNC4FAMSYNC4FAMSYNC4FAMSYNC4FAMSYNC4FAMSYNC4FAMSYNC4\
    FAMSYNC4FAMSYNC4FAMSYNC4FAMSYNC4FAMSYNC4FAMSYNC4FAMSYNC4FAMSYNC4\
    FAMSYNC4FAMSYNC4FAMSYNC4FAMSYNC4FAMSYNC4FAMSYNC4FAMSYNC4FAMSYNC4\
    FAMSYNC4FAMSYNC4FAMSYNC4FAMSYNC4FAMSYNC4FAMSYNC4FAMSYNC4FAMSYNC4\
    FAMSYNC4FAMSYNC4FAMSYNC4FAMSYNC4FAMSYNC4FAMSYNC4FAMSYNC4FAMSYNC4\
    FAMSYNC4FAMSYNC4FAMSYNC4FAMSYNC4FAMSYNC4FAMSYNC4FAMSYNC4FAMSYNC4\
    FAMSYNC4FAMSYNC4FAMSYNC4FAMSYNC4FAMSYNC4FAMSYNC4FAMSYNC4FAMSYNC4";

/// Why a sector is no kind.
#[derive(Clone, Copy, Debug, PartialEq, Eq)]
pub enum KindFault {
    /// The bytes beside the two numbers are others.
    NotStamped,
    /// The blocks of a map are none, or over 2,048.
    MapBlocks,
    /// The pages of the directory are none, or over 256.
    DirectoryPages,
}

/// How large the parts of a store are.
#[derive(Clone, Copy, Debug, PartialEq, Eq)]
pub struct Kind {
    /// The blocks of a map, 1 to 2,048.
    pub map_blocks: u32,
    /// The pages of the directory, 1 to 256.
    pub directory_pages: u32,
}

impl Kind {
    ghost use Rattle.directories.specs.Kinds.{SaysKind, IsSized};

    /// The kind that a sector is. A fault is told exactly where it is none.
    pub fn parse(sector: &[u8; 512]) -> Result<Kind, KindFault>
        ensures kind { IfOk result (SaysKind sector.now) }
        ensures fault { IfErr result (IsNoKind sector.now) }
        ensures none { OnErr result ((m d : ℕ) → IsKind m d sector.now → ⊥) }
        ensures older { IsOlder sector.now → result ≡ Err NotStamped }
    {
        let map_blocks = LittleEndian::read_u32(&sector[8..]);
        let directory_pages = LittleEndian::read_u32(&sector[12..]);
        if sector.as_slice() != bytes_of(map_blocks, directory_pages).as_slice() {
            return Err(KindFault::NotStamped);
        }
        if !is_map_size(map_blocks) {
            return Err(KindFault::MapBlocks);
        }
        if !is_directory_size(directory_pages) {
            return Err(KindFault::DirectoryPages);
        }
        Ok(Kind {
            map_blocks,
            directory_pages,
        })
    }

    /// The sector that is this kind.
    pub fn to_sector(self) -> [u8; 512]
        requires { IsSized self }
        ensures { SaysKind result self }
    {
        bytes_of(self.map_blocks, self.directory_pages)
    }
}

/// Whether a map may have so many blocks.
fn is_map_size(blocks: u32) -> bool
    ensures { IsTrue result ↔ IsMapSize blocks }
{
    1 <= blocks && blocks <= MAX_MAP_BLOCKS
}

/// Whether a directory may have so many pages.
fn is_directory_size(pages: u32) -> bool
    ensures { IsTrue result ↔ IsDirectorySize pages }
{
    1 <= pages && pages <= MAX_DIRECTORY_PAGES
}

/// A sector of these two numbers.
fn bytes_of(map_blocks: u32, directory_pages: u32) -> [u8; 512]
    ensures { result ≡ kind_sector map_blocks directory_pages }
{
    let mut sector = *STAMPS;
    LittleEndian::write_u32(&mut sector[8..], map_blocks);
    LittleEndian::write_u32(&mut sector[12..], directory_pages);
    sector
}
