//! Pools of stores of layout 4, as words ask for them.
ghost use Rattle.std.specs.Prelude.{IfOk};
ghost use Rattle.directories.specs.Kinds.{IsMapSize};

use crate::faults::WordsFault;
use crate::numbers::wanted_number;
use pool_journal::{BLOCK_SLOTS, MAX_BLOCKS};

/// The blocks of a map where no pool is asked for: 4,032 pages.
pub(crate) const DEFAULT_BLOCKS: u32 = 4;

/// The blocks of a map of a pool of so many pages at least, each with slots for 1,008, or `DEFAULT_BLOCKS` where no number is given.
///
/// # Errors
///
/// `Usage` where the word is no number of 1 to 2,064,384.
pub(crate) fn blocks_of(pages: Option<&str>) -> Result<u32, WordsFault>
    ensures { IfOk result IsMapSize }
{
    let Some(word) = pages else {
        return Ok(DEFAULT_BLOCKS);
    };
    let blocks = wanted_number(word)?.div_ceil(2 * BLOCK_SLOTS);
    if blocks == 0 || blocks > MAX_BLOCKS {
        return Err(WordsFault::Usage);
    }
    Ok(blocks)
}
