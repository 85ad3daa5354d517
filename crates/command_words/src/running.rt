//! The words of `pagerun`.
use crate::arguments::{Taken, Word, command_of, word_of};
use crate::faults::WordsFault;
use crate::numbers::wanted_number;
use std::alloc::Global;
use vm_types::Mode;

/// The page frames of a machine where none are named.
pub const DEFAULT_FRAMES: u32 = 64;

/// The slots of its swap device where none are named.
pub const DEFAULT_SLOTS: u32 = 16;

/// The words of `pagerun IMAGE SWAP [FRAMES SLOTS [sv39|sv48]]`.
#[derive(Clone, Copy)]
pub struct RunWords<'a> {
    /// The path of the image.
    pub image: &'a str,
    /// The path of the swap device's file.
    pub swap: &'a str,
    /// How many page frames the machine is to have: any number, `DEFAULT_FRAMES` where none is given.
    pub frames: u32,
    /// How many slots of a page its swap device is to have: any number, `DEFAULT_SLOTS` where none is given.
    pub slots: u32,
    /// The mode of its address spaces, Sv39 where none is given.
    pub mode: Mode,
}

const RUN_WORDS: [Word; 5] = [
    ("IMAGE", Taken::Needed),
    ("SWAP", Taken::Needed),
    ("FRAMES", Taken::Last),
    ("SLOTS", Taken::Last),
    ("MODE", Taken::Last),
];

/// Reads the words of `pagerun`.
///
/// # Errors
///
/// `Usage` where they are others, and `OutOfMemory` where the host has no memory.
pub fn run_words<'a>(alloc: Global, words: &'a [String]) -> Result<RunWords<'a>, WordsFault> {
    let matches = command_of(alloc, "pagerun", &RUN_WORDS)?.try_get_matches_from(words)?;
    let image = word_of(&matches, "IMAGE")?;
    let swap = word_of(&matches, "SWAP")?;
    let (frames, slots) = sizes_of(matches.get_str("FRAMES"), matches.get_str("SLOTS"))?;
    let mode = mode_of(matches.get_str("MODE"))?;
    Ok(RunWords {
        image,
        swap,
        frames,
        slots,
        mode,
    })
}

/// Both numbers, or none of them.
fn sizes_of(frames: Option<&str>, slots: Option<&str>) -> Result<(u32, u32), WordsFault> {
    match (frames, slots) {
        (None, None) => Ok((DEFAULT_FRAMES, DEFAULT_SLOTS)),
        (Some(frames), Some(slots)) => Ok((wanted_number(frames)?, wanted_number(slots)?)),
        _ => Err(WordsFault::Usage),
    }
}

/// The mode of that name, or Sv39 where none is given.
fn mode_of(name: Option<&str>) -> Result<Mode, WordsFault> {
    let Some(name) = name else {
        return Ok(Mode::Sv39);
    };
    if name == "sv39" {
        Ok(Mode::Sv39)
    } else if name == "sv48" {
        Ok(Mode::Sv48)
    } else {
        Err(WordsFault::Usage)
    }
}
