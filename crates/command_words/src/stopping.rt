//! The words of `pagestops`.
ghost use Rattle.std.specs.Prelude.{◌<◌, IfOk};
ghost use Rattle.stores.specs.NewStores.{IsSizedNew};

use crate::arguments::{SPECS, Taken, Word, command_of, specs_of};
use crate::faults::WordsFault;
use crate::numbers::{number_or, wanted_number};
use crate::pools::DEFAULT_BLOCKS;
use crate::running::{DEFAULT_FRAMES, DEFAULT_SLOTS};
use std::alloc::Global;
use stores::NewStore;

/// The words of `pagestops [--every K] [--drop K] [--layout 2|4] [--frames N] [--slots N] SPEC...`.
#[derive(Drop)]
pub struct StopWords<'a> {
    /// The events to stop in are this one, 1 or more, and its multiples.
    pub every: u32,
    /// The sync of this event is dropped.
    pub drop: Option<u32>,
    /// The store: of layout 4 with a pool of 4,032 pages.
    pub store: NewStore,
    /// How many page frames the machine is to have: any number, `DEFAULT_FRAMES` where none is given.
    pub frames: u32,
    /// How many slots of a page its swap device is to have: any number, `DEFAULT_SLOTS` where none is given.
    pub slots: u32,
    /// What the files are to be made of, one spec or more, which were not looked at.
    pub specs: Vec<&'a str>,
}

const STOP_WORDS: [Word; 6] = [
    ("every", Taken::Named),
    ("drop", Taken::Named),
    ("layout", Taken::Named),
    ("frames", Taken::Named),
    ("slots", Taken::Named),
    SPECS,
];

/// Reads the words of `pagestops`. The specs are not looked at yet.
///
/// # Errors
///
/// `Usage` where they are others, or K of `--every` is 0, and `OutOfMemory` where the host has no memory.
pub fn stop_words<'a>(alloc: Global, words: &'a [String]) -> Result<StopWords<'a>, WordsFault>
    ensures every { IfOk result (λ words. 0 < words.every) }
    ensures store { IfOk result (λ words. IsSizedNew words.store) }
{
    let matches = command_of(alloc, "pagestops", &STOP_WORDS)?.try_get_matches_from(words)?;
    let every = number_or(matches.get_str("every"), 1)?;
    if every == 0 {
        return Err(WordsFault::Usage);
    }
    Ok(StopWords {
        every,
        drop: chosen_number(matches.get_str("drop"))?,
        store: store_of(matches.get_str("layout"))?,
        frames: number_or(matches.get_str("frames"), DEFAULT_FRAMES)?,
        slots: number_or(matches.get_str("slots"), DEFAULT_SLOTS)?,
        specs: specs_of(&matches, alloc)?,
    })
}

/// A store of that layout, or of layout 2 where none is given.
fn store_of(layout: Option<&str>) -> Result<NewStore, WordsFault>
    ensures { IfOk result IsSizedNew }
{
    let Some(layout) = layout else {
        return Ok(NewStore::Journal);
    };
    if layout == "2" {
        Ok(NewStore::Journal)
    } else if layout == "4" {
        Ok(NewStore::Pool(DEFAULT_BLOCKS))
    } else {
        Err(WordsFault::Usage)
    }
}

/// The number that a word writes, or none where none is given.
fn chosen_number(word: Option<&str>) -> Result<Option<u32>, WordsFault> {
    let Some(word) = word else {
        return Ok(None);
    };
    let number = wanted_number(word)?;
    Ok(Some(number))
}
