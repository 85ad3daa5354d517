//! The words of `pagecat`.
use crate::arguments::{Taken, Word, command_of, word_of};
use crate::faults::WordsFault;
use crate::numbers::wanted_number;
use std::alloc::Global;

/// The words of `pagecat IMAGE N`.
#[derive(Clone, Copy)]
pub struct CatWords<'a> {
    /// The path of the image.
    pub image: &'a str,
    /// The number of the file.
    pub file: u32,
}

const CAT_WORDS: [Word; 2] = [("IMAGE", Taken::Needed), ("N", Taken::Needed)];

/// Reads the words of `pagecat`.
///
/// # Errors
///
/// `Usage` where they are others, and `OutOfMemory` where the host has no memory.
pub fn cat_words<'a>(alloc: Global, words: &'a [String]) -> Result<CatWords<'a>, WordsFault> {
    let matches = command_of(alloc, "pagecat", &CAT_WORDS)?.try_get_matches_from(words)?;
    let image = word_of(&matches, "IMAGE")?;
    let file = word_of(&matches, "N")?;
    Ok(CatWords {
        image,
        file: wanted_number(file)?,
    })
}
