//! How the programs take their words.
use crate::faults::WordsFault;
use clap::{Arg, ArgMatches, Command};
use std::alloc::{AllocError, Global};

/// How a program takes a word.
#[derive(Clone, Copy)]
pub(crate) enum Taken {
    /// In its place, and it has to be given.
    Needed,
    /// In its place, and it may be left out.
    Last,
    /// After `--` and its name, and it may be left out.
    Named,
    /// In its place with more of its kind, and one at least has to be given.
    Many,
}

/// A word by its name.
pub(crate) type Word = (&'static str, Taken);

/// The specs of files.
pub(crate) const SPECS: Word = ("SPEC", Taken::Many);

/// A command of that name that takes these words.
pub(crate) fn command_of<'a>(
    alloc: Global,
    name: &'static str,
    words: &[Word],
) -> Result<Command<'a>, AllocError> {
    let mut command = Command::new(alloc, name).no_binary_name(true);
    for (word, taken) in words {
        command = command.arg(argument(alloc, word, *taken))?;
    }
    Ok(command)
}

fn argument<'a>(alloc: Global, name: &'static str, taken: Taken) -> Arg<'a> {
    let word = Arg::new(alloc, name);
    match taken {
        Taken::Needed => word.required(true),
        Taken::Last => word,
        Taken::Named => word.long(name),
        Taken::Many => word.required(true).num_args(1..),
    }
}

/// The word of that name, which is given.
pub(crate) fn word_of<'a>(matches: &ArgMatches<'a>, name: &str) -> Result<&'a str, WordsFault> {
    match matches.get_str(name) {
        Some(word) => Ok(word),
        None => Err(WordsFault::Usage),
    }
}

/// The specs, of which there is one at least.
pub(crate) fn specs_of<'a>(
    matches: &ArgMatches<'a>,
    alloc: Global,
) -> Result<Vec<&'a str>, WordsFault> {
    let Some(specs) = matches.get_strs("SPEC") else {
        return Err(WordsFault::Usage);
    };
    let specs = Vec::from_slice(alloc, specs)?;
    Ok(specs)
}
