//! The words of `pagefmt`.
ghost use Rattle.std.specs.Prelude.{IfOk};
ghost use Rattle.stores.specs.NewStores.{IsSizedNew};
ghost use Rattle.command_words.specs.Words.{NamesStore};

use crate::arguments::{SPECS, Taken, Word, command_of, specs_of, word_of};
use crate::faults::WordsFault;
use crate::pools::blocks_of;
use clap::{ArgMatches, Command};
use std::alloc::{AllocError, Global};
use stores::NewStore;

/// The words of `pagefmt`.
#[derive(Drop)]
pub enum FormatWords<'a> {
    /// `new IMAGE SPEC...` or `new4 [--pool PAGES] IMAGE SPEC...`
    New(NewWords<'a>),
    /// `upgrade OLD NEW` or `upgrade4 [--pool PAGES] OLD NEW`
    Upgrade(UpgradeWords<'a>),
}

/// The words of `pagefmt new IMAGE SPEC...`, whose store has a journal, or of `pagefmt new4 [--pool PAGES] IMAGE SPEC...`, whose store has a pool of so
/// many pages at least.
#[derive(Drop)]
pub struct NewWords<'a> {
    /// The store.
    pub store: NewStore,
    /// The path of the image.
    pub image: &'a str,
    /// What the files are to be made of, one spec or more, which were not looked at.
    pub specs: Vec<&'a str>,
}

/// The words of `pagefmt upgrade OLD NEW`, which makes a store with a journal, or of `pagefmt upgrade4 [--pool PAGES] OLD NEW`, which makes one with a pool
/// of so many pages at least.
#[derive(Clone, Copy)]
pub struct UpgradeWords<'a> {
    /// The new store, which says which layout OLD has to have.
    pub store: NewStore,
    /// The path of the image that is read.
    pub old: &'a str,
    /// The path of the image that is made.
    pub new: &'a str,
}

/// What keeps the pages of a store that is to be made. How large a pool is, other words say.
#[derive(Clone, Copy)]
enum Keeping {
    Journal,
    Pool,
}

/// What `pagefmt` is to make.
#[derive(Clone, Copy)]
enum Making {
    New(Keeping),
    Upgrade(Keeping),
}

/// What `pagefmt` is to make after that word, if it is one that it takes.
fn making_of(word: &str) -> Option<Making> {
    if word == "new" {
        Some(Making::New(Keeping::Journal))
    } else if word == "new4" {
        Some(Making::New(Keeping::Pool))
    } else if word == "upgrade" {
        Some(Making::Upgrade(Keeping::Journal))
    } else if word == "upgrade4" {
        Some(Making::Upgrade(Keeping::Pool))
    } else {
        None
    }
}

/// How many pages a pool is to have.
const POOL: Word = ("pool", Taken::Named);

const NEW_WORDS: [Word; 2] = [("IMAGE", Taken::Needed), SPECS];

const NEW_POOL_WORDS: [Word; 3] = [POOL, ("IMAGE", Taken::Needed), SPECS];

const UPGRADE_WORDS: [Word; 2] = [("OLD", Taken::Needed), ("NEW", Taken::Needed)];

const UPGRADE_POOL_WORDS: [Word; 3] = [POOL, ("OLD", Taken::Needed), ("NEW", Taken::Needed)];

const FORMS: [(&str, &[Word]); 4] = [
    ("new", &NEW_WORDS),
    ("new4", &NEW_POOL_WORDS),
    ("upgrade", &UPGRADE_WORDS),
    ("upgrade4", &UPGRADE_POOL_WORDS),
];

/// Reads the words of `pagefmt`. The specs are not looked at yet.
///
/// # Errors
///
/// `Usage` where they are others, or PAGES is 0 or over 2,064,384, and `OutOfMemory` where the host has no memory.
pub fn format_words<'a>(alloc: Global, words: &'a [String]) -> Result<FormatWords<'a>, WordsFault>
    ensures { IfOk result NamesStore }
{
    let matches = format_command(alloc)?.try_get_matches_from(words)?;
    let Some((word, found)) = matches.subcommand() else {
        return Err(WordsFault::Usage);
    };
    match making_of(word) {
        Some(Making::New(keeping)) => new_words(alloc, store_of(keeping, found)?, found),
        Some(Making::Upgrade(keeping)) => upgrade_words(store_of(keeping, found)?, found),
        None => Err(WordsFault::Usage),
    }
}

/// The words by their names.
fn format_command<'a>(alloc: Global) -> Result<Command<'a>, AllocError> {
    let mut command = command_of(alloc, "pagefmt", &[])?.subcommand_required(true);
    for (name, words) in &FORMS {
        command = command.subcommand(command_of(alloc, name, words)?)?;
    }
    Ok(command)
}

/// The store, which has a pool of the size that its words ask for, where it has one.
fn store_of(keeping: Keeping, matches: &ArgMatches<'_>) -> Result<NewStore, WordsFault>
    ensures { IfOk result IsSizedNew }
{
    match keeping {
        Keeping::Journal => Ok(NewStore::Journal),
        Keeping::Pool => {
            let blocks = blocks_of(matches.get_str("pool"))?;
            Ok(NewStore::Pool(blocks))
        }
    }
}

fn new_words<'a>(
    alloc: Global,
    store: NewStore,
    matches: &ArgMatches<'a>,
) -> Result<FormatWords<'a>, WordsFault>
    requires { IsSizedNew store }
    ensures { IfOk result NamesStore }
{
    let image = word_of(matches, "IMAGE")?;
    let specs = specs_of(matches, alloc)?;
    Ok(FormatWords::New(NewWords {
        store,
        image,
        specs,
    }))
}

fn upgrade_words<'a>(
    store: NewStore,
    matches: &ArgMatches<'a>,
) -> Result<FormatWords<'a>, WordsFault>
    requires { IsSizedNew store }
    ensures { IfOk result NamesStore }
{
    let old = word_of(matches, "OLD")?;
    let new = word_of(matches, "NEW")?;
    Ok(FormatWords::Upgrade(UpgradeWords { store, old, new }))
}
