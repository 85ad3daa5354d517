//! Laws.
ghost use Rattle.std.specs.Prelude.{◌≡◌, ◌≤◌, ◌<◌, ℕ, List, Option, Ok, IfSome};
ghost use Rattle.directories.specs.declared.entry.Entry.{Entry};
ghost use Rattle.directories.specs.Kinds.{IsSized};
ghost use Rattle.directories.specs.Entries.{SaysEntry, entry_said};
ghost use Rattle.directories.specs.Layouts.{IsGoodLayout};
ghost use Rattle.directories.specs.Laws.{GivesHomes};

use crate::entries::{read_entry, write_entry};
use crate::entry::{Entry, EntryFault};
use crate::kind::{Kind, KindFault};

/// What a kind reads as that was written: itself.
pub fn kind_reads_back(kind: Kind) -> Result<Kind, KindFault>
    requires { IsSized kind }
    ensures { result ≡ Ok kind }
{
    Kind::parse(&kind.to_sector())
}

/// What an entry reads as that was written: itself.
pub fn entry_reads_back(
    page: &mut [u8; 4096],
    place: usize,
    entry: &Option<Entry>,
) -> Result<Option<Entry>, EntryFault>
    requires place { place < 16 }
    requires few { IfSome entry.now (λ e. e.extent_count ≤ 30) }
    ensures { result ≡ Ok entry.now }
{
    write_entry(page, place, entry);
    read_entry(page, place)
}

/// It does nothing: its contract is a law. In a good directory each page of a file has a home, on the device and behind
/// the directory, and no other page has it.
pub fn good_layouts_give_homes()
    ensures { (pages homes : ℕ) (entries : List (Option Entry)) → IsGoodLayout pages homes entries → GivesHomes pages homes entries }
{}

/// It does nothing: its contract is a law. Bytes that say an entry are read as that one: the function of bytes that
/// others speak of agrees with what `read_entry` finds and `write_entry` leaves.
pub fn entries_are_said()
    ensures { (bytes : List ℕ) (e : Option Entry) → SaysEntry bytes e → entry_said bytes ≡ e }
{}
