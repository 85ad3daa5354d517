//! Laws.
ghost use Rattle.std.specs.Prelude.{List, Option};
ghost use Rattle.directories.specs.declared.entry.Entry.{Entry};
ghost use Rattle.growth.specs.Changes.{TakesFreeHomes, PagesKeepHomes};

/// It does nothing: its contract is a law. Where new extents take free homes, each page has the home that it had before, or one
/// that no file had.
pub fn pages_keep_their_homes()
    ensures { (before after : List (Option Entry)) → TakesFreeHomes before after → PagesKeepHomes before after }
{}
