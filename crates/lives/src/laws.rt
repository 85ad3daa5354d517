//! Laws of stores and of their lives. The functions do nothing: each one's contract is the law.
ghost use Rattle.std.specs.Prelude.{◌≡◌, ◌⊎◌, ◌↔◌, true, false, ℕ, List, [], ◌∷◌, ◌++◌, Option};
ghost use Rattle.disk_model.specs.Stop.{Image};
ghost use Rattle.stores.specs.Images.{IsBadLayout, IsBadJournal, StandsFor, StandsForContents, SaysMostOf, is_pool, most_pages};
ghost use Rattle.file_store.specs.Standing.{IsPageOf};
ghost use Rattle.file_store.specs.declared.sources.FileSource.{FileSource};
ghost use Rattle.stores.specs.NewStores.{IsNewOrNone, IsNewStore};
ghost use Rattle.stores.specs.declared.new_stores.NewStore.{NewStore};
ghost use Rattle.stores.specs.declared.new_stores.NewStore.TheVariants.{Pool};
ghost use Rattle.vm_types.specs.declared.command.Command.{Command};
ghost use Rattle.vm_types.specs.declared.reply.Reply.{Reply};
ghost use Rattle.vm_types.specs.Files.{Files, Contents};
ghost use Rattle.vm_types.specs.Prefix.{Event, is_msync, is_done, after_event};
ghost use Rattle.vm_types.specs.Run.{Run};
ghost use Rattle.vm_types.specs.State.{State};
ghost use Rattle.vm_types.specs.View.{Pages};
ghost use Rattle.machine.specs.Engine.{StandsForSome};
ghost use Rattle.machine.specs.Boot.{BootLeaves, Boots};
ghost use Rattle.machine.specs.Chain.{Chain};
ghost use Rattle.machine.specs.Hardware.{HardwareSteps};
ghost use Rattle.machine.specs.Machine.{store_of, swap_of, IsSoundMachine};
ghost use Rattle.machine.specs.declared.config.Config.{Config};
ghost use Rattle.machine.specs.declared.machine.Machine.{Machine};
ghost use Rattle.runner.specs.declared.engine.RunEnd.{RunEnd};
ghost use Rattle.runner.specs.Starting.{RunsOn};
ghost use Rattle.runner.specs.Trace.{RunsTrace, Streams};
ghost use Rattle.lives.specs.Flat.{causes_in};
ghost use Rattle.lives.specs.Formatted.{IsOfSources, StandsForSources, IsFormattedStore};
ghost use Rattle.lives.specs.Hardware.{LivesThrough};
ghost use Rattle.lives.specs.Lives.{HoldsLives, IsAtFirst, Life, Lives, IsLeftBy, LeftInLives, RanSince, stopped_in_first, stopped_in_second};
ghost use Rattle.lives.specs.Upgraded.{HasBadOldLayout, HasBadOldJournal, IsUpgradeBy, IsUpgradeOrNone, IsUpgradedStore, StoodFor, old_info, old_page};

use disk_model::SectorDisk;
use std::io::Read;

/// A new store of any layout stands for the bytes of its sources: its layout and its journal are good, its files are those of the sources,
/// and each page of them is the one that the source told. What a stop leaves while it is made is no store, so that every
/// opening and boot returns `BadLayout`, or all of it.
pub fn new_store<R: Read>(_reader: &R)
    ensures made { (store : NewStore) (sectors : ℕ) (sources : List (FileSource R)) (image : Image) → IsNewStore R.remaining store sectors sources image
        → StandsForSources R.remaining sectors sources image }
    ensures stopped { (store : NewStore) (sectors : ℕ) (sources : List (FileSource R)) (image : Image) → IsNewOrNone R.remaining store sectors sources image
        → IsBadLayout sectors image ⊎ StandsForSources R.remaining sectors sources image }
{}

/// A store that an upgrade made stands for what the one of an older layout stood for, which is something wherever that has a good
/// layout and a good journal. What a stop leaves while it is made is no store, or all of it.
pub fn upgraded_store()
    ensures stood { (store : NewStore) (sectors : ℕ) (old : Image) → (HasBadOldLayout store sectors old → ⊥) → (HasBadOldJournal store sectors old → ⊥)
        → StoodFor store sectors (old_info store old) (old_page store old) old }
    // A store of layout 2, as lives leave it, stands for the same to the upgrade that makes one of layout 4 of it.
    ensures lived { (blocks sectors : ℕ) (files : Files) (pages : Pages) (old : Image) → is_pool old ≡ false → StandsFor sectors files pages old
        → StoodFor (Pool blocks) sectors files pages old }
    ensures made { (store : NewStore) (old_sectors sectors : ℕ) (files : Files) (pages : Pages) (old image : Image) → StoodFor store old_sectors files pages old
        → IsUpgradeBy store old_sectors sectors old image → StandsFor sectors files pages image }
    ensures stopped { (store : NewStore) (old_sectors sectors : ℕ) (files : Files) (pages : Pages) (old image : Image) → StoodFor store old_sectors files pages old
        → IsUpgradeOrNone store old_sectors sectors old image → IsBadLayout sectors image ⊎ StandsFor sectors files pages image }
{}

/// What any number of lives leave of a store that stood for these files: the files that the first image stood for, with what
/// a first part of each life's msyncs made durable, each whole, and all that were acknowledged. Whatever it stood for, an msync may take as many pages of
/// the last image as of the first.
pub fn lives_in_a_row<D: SectorDisk, E: SectorDisk>(_store: &D, _swap: &E)
    ensures stands { (sectors : ℕ) (before : Contents) (lives : List Life) (first last : Image) → StandsForContents sectors before first
        → LeftInLives D.SectorDisk E.SectorDisk sectors lives first last → StandsForSome sectors (IsLeftBy before lives) last }
    ensures most { (sectors : ℕ) (lives : List Life) (first last : Image) → LeftInLives D.SectorDisk E.SectorDisk sectors lives first last
        → SaysMostOf sectors first last }
{}

/// Lives go on: what one more life leaves of a device that holds what lives left of a store is what all of them left of it.
pub fn one_more_life<D: SectorDisk, E: SectorDisk>(_store: &D, _swap: &E)
    ensures { (before : Contents) (lives : List Life) (life : Life) (store new : D) → (holds : HoldsLives D.SectorDisk E.SectorDisk before lives store)
        → D.sector_count new ≡ D.sector_count store → Lives D.SectorDisk E.SectorDisk (D.sector_count store) (D.content store) life (D.content new)
        → (goes_on : HoldsLives D.SectorDisk E.SectorDisk before (lives ++ life ∷ []) new) × (goes_on.first ≡ holds.first) }
{}

/// What lives leave of a new store begins with the bytes of the sources, and an msync may take as many pages of it as of the new store.
pub fn formatted_lives<R: Read, D: SectorDisk, E: SectorDisk>(_reader: &R, _store: &D, _swap: &E)
    ensures stands { (sectors : ℕ) (sources : List (FileSource R)) (lives : List Life) (image : Image)
        → IsFormattedStore R.remaining D.SectorDisk E.SectorDisk sectors sources lives image
        → (before : Contents) × IsOfSources R.remaining sources before × StandsForSome sectors (IsLeftBy before lives) image }
    ensures most { (sectors : ℕ) (sources : List (FileSource R)) (lives : List Life) (image : Image)
        → (formatted : IsFormattedStore R.remaining D.SectorDisk E.SectorDisk sectors sources lives image) → SaysMostOf sectors formatted.first image }
{}

/// What lives leave of a store that an upgrade made begins with what the store of an older layout stood for, and an msync may take as many pages of it as of
/// the one that was made.
pub fn upgraded_lives<D: SectorDisk, E: SectorDisk>(_store: &D, _swap: &E)
    ensures stands { (sectors : ℕ) (before : Contents) (lives : List Life) (image : Image)
        → IsUpgradedStore D.SectorDisk E.SectorDisk sectors before lives image → StandsForSome sectors (IsLeftBy before lives) image }
    ensures most { (sectors : ℕ) (before : Contents) (lives : List Life) (image : Image)
        → (upgraded : IsUpgradedStore D.SectorDisk E.SectorDisk sectors before lives image) → SaysMostOf sectors upgraded.first image }
{}

/// What lives left of a store has a good layout and a good journal, so that no boot and no opening of it returns `BadLayout` or
/// `BadJournal`, which come only of a bad one.
pub fn lives_boot<D: SectorDisk, E: SectorDisk>(_store: &D, _swap: &E)
    ensures layout { (before : Contents) (lives : List Life) (store : D) → HoldsLives D.SectorDisk E.SectorDisk before lives store
        → IsBadLayout (D.sector_count store) (D.content store) → ⊥ }
    ensures journal { (before : Contents) (lives : List Life) (store : D) → HoldsLives D.SectorDisk E.SectorDisk before lives store
        → IsBadJournal (D.sector_count store) (D.content store) → ⊥ }
{}

/// A machine that boots on what lives left of a store shows the files that they left: all mappings see these bytes at first. An msync of it takes as many
/// pages as that store says.
pub fn boot_after_lives<D: SectorDisk, E: SectorDisk>(_store: &D, _swap: &E)
    ensures { (before : Contents) (lives : List Life) (store : D) (m : Machine D E)
        → (holds : HoldsLives D.SectorDisk E.SectorDisk before lives store) → D.keeps_model (store_of m) → (boots : Boots D.SectorDisk E.SectorDisk store m)
        → (contents : Contents) × IsLeftBy before lives contents × IsAtFirst contents (most_pages (D.sector_count store) holds.first) boots.state }
{}

/// An image stands for one content: its files, and each page of them.
pub fn one_content()
    ensures files { (sectors : ℕ) (these those : Files) (p q : Pages) (image : Image) → StandsFor sectors these p image → StandsFor sectors those q image
        → (f : ℕ) → these f ≡ those f }
    ensures pages { (sectors : ℕ) (these those : Files) (p q : Pages) (image : Image) → StandsFor sectors these p image → StandsFor sectors those q image
        → (f k : ℕ) → IsPageOf those f k → p f k ≡ q f k }
{}

/// Two lives with an msync each. Where the first acknowledged its own and the second was stopped in its own, both count, or the first
/// alone; where the first was stopped in its own, not acknowledged, and the second acknowledged its own, both count, or the second alone.
pub fn two_lives()
    ensures second { (before contents : Contents) (a b : Event) → is_msync a.command ≡ true → is_done a.reply ≡ true → is_msync b.command ≡ true
        → (IsLeftBy before (stopped_in_second a b) contents ↔ ((contents ≡ after_event a before) ⊎ (contents ≡ after_event b (after_event a before)))) }
    ensures first { (before contents : Contents) (a b : Event) → is_msync a.command ≡ true → is_msync b.command ≡ true → is_done b.reply ≡ true
        → (IsLeftBy before (stopped_in_first a b) contents ↔ ((contents ≡ after_event b before) ⊎ (contents ≡ after_event b (after_event a before)))) }
{}

/// A trace that was run on a store by `runner::run_on` is a life of it, wherever a stop comes: that of the commands of the lines that
/// ran, with their replies.
pub fn trace_life<D: SectorDisk, E: SectorDisk>(_store: &D, _swap: &E)
    ensures { (config : Config) (store : D) (swap : E) (end : RunEnd) (new : Machine D E) (before after : Streams)
        → (on : RunsOn D.SectorDisk E.SectorDisk config store swap end new before after) → D.keeps_model (store_of new) → E.keeps_model (swap_of new)
        → (trace : RunsTrace D.SectorDisk E.SectorDisk end on.old new before after on.boots.state)
        × RanSince D.SectorDisk E.SectorDisk store new trace.commands trace.replies }
{}

/// What a machine replies to a list of commands is a run of the flat model.
pub fn flat_run<D: SectorDisk, E: SectorDisk>(_store: &D, _swap: &E)
    ensures { (old : Machine D E) (s : State) (commands : List Command) (replies : List Reply) (events : List Event) (new : Machine D E) (t : State)
        → (chain : Chain D.SectorDisk E.SectorDisk old s commands replies events new t)
        → Run (causes_in D.SectorDisk E.SectorDisk old s commands replies events new t chain) 0 s commands replies t }
{}

/// A machine that booted on a store and went on on hardware, which made accesses by itself where its tables granted them, lives a life of the store,
/// wherever a stop comes: that of all commands, those of the accesses among them.
pub fn hardware_life<D: SectorDisk, E: SectorDisk>(_store: &D, _swap: &E)
    ensures { (store : D) (old new : Machine D E) (commands : List Command) (replies : List Reply)
        → IsSoundMachine D.SectorDisk E.SectorDisk old → D.sector_count (store_of old) ≡ D.sector_count store
        → BootLeaves D.SectorDisk store (store_of old) → Boots D.SectorDisk E.SectorDisk store old
        → (steps : HardwareSteps D.SectorDisk E.SectorDisk old commands replies new) → D.keeps_model (store_of new) → E.keeps_model (swap_of new)
        → LivesThrough D.SectorDisk E.SectorDisk store old new commands replies steps }
{}
