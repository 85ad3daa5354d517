//! Images made anew in a later layout.
ghost use Rattle.stores.specs.NewStores.{IsSizedNew};

use crate::faults::ProgramFault;
use crate::files::disk_in;
use crate::formatting::{image_file, lengthened, set_back};
use crate::places::held_places;
use command_words::UpgradeWords;
use disk_model::{FileContents, FileDisk, SectorDisk};
use file_store::UpgradeFault;
use host_files::{Opening, open_alone};
use std::fs::{File, Files};
use stores::{NewStore, image_bytes};
use sync_journal::{Version, home_count};
use vm_types::PAGE_BYTES;

/// Makes a store in NEW that stands for what the image OLD stands for.
pub(crate) fn upgrade_image<
    'a,
    C: FileContents,
    K: FileContents,
    R: Files<File = File> + AllocGlobal,
>(rt: &R, words: UpgradeWords<'a>) -> Result<(), ProgramFault<'a>>
    requires { IsSizedNew words.store }
{
    let _places = held_places(rt)?;
    let mut old = disk_in::<C>(words.old, open_alone(rt, words.old, Opening::Read))?;
    let (file, former) = match image_file(rt, words.new) {
        Ok(opened) => opened,
        Err(_) => return Err(ProgramFault::CannotOpen(words.new)),
    };
    let length = upgraded_bytes(words.store, old.sectors());
    let mut new = match disk_in::<K>(words.new, lengthened(&file, length)) {
        Ok(new) => new,
        Err(fault) => {
            set_back(rt, words.new, &file, former);
            return Err(fault);
        }
    };
    match upgrade_settled(&mut old, &mut new, words.store) {
        Ok(()) => Ok(()),
        Err(fault) => {
            if !new.is_written() {
                set_back(rt, words.new, &file, former);
            }
            Err(ProgramFault::Upgrade(fault))
        }
    }
}

/// Makes the store on NEW. A file that could not be synced is the fault of its device, whatever its length is: OLD before it is looked at,
/// and NEW once OLD is found good.
fn upgrade_settled<C: FileContents, K: FileContents>(
    old: &mut FileDisk<C>,
    new: &mut FileDisk<K>,
    store: NewStore,
) -> Result<(), UpgradeFault>
    requires { IsSizedNew store }
{
    if !old.is_settled() {
        return Err(UpgradeFault::OldDevice);
    }
    match upgrade(old, new, store) {
        Err(UpgradeFault::NewSmall) if !new.is_settled() => Err(UpgradeFault::NewDevice),
        made => made,
    }
}

/// Makes the store on NEW, by the crate of its layout.
fn upgrade<D: SectorDisk, E: SectorDisk>(
    old: &mut D,
    new: &mut E,
    store: NewStore,
) -> Result<(), UpgradeFault>
    requires { IsSizedNew store }
{
    match store {
        NewStore::Journal => file_store::upgrade(old, new),
        NewStore::Pool(blocks) => upgrades::upgrade(old, new, blocks),
    }
}

/// How many bytes NEW is to have at least: those of an image of this store of no files, and a page for each home of OLD, which has so many
/// sectors. Of one of layout 3, from which a pool's store is made, the homes are counted that layout 2 would have there: more than there are.
fn upgraded_bytes(store: NewStore, sectors: u64) -> u64
    requires { IsSizedNew store }
{
    let homes = match store {
        NewStore::Journal => Version::One.home_count(sectors),
        NewStore::Pool(_) => home_count(sectors),
    };
    image_bytes::<File>(store, &[]).saturating_add(PAGE_BYTES as u64 * homes)
}
