//! The values under all calls.
ghost use Rattle.std.specs.Prelude.{◌≡◌, ◌≤◌, ◌<◌, IfOk, IfErr, length};
ghost use Rattle.file_store.specs.Standing.{AreBounded};
ghost use Rattle.sized_stores.specs.Store.{files_of};
ghost use Rattle.frames.specs.FrameTable.{IsSound, frame_count};
ghost use Rattle.page_cache.specs.CacheTable as CacheTable;
ghost use Rattle.swap.specs.Slots.{slots_of};
ghost use Rattle.residency.specs.Room.{HasNoRoots};
ghost use Rattle.residency.specs.Sound.{IsSound-prop, AreBounded-prop};

use clock_replace::Clock;
use disk_model::Count;
use memory::Memory;
use page_cache::PageCache;
use regions::Regions;
use sized_stores::SizedStore;
use std::alloc::{AllocError, Global};
use swap::Swap;
use vm_types::{FrameNo, Levels, PROCESSES};

/// The places for processes: a process has the place of its number, and place 0 stays free.
pub const PLACES: usize = PROCESSES + 1;

/// Files, memory and processes, over a store device `D` and a swap device `E`. How much of each there is, and that
/// the table of frames is sound, always holds. What else holds between two calls is said by `IsFit`; a function may break that
/// on its way.
#[derive(Drop)]
pub struct Core<D, E, M: Levels> {
    /// The files, with the lengths that they have now.
    pub store: SizedStore<D>,
    /// The slots that pages are swapped to.
    pub swap: Swap<E>,
    /// Physical memory, with its buffer of translations.
    pub frames: Memory<M>,
    /// Where each file page is.
    pub cache: PageCache,
    /// The root table of each live process.
    pub(crate) roots: Vec<Option<FrameNo>>,
    /// The regions of each live process. Those at the place of another process number mean nothing.
    pub(crate) regions: Vec<Regions<M>>,
    /// The page at which its processes have each private frame. What stands for another frame means nothing.
    pub(crate) page_of: Vec<u64>,
    /// The frame that is looked at first when one is to be given up.
    pub(crate) clock: Clock,
    /// The frame that the clock is to keep while it looks for one.
    pub(crate) keep: Option<FrameNo>,
    /// How often it has looked, for contracts alone.
    pub(crate) looks: Count,
    /// How often `obtain` has refused a frame, for contracts alone. Nobody else can raise it.
    pub(crate) refused: Count,
    pub ghost sound: { IsSound frames } by { IsSound-prop frames },
    pub ghost root_count: { length roots.items ≡ 65 },
    pub ghost region_count: { length regions.items ≡ 65 },
    pub ghost page_count: { length page_of.items ≡ frame_count frames },
    pub ghost node_count: { CacheTable.cache_frames cache ≡ frame_count frames },
    pub ghost slot_count: { CacheTable.slot_count cache ≡ (slots_of swap).total },
    pub ghost hand_inside: { clock.hand < frame_count frames },
    /// There are no more files and file pages than the store's format has numbers for.
    pub ghost bounded: { AreBounded (files_of store) } by { AreBounded-prop (files_of store) },
}

impl<D, E, M: Levels> Core<D, E, M> {
    ghost use Rattle.residency.specs.Calls.{StartsCore};
    ghost use Rattle.swap.specs.Slots as Slots;

    /// Files, `frames` frames of memory, 8 to 65,536, and room for 64 processes and for `slots` slots of swap, at most
    /// 65,536. There is no process, and every file page is at home. No later call takes memory of the host.
    ///
    /// # Errors
    /// `AllocError` where the host has not enough memory. The store is handed back.
    pub fn new(
        alloc: Global,
        store: SizedStore<D>,
        swap: Swap<E>,
        frames: u32,
        slots: u32,
    ) -> Result<Core<D, E, M>, (AllocError, SizedStore<D>)>
    where
        E: Drop,
        requires swap { Slots.AreNewSlots (slots_of swap) slots }
        requires files { AreBounded (files_of store) }
        requires least_frames { 8 ≤ frames }
        requires most_frames { frames ≤ 65536 }
        requires most_slots { slots ≤ 65536 }
        ensures { StartsCore store swap frames slots result }
    {
        match Room::<M>::new(alloc, frames, slots) {
            Ok(
                Room {
                    frames,
                    cache,
                    roots,
                    regions,
                    page_of,
                },
            ) => Ok(Core {
                store,
                swap,
                frames,
                cache,
                roots,
                regions,
                page_of,
                clock: Clock::new(),
                keep: None,
                looks: Count::new(),
                refused: Count::new(),
            }),
            Err(refused) => Err((refused, store)),
        }
    }
}

/// All memory that is taken of the host, with no process in it.
#[derive(Drop)]
struct Room<M: Levels> {
    frames: Memory<M>,
    cache: PageCache,
    roots: Vec<Option<FrameNo>>,
    regions: Vec<Regions<M>>,
    page_of: Vec<u64>,
}

impl<M: Levels> Room<M> {
    ghost use Rattle.residency.specs.Room.{IsEmptyRoom};

    /// Takes it.
    fn new(alloc: Global, frames: u32, slots: u32) -> Result<Room<M>, AllocError>
        requires least_frames { 8 ≤ frames }
        requires most_frames { frames ≤ 65536 }
        requires most_slots { slots ≤ 65536 }
        ensures { IfOk result (λ room. IsEmptyRoom room frames slots) }
    {
        let page_of = zeros(alloc, frames)?;
        let roots = no_roots(alloc)?;
        let regions = no_regions(alloc)?;
        let cache = PageCache::new(alloc, frames, slots)?;
        let frames = Memory::new(alloc, frames)?;
        // (brings in that the table of frames is sound)
        let _ = frames.len();
        Ok(Room {
            frames,
            cache,
            roots,
            regions,
            page_of,
        })
    }
}

/// So many zeros, one a frame.
fn zeros(alloc: Global, count: u32) -> Result<Vec<u64>, AllocError>
    ensures { IfOk result (λ v. length v.items ≡ count) }
{
    let mut words = Vec::with_capacity(alloc, count as usize)?;
    for n in 0..count {
        words.push_reserved(0);
    }
    Ok(words)
}

/// A place for the root of each process, and none there.
fn no_roots(alloc: Global) -> Result<Vec<Option<FrameNo>>, AllocError>
    ensures { IfOk result (λ v. HasNoRoots v.items) }
{
    let mut roots = Vec::with_capacity(alloc, PLACES)?;
    for n in 0..PLACES {
        roots.push_reserved(None);
    }
    Ok(roots)
}

/// Regions without a page, for each place.
fn no_regions<M: Levels>(alloc: Global) -> Result<Vec<Regions<M>>, AllocError>
    ensures { IfOk result (λ v. length v.items ≡ 65) }
{
    let mut regions = Vec::with_capacity(alloc, PLACES)?;
    for n in 0..PLACES {
        regions.push_reserved(Regions::new());
    }
    Ok(regions)
}
