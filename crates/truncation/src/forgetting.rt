//! The pages of a file past a length themselves.
ghost use Rattle.std.specs.Prelude.{◌≡◌, ◌+◌, ◌<◌, true, Some, IfSome};
ghost use Rattle.vm_types.specs.declared.file.FilePage.{FilePage};
ghost use Rattle.vm_types.specs.declared.object.PageKey.TheVariants.{File};
ghost use Rattle.page_cache.specs.CacheTable.{cache_frames, slot_count};
ghost use Rattle.residency.specs.Picture.{picture_of};
ghost use Rattle.residency.specs.Parts.{IsFit};
ghost use Rattle.ranges.specs.Rows.{node_of};
ghost use Rattle.truncation.specs.Cuts.{is_past};
ghost use Rattle.truncation.specs.Steps.{ForgetsPast, IsBarePast};

use ranges::page_in;
use residency::Core;
use vm_types::{FilePage, Levels, PAGE_BYTES, PageKey};

/// Forgets each page of file `file` that begins at or past `length` bytes, touched or not. No page of a process over such a page has an
/// entry. Each frame and each slot is looked at once.
pub(crate) fn forget_past<D, E, M: Levels>(core: &mut Core<D, E, M>, file: u16, length: u64)
    requires fit { IsFit (picture_of core.old) }
    requires bare { IsBarePast (picture_of core.old) file length }
    ensures { ForgetsPast core.old core.new file length }
{
    let nodes = core.cache.frames() + core.cache.slots();
    for node in 0..nodes {
        if let Some(page) = past_at(core, node, file, length) {
            core.forget(PageKey::File(page));
        }
    }
}

/// The page of that file at or past the length that a frame holds, or a slot, the slots being numbered behind the frames.
fn past_at<D, E, M: Levels>(
    core: &Core<D, E, M>,
    node: u32,
    file: u16,
    length: u64,
) -> Option<FilePage>
    requires { node < cache_frames core.now.cache + slot_count core.now.cache }
    ensures past { IfSome result (λ p. is_past file length p ≡ true) }
    ensures found { (p : FilePage) → node_of (cache_frames core.now.cache) ((picture_of core.now).place (File p)) ≡ Some node → is_past file length p ≡ true → result ≡ Some p }
{
    let page = page_at(core, node)?;
    if is_past(page, file, length) {
        Some(page)
    } else {
        None
    }
}

/// The page of a file that a frame holds, or a slot.
fn page_at<D, E, M: Levels>(core: &Core<D, E, M>, node: u32) -> Option<FilePage>
    requires { node < cache_frames core.now.cache + slot_count core.now.cache }
    ensures { (p : FilePage) → node_of (cache_frames core.now.cache) ((picture_of core.now).place (File p)) ≡ Some node → result ≡ Some p }
{
    match page_in(core, node) {
        Some(PageKey::File(page)) => Some(page),
        _ => None,
    }
}

/// Whether the page is one of that file, and begins at or past that length.
fn is_past(page: FilePage, file: u16, length: u64) -> bool
    ensures { result ≡ is_past file length page }
{
    page.file == file && length <= PAGE_BYTES as u64 * u64::from(page.page)
}
