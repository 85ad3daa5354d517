//! What a frame holds.
ghost use Rattle.std.specs.Prelude.{◌≡◌, true, false, IfSome, IfNone};
ghost use Rattle.frames.specs.FrameTable.{IsFrame, role_of};
ghost use Rattle.residency.specs.Picture.{picture_of, is_data};
ghost use Rattle.residency.specs.Parts.{IsFit};
ghost use Rattle.residency.specs.Contents.{HasContent, HasFrame, HoldsContent};

use crate::kernel::Core;
use frames::Role;
use vm_types::{FrameNo, Levels, PageKey};

/// What a frame of data holds.
#[derive(Clone, Copy, Debug, PartialEq, Eq)]
pub enum Content {
    /// The own copy of the page of that number, of each process that shares it.
    Own(u64),
    /// That page of a file or an object.
    Page(PageKey),
}

/// What a frame holds; `None` exactly where that is no page: the frame is free, a table, or the zero page.
pub(crate) fn content_in<D, E, M: Levels>(core: &Core<D, E, M>, frame: FrameNo) -> Option<Content>
    requires { HasFrame (picture_of core.now) frame.0 }
    ensures some { IfSome result (λ content. HoldsContent (picture_of core.now) frame.0 content) }
    ensures none { IfNone result (is_data (role_of core.now.frames frame.0) ≡ false) }
{
    match core.frames.role(frame) {
        Role::Private => Some(Content::Own(core.page_of[frame.0 as usize])),
        Role::Cache => match core.cache.page_in_frame(frame) {
            Some(page) => Some(Content::Page(page)),
            None => unreachable!(),
        },
        _ => None,
    }
}

/// What a frame of data holds, which is one of role `Private` or `Cache`.
pub fn content_of<D, E, M: Levels>(core: &Core<D, E, M>, frame: FrameNo) -> Content
    requires fit { IsFit (picture_of core.now) }
    requires inside { IsFrame core.now.frames frame.0 }
    requires data { is_data (role_of core.now.frames frame.0) ≡ true }
    ensures { HasContent (picture_of core.now) frame.0 result }
{
    match content_in(core, frame) {
        Some(content) => content,
        None => unreachable!(),
    }
}
