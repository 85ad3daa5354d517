//! The choice of a frame to be given up.
ghost use Rattle.std.specs.Prelude.{◌≡◌, ◌≢◌, ◌<◌, ◌+◌, ◌↔◌, ℕ, true, IfSome, IfNone};
ghost use Rattle.std.proofs.Common.{refl, ◌∙◌};
ghost use Rattle.frames.specs.FrameTable.{frame_count};
ghost use Rattle.residency.specs.Picture.{picture_of};
ghost use Rattle.residency.specs.Parts.{IsFit};
ghost use Rattle.residency.specs.Calls.{IsSpareable};
ghost use Rattle.residency.specs.Contents.{HasContent, HasFrame, goes_to_swap};
ghost use Rattle.residency.specs.Evictions.{IsAccessed, IsEvictable};
ghost use Rattle.residency.specs.Views.{FindsVictim};

use crate::contents::{Content, content_in};
use crate::kernel::Core;
use crate::leaves::{Change, change_leaves, has_leaf};
use crate::searches::LeafSearch;
use clock_replace::{FrameView, NoVictim};
use vm_types::{FrameNo, Levels};

impl<D, E, M: Levels> FrameView for Core<D, E, M> {
    ghost use Rattle.residency.specs.Views.{Follows};

    ghost total = { λ c. frame_count c.frames };

    ghost looks = { λ c. c.looks.number };

    ghost evictable_at = { λ c n. IsEvictable (picture_of c) c.keep n };

    ghost marked = { λ c n. IsAccessed (picture_of c) n };

    ghost is_open = { λ c. IsFit (picture_of c) };

    ghost follows = { λ a b. Follows a b a.keep b.keep };

    fn frames(&self) -> u32 {
        self.frames.len()
    }

    fn evictable(&mut self, n: u32) -> bool {
        self.looks.raise();
        is_evictable(self, FrameNo(n))
    }

    fn accessed(&self, n: u32) -> bool {
        let frame = FrameNo(n);
        match content_in(self, frame) {
            Some(content) => {
                let search = LeafSearch {
                    frame,
                    content,
                    change: Change::ClearAccessed,
                };
                has_leaf(self, &search)
            }
            None => false,
        }
    }

    fn clear(&mut self, n: u32) {
        change_leaves(self, FrameNo(n), Change::ClearAccessed);
    }

    ghost stays = { λ c. record { kept = refl; marks = λ s f. f; full = λ f. f; frees = λ s f. f; looked = record { store = refl; swap = refl; cache = refl; roots = refl; regions = refl; refused = refl } } };

    ghost goes_on = { λ a b c p q. record { kept = q.kept ∙ p.kept; marks = λ s f. q.marks s (p.marks s f); full = λ f. q.full (p.full f); frees = λ s f. q.frees s (p.frees s f); looked = record { store = q.looked.store ∙ p.looked.store; swap = q.looked.swap ∙ p.looked.swap; cache = q.looked.cache ∙ p.looked.cache; roots = q.looked.roots ∙ p.looked.roots; regions = q.looked.regions ∙ p.looked.regions; refused = q.looked.refused ∙ p.looked.refused } } };
}

/// Whether the frame may be given up: it holds a page, isn't to be kept, and a slot is free if it needs one.
fn is_evictable<D, E, M: Levels>(core: &Core<D, E, M>, frame: FrameNo) -> bool
    requires { HasFrame (picture_of core.now) frame.0 }
    ensures evictable { result ≡ true → IsEvictable (picture_of core.now) core.now.keep frame.0 }
    ensures other { IsEvictable (picture_of core.now) core.now.keep frame.0 → result ≡ true }
{
    match spareable_content(core, core.keep, frame) {
        Some(content) => !needs_slot(core, content) || !core.swap.is_full(),
        None => false,
    }
}

/// What the frame holds; `None` exactly where that is no page, or the frame is to be kept.
pub(crate) fn spareable_content<D, E, M: Levels>(
    core: &Core<D, E, M>,
    keep: Option<FrameNo>,
    frame: FrameNo,
) -> Option<Content>
    requires { HasFrame (picture_of core.now) frame.0 }
    ensures spareable { IfSome result (λ content. IsSpareable (picture_of core.now) keep frame.0) }
    ensures content { IfSome result (λ content. HasContent (picture_of core.now) frame.0 content) }
    ensures none { IfNone result (IsSpareable (picture_of core.now) keep frame.0 → ⊥) }
{
    if let Some(kept) = keep {
        if kept.0 == frame.0 {
            return None;
        }
    }
    content_in(core, frame)
}

/// Whether what a frame holds needs a slot where it is given up.
fn needs_slot<D, E, M: Levels>(core: &Core<D, E, M>, content: Content) -> bool
    ensures { result ≡ goes_to_swap (picture_of core.now).touched content }
{
    match content {
        Content::Own(_) => true,
        Content::Page(page) => core.cache.is_touched(page),
    }
}

/// A frame to be given up, chosen by the clock, which looks at each frame twice at most.
pub(crate) fn choose<D, E, M: Levels>(
    core: &mut Core<D, E, M>,
    keep: Option<FrameNo>,
) -> Result<FrameNo, NoVictim>
    requires fit { IsFit (picture_of core.old) }
    ensures { FindsVictim core.old core.new keep result }
{
    core.keep = keep;
    let mut clock = core.clock;
    let choice = clock.victim(core);
    core.clock = clock;
    choice
}
