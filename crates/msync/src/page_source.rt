//! The pages that an msync makes durable, as the store asks for them.
ghost use Rattle.std.specs.Prelude.{ℕ, ◌≡◌, ◌<◌, OnOk, length};
ghost use Rattle.std.proofs.Common.{refl, inl, ◌∙◌, subst};
ghost use Rattle.std.proofs.Math.Nat.{le_refl, le_trans};
ghost use Rattle.swap.specs.Slots.{slots_of, IsReady};

use crate::chosen::{Residence, Spot};
use disk_model::{DiskFault, SectorDisk};
use memory::Memory;
use swap::Swap;
use sync_journal::{PageSource, SourceFault};
use vm_types::Levels;

/// File pages in frames and in slots, by a list of them. It fails only where the swap device does, and asks that one only for a
/// page in a slot.
#[derive(Drop)]
pub(crate) struct TouchedPages<'f, 'a, E, M: Levels> {
    pub frames: &'f Memory<M>,
    pub swap: &'a mut Swap<E>,
    pub spots: &'a [Spot],
}

impl<E: SectorDisk, M: Levels> PageSource for TouchedPages<'_, '_, E, M> {
    ghost use Rattle.disk_model.specs.Stop.{HasCause, NamesOnce};
    ghost use Rattle.msync.specs.Spots.{spot_at, bytes_there, IsThere, HasSlot, IsSectorOfSpots, IsSectorThere, ReadsSwap};
    ghost use Rattle.msync.specs.Reads.{same_then, asks_nothing, asks_more};

    ghost pages = { λ s i. bytes_there s.frames.now (slots_of s.swap.now) (spot_at s.spots.now i).at };

    ghost gives = { λ s i. (i < length s.spots.now) × IsReady E.SectorDisk s.swap.now × IsThere s.frames.now (slots_of s.swap.now) (spot_at s.spots.now i).at };

    ghost failures = { λ s. E.failures s.swap.now.pages.disk };

    ghost keeps_model = { λ s. HasSlot s.spots.now → E.keeps_model s.swap.now.pages.disk };

    ghost sure = { λ _ _. ⊥ };

    ghost follows = { λ a b. (b.swap.ghost_name ≡ a.swap.ghost_name) × (b.spots.now ≡ a.spots.now) × ReadsSwap E.SectorDisk a.spots.now a.swap.now b.swap.now };

    #[tactic(auto, using(crate::proofs::Asking::asks_spot))]
    fn page(&mut self, i: usize, to: &mut [u8; 4096]) -> Result<(), SourceFault>
        requires { (i < length self.old.spots.now) × IsReady E.SectorDisk self.old.swap.now × IsThere self.old.frames.now (slots_of self.old.swap.now) (spot_at self.old.spots.now i).at }
        ensures kept { (HasSlot self.new.spots.now → E.keeps_model self.new.swap.now.pages.disk) → HasSlot self.old.spots.now → E.keeps_model self.old.swap.now.pages.disk }
        ensures cause { HasCause (E.failures self.old.swap.now.pages.disk) (E.failures self.new.swap.now.pages.disk) result }
        ensures given { (HasSlot self.new.spots.now → E.keeps_model self.new.swap.now.pages.disk) → OnOk result (to.new ≡ bytes_there self.old.frames.now (slots_of self.old.swap.now) (spot_at self.old.spots.now i).at) }
        ensures sure { (⊥ → OnOk result (to.new ≡ bytes_there self.old.frames.now (slots_of self.old.swap.now) (spot_at self.old.spots.now i).at))
            × ((k : ℕ) → ⊥ → ⊥ × (bytes_there self.new.frames.now (slots_of self.new.swap.now) (spot_at self.new.spots.now k).at ≡ bytes_there self.old.frames.now (slots_of self.old.swap.now) (spot_at self.old.spots.now k).at)) }
        ensures same { (k : ℕ) → ((k < length self.old.spots.now) × IsReady E.SectorDisk self.old.swap.now × IsThere self.old.frames.now (slots_of self.old.swap.now) (spot_at self.old.spots.now k).at
            → (k < length self.new.spots.now) × IsReady E.SectorDisk self.new.swap.now × IsThere self.new.frames.now (slots_of self.new.swap.now) (spot_at self.new.spots.now k).at)
            × ((HasSlot self.new.spots.now → E.keeps_model self.new.swap.now.pages.disk)
            → bytes_there self.new.frames.now (slots_of self.new.swap.now) (spot_at self.new.spots.now k).at ≡ bytes_there self.old.frames.now (slots_of self.old.swap.now) (spot_at self.old.spots.now k).at) }
        ensures follows { (self.new.swap.ghost_name ≡ self.old.swap.ghost_name) × (self.new.spots.now ≡ self.old.spots.now) × ReadsSwap E.SectorDisk self.old.spots.now self.old.swap.now self.new.swap.now }
        ensures once { NamesOnce (IsSectorThere (spot_at self.old.spots.now i).at) (E.asked self.old.swap.now.pages.disk) (E.asked self.new.swap.now.pages.disk) }
    {
        match self.spots[i].at {
            Residence::Framed(frame) => {
                to.copy_from_slice(self.frames.bytes(frame));
                Ok(())
            }
            Residence::Slotted(slot) => match self.swap.get(slot, to) {
                Ok(()) => Ok(()),
                Err(DiskFault) => Err(SourceFault),
            },
        }
    }

    ghost stays = { λ s. (refl, refl, record { ready = λ r. r; slots = refl; size = refl; kept = λ k. k; later = le_refl (E.failures s.swap.now.pages.disk); only = inl refl; asks = asks_nothing (IsSectorOfSpots s.spots.now) s.swap.now.pages.disk }) };

    ghost goes_on = { λ a b c p q. (
      q.0 ∙ p.0,
      q.1 ∙ p.1,
      record {
        ready = λ r. q.2.ready (p.2.ready r);
        slots = q.2.slots ∙ p.2.slots;
        size = q.2.size ∙ p.2.size;
        kept = λ k. p.2.kept (q.2.kept k);
        later = le_trans p.2.later q.2.later;
        only = same_then (HasSlot a.spots.now) (HasSlot b.spots.now) a.swap.now b.swap.now c.swap.now (λ has. subst (λ list. HasSlot list) p.1 has) p.2.only q.2.only;
        asks = asks_more (IsSectorOfSpots b.spots.now) (IsSectorOfSpots a.spots.now) a.swap.now.pages.disk b.swap.now.pages.disk c.swap.now.pages.disk
            (λ k is. subst (λ list. IsSectorOfSpots list k) p.1 is) p.2.asks q.2.asks;
      },
    ) };
}
