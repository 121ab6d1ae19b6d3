//! What a slot that was read makes of the taking of a lock.
ghost use Rattle.std.specs.Prelude.{◌≡◌, ◌≢◌, ◌<◌, ◌≤◌, ◌↔◌, ℕ, List, Some, IsTrue};
ghost use Rattle.ds_base.specs.Exchanges.{Exchange};
ghost use Rattle.ds_marks.specs.declared.slot.SlotState.TheVariants as states;
ghost use Rattle.ds_watch.specs.Notes.{IsStale, Note};
ghost use Rattle.ds_watch.specs.Remembering.{Remembers};
ghost use Rattle.ds_lock.specs.Locking.{IsBreakerRead, IsEarlier, IsLoose, IsLost, IsOwned, IsOwnedBy, IsShown, IsSlotNewest, slot_image};
ghost use Rattle.ds_lock.specs.Stages.{FitsHeader, FitsWent, Goes, left_after, IsWanted, with_note};

use crate::ends::LockEnd;
use crate::how::How;
use crate::steps::{MOST_GENERATION, Stage, Wanted, Went};
use ds_base::{Gen, Sector, SlotNo, Tick};
use ds_marks::{Header, Owner, Slot, SlotState};
use ds_watch::Watch;

impl Wanted {
    /// Takes a header that nobody has.
    pub fn loose(&self, header: &Header) -> Went
        requires { FitsHeader self.now header.now }
        ensures goes { (notes : List Note) (now : ℕ) (pass : List Exchange) → IsShown self.now pass header.now → IsLoose self.now pass header.now
            → Goes self.now notes now pass result }
        ensures fits { FitsWent self.now result }
        ensures nearer { left_after result < 2 }
    {
        if header.generation >= MOST_GENERATION {
            return Went::Ended(LockEnd::WornOut);
        }
        Went::On(Stage::Taking { header: *header })
    }

    /// Breaks a generation that is lost.
    fn lost(&self, header: &Header, slot: SlotNo, image: &Slot) -> Went
        requires { FitsHeader self.now header.now }
        ensures goes { (notes : List Note) (now : ℕ) (pass : List Exchange) → IsOwnedBy self.now pass header.now slot image.now
            → IsLost self.now notes now pass header.now slot image.now → Goes self.now notes now pass result }
        ensures fits { FitsWent self.now result }
        ensures nearer { left_after result ≡ 0 }
    {
        if header.generation >= MOST_GENERATION || image.generation >= MOST_GENERATION {
            return Went::Ended(LockEnd::WornOut);
        }
        Went::Breaks {
            header: *header,
            slot,
            image: *image,
        }
    }

    /// The slot of the header's owner was shown; whether it is stale is told.
    pub fn owner_shown(&self, header: &Header, owner: &Owner, image: &Slot, stale: bool) -> Went
        requires wanted { IsWanted self.now }
        requires header { FitsHeader self.now header.now }
        requires within { owner.now.slot < self.now.geom.slots }
        ensures goes { (notes : List Note) (now : ℕ) (pass : List Exchange) → IsOwned self.now pass header.now owner.now → IsEarlier self.now owner.now
            → IsSlotNewest self.now now pass owner.now.slot image.now
            → (owner.now.slot ≢ self.now.own.slot → IsTrue stale ↔ IsStale notes owner.now.slot (slot_image owner.now.slot image.now) now)
            → Goes self.now notes now pass result }
        ensures fits { FitsWent self.now result }
        ensures nearer { left_after result < 3 }
    {
        if image.generation > owner.generation {
            return self.loose(header);
        }
        if owner.slot == self.own.slot {
            return self.damaged();
        }
        if image.generation < owner.generation {
            return self.damaged();
        }
        self.owning(header, owner.slot, image, stale)
    }

    /// The slot is in the generation that has the lock, and isn't the host's own.
    fn owning(&self, header: &Header, slot: SlotNo, image: &Slot, stale: bool) -> Went
        requires wanted { IsWanted self.now }
        requires header { FitsHeader self.now header.now }
        requires within { slot < self.now.geom.slots }
        ensures goes { (notes : List Note) (now : ℕ) (pass : List Exchange) → IsOwnedBy self.now pass header.now slot image.now
            → IsSlotNewest self.now now pass slot image.now → (IsTrue stale ↔ IsStale notes slot (slot_image slot image.now) now)
            → Goes self.now notes now pass result }
        ensures fits { FitsWent self.now result }
        ensures nearer { left_after result < 3 }
    {
        match image.state {
            SlotState::Free => self.damaged(),
            SlotState::Live => self.live(header, slot, image, stale),
            SlotState::Breaking { by, by_generation } => self.breaking(
                header,
                slot,
                image,
                by,
                by_generation,
            ),
        }
    }

    /// It is live.
    fn live(&self, header: &Header, slot: SlotNo, image: &Slot, stale: bool) -> Went
        requires header { FitsHeader self.now header.now }
        requires live { image.now.state ≡ states.Live }
        ensures goes { (notes : List Note) (now : ℕ) (pass : List Exchange) → IsOwnedBy self.now pass header.now slot image.now
            → IsSlotNewest self.now now pass slot image.now → (IsTrue stale ↔ IsStale notes slot (slot_image slot image.now) now)
            → Goes self.now notes now pass result }
        ensures fits { FitsWent self.now result }
        ensures nearer { left_after result < 3 }
    {
        if stale {
            return self.lost(header, slot, image);
        }
        Went::Ended(LockEnd::Busy {
            how: How::Held {
                slot,
                image: *image,
            },
        })
    }

    /// Slot `by` breaks it.
    fn breaking(
        &self,
        header: &Header,
        slot: SlotNo,
        image: &Slot,
        by: SlotNo,
        by_generation: Gen,
    ) -> Went
        requires wanted { IsWanted self.now }
        requires header { FitsHeader self.now header.now }
        requires within { slot < self.now.geom.slots }
        requires breaking { image.now.state ≡ states.Breaking by by_generation }
        ensures goes { (notes : List Note) (now : ℕ) (pass : List Exchange) → IsOwnedBy self.now pass header.now slot image.now → Goes self.now notes now pass result }
        ensures fits { FitsWent self.now result }
        ensures nearer { left_after result < 3 }
    {
        if by == slot {
            return self.slot_damaged(slot);
        }
        if by >= self.geom.slots {
            return self.slot_damaged(slot);
        }
        Went::On(Stage::Breaker {
            header: *header,
            slot,
            image: *image,
            by,
            by_generation,
        })
    }

    /// The slot that breaks it was shown.
    pub fn breaker_shown(
        &self,
        header: &Header,
        slot: SlotNo,
        image: &Slot,
        by_generation: Gen,
        breaker: &Slot,
    ) -> Went
        requires { FitsHeader self.now header.now }
        ensures goes { (notes : List Note) (now : ℕ) (pass : List Exchange) (by : ℕ)
            → IsBreakerRead self.now now pass header.now slot image.now by by_generation breaker.now → Goes self.now notes now pass result }
        ensures fits { FitsWent self.now result }
        ensures nearer { left_after result ≡ 0 }
    {
        if breaker.generation > by_generation {
            return self.lost(header, slot, image);
        }
        Went::Ended(LockEnd::Busy {
            how: How::Recovering {
                slot,
                image: *image,
                breaker: *breaker,
            },
        })
    }

    /// Notes that the slot showed this, where it isn't the host's own, and tells whether it is stale.
    pub fn note(&self, slot: SlotNo, sector: &Sector, watch: &mut Watch, now: Tick) -> bool
        requires wanted { IsWanted self.now }
        requires within { slot < self.now.geom.slots }
        ensures noted { (notes : List Note) → Remembers watch.old notes → Remembers watch.new (with_note self.now slot sector.now now notes) }
        ensures stale { (notes : List Note) → Remembers watch.old notes → slot ≢ self.now.own.slot
            → IsTrue result ↔ IsStale (with_note self.now slot sector.now now notes) slot sector.now now }
    {
        if slot == self.own.slot {
            return false;
        }
        watch.note(slot, sector, now);
        watch.stale(slot, sector, now)
    }
}
