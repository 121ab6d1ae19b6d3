//! How far the taking of a lock has come, and what was read makes of that.
ghost use Rattle.std.specs.Prelude.{◌≡◌, ◌<◌, ℕ, List, Some};
ghost use Rattle.ds_base.specs.Exchanges.{Exchange};
ghost use Rattle.ds_watch.specs.Notes.{Note};
ghost use Rattle.ds_lock.specs.Locking.{IsShown, lock_sector, slot_sector};
ghost use Rattle.ds_lock.specs.Stages.{FitsHeader, FitsWent, Goes, left_after, IsWanted};

use crate::ends::LockEnd;
use ds_base::{Gen, Geom, ObjNo, SectorNo, SlotNo};
use ds_layout::{Place, sector_of};
use ds_marks::{Header, Owner, Slot};

/// The highest generation.
pub const MOST_GENERATION: Gen = 1 << 62;

/// What is taken: a lock of this volume, by this owner.
#[derive(Clone, Copy, Debug, PartialEq, Eq)]
pub struct Wanted {
    pub geom: Geom,
    pub own: Owner,
    pub object: ObjNo,
}

/// What comes next: a Read of the header, of its owner's slot or of the slot that breaks this one, the Swap that takes the header, or
/// the break of the owner's slot, or nothing. What was read so far stands with it.
#[derive(Clone, Copy, Debug, PartialEq, Eq)]
pub enum Stage {
    Header,
    Owner {
        header: Header,
        owner: Owner,
    },
    Breaker {
        header: Header,
        slot: SlotNo,
        image: Slot,
        by: SlotNo,
        by_generation: Gen,
    },
    Taking {
        header: Header,
    },
    Broken {
        header: Header,
        slot: SlotNo,
        image: Slot,
    },
    Over,
}

/// Where a response leads: to a stage, to an end, to a break of a slot, or back to the header since a Swap of it found another one.
#[derive(Clone, Copy, Debug, PartialEq, Eq)]
pub enum Went {
    On(Stage),
    Ended(LockEnd),
    Breaks {
        header: Header,
        slot: SlotNo,
        image: Slot,
    },
    Missed,
}

impl Wanted {
    /// The sector of the header.
    pub fn header_at(&self) -> SectorNo
        requires { IsWanted self.now }
        ensures { result ≡ lock_sector self.now.geom self.now.object }
    {
        sector_of(&self.geom, &Place::Header(self.object))
    }

    /// The sector of a slot.
    pub fn slot_at(&self, slot: SlotNo) -> SectorNo
        requires wanted { IsWanted self.now }
        requires within { slot < self.now.geom.slots }
        ensures { result ≡ slot_sector self.now.geom slot }
    {
        sector_of(&self.geom, &Place::Slot(slot))
    }

    /// The header was shown.
    pub fn header_shown(&self, header: &Header) -> Went
        requires wanted { IsWanted self.now }
        requires header { FitsHeader self.now header.now }
        ensures goes { (notes : List Note) (now : ℕ) (pass : List Exchange) → IsShown self.now pass header.now → Goes self.now notes now pass result }
        ensures fits { FitsWent self.now result }
        ensures nearer { left_after result < 4 }
    {
        match header.owner {
            None => self.loose(header),
            Some(owner) => self.owned(header, &owner),
        }
    }

    /// The header names this owner.
    fn owned(&self, header: &Header, owner: &Owner) -> Went
        requires wanted { IsWanted self.now }
        requires header { FitsHeader self.now header.now }
        requires owner { header.now.owner ≡ Some owner.now }
        ensures goes { (notes : List Note) (now : ℕ) (pass : List Exchange) → IsShown self.now pass header.now → Goes self.now notes now pass result }
        ensures fits { FitsWent self.now result }
        ensures nearer { left_after result < 4 }
    {
        if owner.slot == self.own.slot {
            if owner.generation == self.own.generation {
                return Went::Ended(LockEnd::Got);
            }
            if owner.generation > self.own.generation {
                return self.damaged();
            }
        }
        if owner.slot >= self.geom.slots {
            return self.damaged();
        }
        Went::On(Stage::Owner {
            header: *header,
            owner: *owner,
        })
    }

    /// The header is damaged.
    pub fn damaged(&self) -> Went
        requires { IsWanted self.now }
        ensures { result ≡ Went.Ended (LockEnd.Damaged (lock_sector self.now.geom self.now.object)) }
    {
        Went::Ended(LockEnd::Damaged {
            sector: self.header_at(),
        })
    }

    /// This slot is damaged.
    pub fn slot_damaged(&self, slot: SlotNo) -> Went
        requires wanted { IsWanted self.now }
        requires within { slot < self.now.geom.slots }
        ensures { result ≡ Went.Ended (LockEnd.Damaged (slot_sector self.now.geom slot)) }
    {
        Went::Ended(LockEnd::Damaged {
            sector: self.slot_at(slot),
        })
    }
}
