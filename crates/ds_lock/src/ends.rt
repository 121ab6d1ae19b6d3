//! How the taking of a lock ends.

use crate::how::How;
use ds_base::{SectorNo, SlotNo};
use ds_marks::Slot;

/// How the taking of a lock ends, or what has to be done before it goes on.
#[derive(Clone, Copy, Debug, PartialEq, Eq)]
pub enum LockEnd {
    /// The host has the lock.
    Got,
    /// Others hold it.
    Busy { how: How },
    /// This sector spells nothing of its place, or is at odds with another one.
    Damaged { sector: SectorNo },
    /// A generation that has to be raised is at its end, 2^62.
    WornOut,
    /// The device failed.
    Faulted,
    /// The generation that owns the lock is lost: its slot, which showed this image, has to be turned free first.
    NeedsBreak { slot: SlotNo, image: Slot },
}
