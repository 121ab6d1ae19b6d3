//! What a host wants of its slot, and how that ends.

use ds_base::{Gen, SectorNo, SlotNo};
use ds_marks::Slot;

/// What a host wants: a slot of its own, or a renewal of its slot, or to leave it. The image is the one that the host's last Swap of
/// its slot wrote.
#[derive(Clone, Copy, Debug, PartialEq, Eq)]
pub enum RegCall {
    Enter,
    Beat { slot: SlotNo, image: Slot },
    Leave { slot: SlotNo, image: Slot },
}

/// How it ends.
#[derive(Clone, Copy, Debug, PartialEq, Eq)]
pub enum RegEnd {
    /// The host has this slot, in this generation.
    Registered { slot: SlotNo, generation: Gen },
    /// Every slot was read, and none was free when it was read last.
    NoSlot,
    /// Two Swaps of this slot found another image in place.
    Raced { slot: SlotNo },
    /// The own slot has the next stamp.
    Beaten,
    /// The own slot is free, in the next generation.
    Left,
    /// The own slot isn't as the host wrote it, and first differs at this byte.
    Fenced { offset: u16 },
    /// The sector of a slot spells none.
    Damaged { sector: SectorNo },
    /// The device failed.
    Faulted,
}
