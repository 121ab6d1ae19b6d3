//! How something is busy.

use ds_base::SlotNo;
use ds_marks::Slot;

/// How what a host wants is held by others. An image is what was read of its slot.
#[derive(Clone, Copy, Debug, PartialEq, Eq)]
pub enum How {
    /// The slot's generation owns it, and isn't judged dead.
    Held {
        slot: SlotNo,
        image: Slot,
    },
    /// The slot's generation owns it and is being broken, by a generation that isn't over: `breaker` is the image of
    /// the breaker's slot.
    Recovering {
        slot: SlotNo,
        image: Slot,
        breaker: Slot,
    },
    /// Others changed it twice while it was being taken.
    Raced,
}
