//! How a break ends.

use ds_base::SectorNo;

/// How a break ends.
#[derive(Clone, Copy, Debug, PartialEq, Eq)]
pub enum BreakEnd {
    /// The slot is free, in the next generation.
    Freed,
    /// A Swap of the slot found another image in place.
    Miscompared,
    /// The host's own slot isn't as the host wrote it, and first differs at this byte.
    Fenced { offset: u16 },
    /// This sector, the index of the slot's journal, isn't the one that the slot speaks of.
    Damaged { sector: SectorNo },
    /// The device failed.
    Faulted,
}
