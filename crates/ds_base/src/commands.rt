//! What a host sends to the device, and what the device answers.

use crate::sectors::{Sector, SectorNo, Tick};

/// A command to the device. `Swap` is COMPARE AND WRITE of one logical block.
#[derive(Clone, Copy, Debug, PartialEq, Eq)]
pub enum Command {
    Read {
        at: SectorNo,
    },
    Write {
        at: SectorNo,
        fresh: Sector,
    },
    Swap {
        at: SectorNo,
        verify: Sector,
        fresh: Sector,
    },
}

/// What the device answers. `offset` counts bytes from the sector's first.
#[derive(Clone, Copy, Debug, PartialEq, Eq)]
pub enum Response {
    Got(Sector),
    Done,
    Miscompare { offset: u16 },
    Fault,
}

/// What a host or a run does next: nothing, a command, or a plain write that comes too late, at `now`, since the
/// host's last own-slot Swap was at `last`, 16 ticks before or earlier.
#[derive(Clone, Copy, Debug, PartialEq, Eq)]
pub enum Next {
    Rest,
    Send(Command),
    Late { now: Tick, last: Tick },
}
