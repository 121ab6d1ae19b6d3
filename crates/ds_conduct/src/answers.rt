//! What a host answers to a call.

use ds_base::{Gen, ObjNo, SectorNo, SlotNo, Tick};
use ds_lock::How;
use ds_tree::TreeReply;

/// What a host found busy: a lock object, or a slot.
#[derive(Clone, Copy, Debug, PartialEq, Eq)]
pub enum Spot {
    Object(ObjNo),
    Slot(SlotNo),
}

/// What a host answers.
#[derive(Debug, Drop)]
pub enum HostAnswer {
    /// As the file tree does.
    Tree(TreeReply),
    /// The host holds this slot in this generation.
    Registered { slot: SlotNo, generation: Gen },
    /// A call that tells nothing was carried out.
    Plain,
    /// A word of the call is no name.
    BadName,
    /// The host holds no generation.
    Unregistered,
    /// The file isn't open.
    NotOpen,
    /// A file is open that may not be.
    StillOpen,
    /// As many files are open as may be.
    OpenFull,
    /// Others hold what the call needs.
    Busy { spot: Spot, how: How },
    /// No slot is free.
    NoSlot,
    /// The host's own slot is no longer as the host wrote it, and first differs at this byte.
    Fenced { offset: u16 },
    /// A plain write would come too late, at `now`: the last Swap of the own slot was at `last`.
    LeaseLost { now: Tick, last: Tick },
    /// The device failed.
    DeviceFault,
    /// The device failed at the commit, which may or may not have landed.
    InDoubt,
    /// A sector that was read isn't in its form, or is at odds with others.
    Damaged { sector: SectorNo },
    /// A count is at its end.
    WornOut,
}
