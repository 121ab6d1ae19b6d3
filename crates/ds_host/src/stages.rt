//! What a host keeps of its slot and locks, and how far its call is.

use ds_base::{Gen, ObjNo, SectorNo, SlotNo, Tick};
use ds_conduct::HostAnswer;
use ds_lock::LockRun;
use ds_marks::Slot;
use ds_reg::RegRun;

/// The slot that a host holds, its image as the host's last Swap of it wrote it, and when.
#[derive(Clone, Copy, Debug, PartialEq, Eq)]
pub struct Held {
    pub slot: SlotNo,
    pub image: Slot,
    pub last: Tick,
}

/// A lock that the call took: the lock object, and the generation of its header.
#[derive(Clone, Copy, Debug, PartialEq, Eq)]
pub struct Taken {
    pub object: ObjNo,
    pub generation: Gen,
}

/// How far the call is: between two calls; a slot is being entered, renewed for an answer, or left; a lock is being taken; a sector is
/// being read; or the locks are being given back, this one next.
#[derive(Debug, Drop)]
pub enum Stage {
    Rest,
    Entering(RegRun),
    Renewing { run: RegRun, answer: HostAnswer },
    Leaving(RegRun),
    Locking(LockRun),
    Reading(SectorNo),
    Giving(usize),
}
