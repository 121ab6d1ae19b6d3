//! What a planner asks for.

use ds_base::{ObjNo, SectorNo};
use ds_jrnl::Redo;
use ds_tree::TreeReply;

/// What a call needs next, or how it ends: a lock object to hold, a sector to read, a sector that fits no tree, an object whose
/// births are used up, a reply without a change, or a reply with the pairs that change the volume.
#[derive(Debug, Drop)]
pub enum Ask {
    Lock(ObjNo),
    Read(SectorNo),
    Odd(SectorNo),
    Worn(ObjNo),
    Done(TreeReply),
    Change(Redo, TreeReply),
}
