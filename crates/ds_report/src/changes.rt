//! Which steps commit a change.
ghost use Rattle.std.specs.Prelude.{◌≡◌};
ghost use Rattle.ds_conduct.specs.Marks.{has_idle, has_committed};
ghost use Rattle.ds_log.specs.Store.{is_change, commits_at};

use crate::slots::slot_in;
use ds_base::{Command, Gen, Sector, SectorNo, SlotNo};
use ds_log::Step;
use ds_marks::{Journal, Slot};

/// Whether a step is told as a commit.
pub(crate) fn is_change(step: &Step) -> bool
    ensures { result ≡ is_change step.now }
{
    match step {
        Step::Sent {
            under,
            command: Command::Swap { at, verify, fresh },
            took,
            ..
        } => *took && (*at == 0 || commits_at(*under, *at, *verify, *fresh)),
        _ => false,
    }
}

/// Whether a Swap is one of the host's own slot, and from an idle journal to a committed transaction.
fn commits_at(under: Option<(SlotNo, Gen)>, at: SectorNo, verify: Sector, fresh: Sector) -> bool
    ensures { result ≡ commits_at under at verify fresh }
{
    match under {
        Some((slot, _)) => at == 2 + u32::from(slot)
            && has_idle(slot_in(slot, verify))
            && has_committed(slot_in(slot, fresh)),
        None => false,
    }
}

fn has_idle(slot: Option<Slot>) -> bool
    ensures { result ≡ has_idle slot }
{
    match slot {
        Some(slot) => slot.journal == Journal::Idle,
        None => false,
    }
}

fn has_committed(slot: Option<Slot>) -> bool
    ensures { result ≡ has_committed slot }
{
    match slot {
        Some(slot) => slot.journal != Journal::Idle,
        None => false,
    }
}
