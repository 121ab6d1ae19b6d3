//! How far a break has come.
ghost use Rattle.std.specs.Prelude.{◌≡◌, ◌+◌, ◌<◌, ◌^◌};
ghost use Rattle.ds_break.specs.Breaking.{beaten, broken, cleared};

use ds_base::Sector;
use ds_marks::{Journal, Owner, Slot, SlotState};
use uuid::Uuid;

/// What comes next: the Swap that breaks the slot; a Read of its journal's index; a renewal of the own slot; a Read of the pair of this
/// number; a Write of it in place; the Swap that turns the slot free; or nothing.
#[derive(Clone, Copy, Debug, PartialEq, Eq)]
pub enum Stage {
    Breaking,
    Index,
    Beat,
    Fetch { pair: u8 },
    Place { pair: u8, fresh: Sector },
    Clearing,
    Over,
}

/// The own slot as the renewal writes it.
pub fn beaten(mine: &Slot) -> Slot
    requires { mine.now.stamp + 1 < 2 ^ 64 }
    ensures { result ≡ beaten mine.now }
{
    Slot {
        state: mine.state,
        generation: mine.generation,
        host: mine.host,
        stamp: mine.stamp + 1,
        journal: mine.journal,
    }
}

/// The slot as it is broken by this owner.
pub fn broken(own: &Owner, image: &Slot) -> Slot
    ensures { result ≡ broken own.now image.now }
{
    Slot {
        state: SlotState::Breaking {
            by: own.slot,
            by_generation: own.generation,
        },
        generation: image.generation,
        host: image.host,
        stamp: image.stamp,
        journal: image.journal,
    }
}

/// The slot as it is free again.
pub fn cleared(image: &Slot) -> Slot
    requires { image.now.generation + 1 < 2 ^ 64 }
    ensures { result ≡ cleared image.now }
{
    Slot {
        state: SlotState::Free,
        generation: image.generation + 1,
        host: Uuid::nil(),
        stamp: 0,
        journal: Journal::Idle,
    }
}
