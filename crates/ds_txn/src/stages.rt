//! How far a change has come.
ghost use Rattle.std.specs.Prelude.{◌≡◌, ◌+◌, ◌^◌, ◌<◌};
ghost use Rattle.ds_txn.specs.Changing.{beaten, committed, retired};

use ds_marks::{Journal, Slot};

/// What comes next: a renewal of the own slot; the pair of this number into the journal; the index; the commit; the pair of this number
/// in place; the own slot back to idle; or nothing.
#[derive(Clone, Copy, Debug, PartialEq, Eq)]
pub enum Stage {
    Beat,
    Journal { pair: u8 },
    Index,
    Commit,
    Place { pair: u8 },
    Retire,
    Over,
}

/// The own slot as the renewal writes it, from what it was.
pub fn beaten(image: &Slot) -> Slot
    requires { image.now.stamp + 1 < 2 ^ 64 }
    ensures { result ≡ beaten image.now }
{
    Slot {
        state: image.state,
        generation: image.generation,
        host: image.host,
        stamp: image.stamp + 1,
        journal: image.journal,
    }
}

/// As the commit writes it.
pub fn committed(image: &Slot, txn: u64, count: u8) -> Slot
    requires { image.now.stamp + 2 < 2 ^ 64 }
    ensures { result ≡ committed txn count image.now }
{
    Slot {
        state: image.state,
        generation: image.generation,
        host: image.host,
        stamp: image.stamp + 2,
        journal: Journal::Committed { txn, count },
    }
}

/// As it is written last.
pub fn retired(image: &Slot) -> Slot
    requires { image.now.stamp + 3 < 2 ^ 64 }
    ensures { result ≡ retired image.now }
{
    Slot {
        state: image.state,
        generation: image.generation,
        host: image.host,
        stamp: image.stamp + 3,
        journal: Journal::Idle,
    }
}
