//! What a turn does.

/// What a turn did: it added an event; the host's wait or hold isn't met; or the host's list is at its end.
#[derive(Clone, Copy, Debug, PartialEq, Eq)]
pub enum Moved {
    Event,
    Resting,
    Ended,
}
