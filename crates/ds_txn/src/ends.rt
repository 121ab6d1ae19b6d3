//! How a change ends, or that it is committed.

/// How a change ends. After `Committed` it goes on.
#[derive(Clone, Copy, Debug, PartialEq, Eq)]
pub enum TxnEnd {
    /// The change is committed; what is left is to write it in place.
    Committed,
    /// It is in place, and the own slot is idle again.
    Retired,
    /// The own slot isn't as the host wrote it, and first differs at this byte.
    Fenced { offset: u16 },
    /// The device failed at the commit, which may or may not have landed.
    InDoubt,
    /// The device failed at another command.
    Faulted,
}
