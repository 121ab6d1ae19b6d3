//! The outside world: where bytes come from and where they go.
ghost use Rattle.std.specs.Prelude.{◌≡◌, ◌<◌, ◌≤◌, ℕ, min, List, Option, length, take};
ghost use Rattle.ds_base.specs.Outside.{HasRisen, Gives, Accepts};

use std::alloc::{AllocError, AllocFailed};
use thiserror::Error;

/// No memory was found.
#[derive(Clone, Copy, Debug, PartialEq, Eq, Error)]
#[error("out of memory")]
pub struct NoMemory;

impl From<AllocError> for NoMemory {
    fn from(_failed: AllocError) -> NoMemory {
        NoMemory
    }
}

impl<T: Drop> From<AllocFailed<T>> for NoMemory {
    fn from(_failed: AllocFailed<T>) -> NoMemory {
        NoMemory
    }
}

/// What a call of a source gave: this many bytes, the end, or a fault.
#[derive(Clone, Copy, Debug, PartialEq, Eq)]
pub enum Taken {
    Got(usize),
    End,
    Failed,
}

/// What a call of a sink took: this many bytes, or a fault.
#[derive(Clone, Copy, Debug, PartialEq, Eq)]
pub enum Gave {
    Took(usize),
    Failed,
}

/// Where bytes come from.
pub trait Source {
    /// The bytes still to come, where that is told.
    ghost left: { Self → Option (List ℕ) };

    /// How often a call failed; a count at 2^64 - 1 stays there.
    ghost faults: { Self → ℕ };

    /// Puts the next bytes at the front of `buf`.
    fn next(&mut self, buf: &mut [u8]) -> Taken
        requires { 0 < length buf.old }
        ensures gives { Gives (left self.old) (left self.new) result buf.new }
        ensures faults { faults self.old ≤ faults self.new }
        ensures failed { result ≡ Taken.Failed → HasRisen (faults self.old) (faults self.new) };
}

/// Where bytes go.
pub trait Sink {
    /// The bytes taken so far, where that is told.
    ghost taken: { Self → Option (List ℕ) };

    /// How often a call failed; a count at 2^64 - 1 stays there.
    ghost faults: { Self → ℕ };

    /// Takes bytes from the front of `piece`.
    fn put(&mut self, piece: &[u8]) -> Gave
        requires { 0 < length piece.now }
        ensures accepts { Accepts (taken self.old) (taken self.new) result piece.now }
        ensures faults { faults self.old ≤ faults self.new }
        ensures failed { result ≡ Gave.Failed → HasRisen (faults self.old) (faults self.new) };
}

/// Copies as much as fits to the front of `buf`, and says how much.
pub(crate) fn copy_front(from: &[u8], buf: &mut [u8]) -> usize
    ensures count { result ≡ min (length from.now) (length buf.old) }
    ensures copied { take result buf.new ≡ take result from.now }
{
    let n = from.len().min(buf.len());
    buf[..n].copy_from_slice(&from[..n]);
    n
}
