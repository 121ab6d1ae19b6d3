//! The locks of a volume: taking one, command by command, and how it is held by others.
#![tactic(auto)]

mod ends;
mod how;
mod reading;
mod runs;
mod steps;

pub use ends::LockEnd;
pub use how::How;
pub use runs::LockRun;
