//! Registering a host: entering a free slot, renewing one's own, and leaving it.
#![tactic(auto)]

mod calls;
mod runs;
mod steps;

pub use calls::{RegCall, RegEnd};
pub use runs::RegRun;
