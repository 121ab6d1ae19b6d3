//! How a host turns the slot of a lost generation free: it breaks it, writes what it had committed in place, and clears it, command by
//! command.
#![tactic(auto)]

mod ends;
mod runs;
mod stages;

pub use ends::BreakEnd;
pub use runs::BreakRun;
