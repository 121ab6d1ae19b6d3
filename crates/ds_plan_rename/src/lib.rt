//! The planner of Rename: how a call finds an entry and the room that it gets, lock by lock and sector by sector, and what it
//! writes.
#![tactic(auto)]

mod entries;
mod redos;
mod renaming;

pub use renaming::Rename;
