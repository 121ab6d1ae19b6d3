//! The planner of the calls that take an object away, Remove and Rmdir: how a call finds the entry of a name and all that its object
//! gives up, lock by lock and sector by sector, and what it writes.
#![tactic(auto)]

mod blocks;
mod entries;
mod objects;
mod removing;

pub use removing::Remove;
