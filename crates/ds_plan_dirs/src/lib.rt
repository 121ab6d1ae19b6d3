//! The planner of the calls that read names, Lookup and List: how they find out what they answer, lock by lock and sector by sector.
#![tactic(auto)]

mod listing;
mod reading;

pub use reading::{DirReads, ReadCall};
