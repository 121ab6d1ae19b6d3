//! The planner of the calls that only read an object, Stat, Map, OpenFile and At: how they find out what they answer, lock by lock
//! and sector by sector.
#![tactic(auto)]

mod blocks;
mod questions;
mod reading;

pub use questions::Question;
pub use reading::ObjectReads;
