//! The planner of the calls that only read.
#![tactic(auto)]

mod reads;

pub use reads::Reads;
