//! The planner of the calls on names: it is the planner of the call that is made.
#![tactic(auto)]

mod names;

pub use names::Names;
