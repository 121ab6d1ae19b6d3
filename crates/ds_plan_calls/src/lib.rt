//! The planner of any call on the tree: it is the planner of the call that is made.
#![tactic(auto)]

mod planner;

pub use planner::Planner;
