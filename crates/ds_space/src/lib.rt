//! The planner of Resize.
#![tactic(auto)]

mod space;

pub use space::Space;
