//! Calls that are carried out alone on a volume.
#![tactic(auto)]

mod courses;

pub use courses::{Asked, Course, carry_out};
