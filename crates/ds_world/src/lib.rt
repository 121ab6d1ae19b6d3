//! A device, its hosts, and the log of what happened.
#![tactic(auto)]

#[cfg(test)]
mod first_form_tests;
mod first_forms;
mod first_tree;
mod first_world;

pub use first_forms::not_built;
pub use first_world::FirstWorld;
