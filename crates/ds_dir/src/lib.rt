//! Sub-blocks: the sectors that hold the entries of a directory.
#![tactic(auto)]

mod room;
mod sub_block;
#[cfg(test)]
mod tests;

pub use sub_block::{Entry, SubBlock};
