//! Journals: the index of a committed transaction, and the sectors that are written again.
#![tactic(auto)]

mod index;
mod index_parts;
mod redo;
#[cfg(test)]
mod tests;

pub use index::Index;
pub use redo::Redo;
