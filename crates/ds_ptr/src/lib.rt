//! Pointer blocks: the sectors that hold the block numbers of a large file.
#![tactic(auto)]

mod ptr_block;
#[cfg(test)]
mod tests;

pub use ptr_block::PtrBlock;
