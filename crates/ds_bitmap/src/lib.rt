//! Bitmaps: which items of a cluster are used.
#![tactic(auto)]

mod bits;
mod packing;
mod searching;
#[cfg(test)]
mod tests;

pub use bits::Bits;
