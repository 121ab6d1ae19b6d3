//! Bodies: the second sectors of file descriptors.
#![tactic(auto)]

mod body;
mod parts;
#[cfg(test)]
mod tests;

pub use body::Body;
