//! What a host may send and answer, by what it sent and heard before.
#![tactic(auto)]

mod answers;
mod conducting;

pub use answers::{HostAnswer, Spot};
pub use conducting::Conducting;
