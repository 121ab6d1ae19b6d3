//! The log of a volume and its hosts: what each did, turn by turn, and what it answered.
#![tactic(auto)]

mod logs;
mod moves;

pub use logs::{Event, Log, Reply, Step};
pub use moves::Moved;
