//! How far the hosts of a scenario have come, whose turn is an event, and the order of a replay.
#![tactic(auto)]

mod execution;
mod hosts;
mod progress;
mod replay;

pub use execution::Execution;
pub use hosts::{CallTurn, Hosts};
pub use progress::{Arm, Mark, Progress, Stance, stance_of};
pub use replay::{Replayed, drive};
