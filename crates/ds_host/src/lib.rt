//! A host: what it sends, and how it answers its calls.
#![tactic(auto)]

mod first_host;
mod planners;
mod rooms;
mod stages;
mod words;

pub use first_host::{FirstHost, RootCall, Stage};
pub use planners::Planner;
pub use stages::{Held, Stage as HostStage, Taken};
pub use words::has_names;
