//! The planner of Resize: how a file gets another size, lock by lock and sector by sector, and what is written then.
#![tactic(auto)]

mod blocks;
mod files;
mod growing;
mod pages;
mod resized;
mod resizing;
mod shrinking;
mod taking;

pub use resizing::Resize;
