//! The marks of hosts: heartbeat slots, and the headers of locks.
#![tactic(auto)]

mod header;
mod header_parts;
mod slot;
mod slot_parts;

pub use header::{Header, Owner};
pub use slot::{Journal, Slot, SlotState};
