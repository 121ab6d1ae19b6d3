//! The planner of the calls that make an object, Mkdir and Create: how a call finds a free descriptor and a room for its entry, lock by lock
//! and sector by sector, and what it writes.
#![tactic(auto)]

mod making;
mod objects;
mod redos;

pub use making::Make;
