//! Devices of logical blocks in memory.
#![tactic(auto)]

mod comparing;
mod flat_device;
mod memory_device;

pub use flat_device::FlatLun;
pub use memory_device::MemLun;
