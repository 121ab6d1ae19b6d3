//! A SCSI target: command descriptor blocks carried out on a device in memory, and an initiator of single commands.
#![tactic(auto)]

mod execution;
mod sending;
mod transfers;

pub use execution::{ScsiReply, execute};
pub use sending::send;
