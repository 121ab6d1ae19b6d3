//! SCSI bytes: the command descriptor blocks of three commands, and fixed-format sense data.
#![tactic(auto)]

mod command_blocks;
mod sense_data;

pub use command_blocks::{Cdb, CdbFault, cdb_of, in_len, out_len, read_cdb};
pub use sense_data::{Sense, read_sense, sense_of};
