//! The bytes of sectors and CDBs: a writer that appends fields to a sector, and readers of fields at their offsets.
#![tactic(auto)]

mod node_kinds;
mod readers;
#[cfg(test)]
mod tests;
mod writer;

pub use node_kinds::{code_of_kind, kind_of_code};
pub use readers::{
    bytes_at, id_at, id_bytes, is_zero_from, u8_at, u16_at, u32_at, u32s_at, u64_at,
};
pub use writer::SectorWriter;
