//! What every layer speaks of: sectors and the commands on them, geometry, names and keys, and the outside world.
#![tactic(auto)]

mod commands;
mod geometry;
mod identity;
mod limits;
mod memory;
mod names;
mod outside;
mod sectors;
mod standard;
mod sure;
#[cfg(test)]
mod tests;

pub use commands::{Command, Next, Response};
pub use geometry::{BadGeom, Geom, GeomField, Kind};
pub use identity::host_id;
pub use limits::{
    ADDRESSES, FIRST_CLUSTER_LOCK, MOST_BIRTH, MOST_BLOCK_SECTORS, MOST_BLOCKS, MOST_ENTRIES,
    MOST_ITEMS, PAGE,
};
pub use memory::{MemSink, MemSource};
pub use names::{Key, Name, NodeKind, Word};
pub use outside::{Gave, NoMemory, Sink, Source, Taken};
pub use sectors::{Gen, HostNo, ObjNo, Sector, SectorNo, SlotNo, Tick};
pub use standard::{StdSink, StdSource};
pub use sure::{SureSink, SureSource};
