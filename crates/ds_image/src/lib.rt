//! The tree for which a logical image stands, new volumes, what protects a sector, and what a planner has to keep. Images, their parts and
//! tables of them are passed on.
#![tactic(auto)]

mod asks;
mod building;
mod formatting;
mod guards;
mod owners;
mod plans;
mod rooted;
mod seen;
mod sound_objects;
mod soundness;
mod trees;

pub use asks::Ask;
pub use ds_image_parts::{
    Image, ImageFault, PartsInMemory, Store, addresses_in, blocks_of, header_at, index_at,
    index_of, overlay, pointer_blocks, ptrs_of, sector_at, slot_at, subs_of,
};
pub use ds_image_tables::{Marks, NameCounts, Users, reached};
pub use formatting::{format, format_sparse};
pub use guards::guard;
pub use owners::bits_in;
pub use plans::Plan;
pub use seen::Seen;
pub use trees::read_tree;
