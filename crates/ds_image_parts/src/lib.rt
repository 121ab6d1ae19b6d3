//! What the sectors of a volume spell: logical images, which have the pending pairs of all journals laid over the metadata, their parts,
//! and what descriptors list.
#![tactic(auto)]

mod bad_sectors;
mod images;
mod listings;
mod logical;
mod parts;
mod reads;
mod stores;

pub use images::{Image, ImageFault};
pub use listings::{
    Listed, addresses_in, blocks_of, entries_in, list_of, pointed_by, pointer_blocks, ptrs_of,
    subs_of,
};
pub use logical::overlay;
pub use parts::PartsInMemory;
pub use reads::{header_at, index_at, index_of, sector_at, slot_at};
pub use stores::Store;
