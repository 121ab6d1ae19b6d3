//! Where the places of a volume are, and the volume's first two sectors.
#![tactic(auto)]

mod metadata;
mod places;
mod regions;
mod volume;

pub use metadata::is_metadata_sector;
pub use places::{Place, cluster_lock, place_of, sector_of, total};
pub use volume::{decode_fs, decode_vol, encode_fs, encode_vol};
