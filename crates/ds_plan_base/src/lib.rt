//! What the planners of calls share: which locks they may ask for, the body of a key, the entry of a name in a directory, free items and
//! rooms, items that are given up, and the sectors that are written.
#![tactic(auto)]

mod bodies;
mod entries;
mod giving;
mod items;
mod names;
mod pairs;
mod pointers;
mod rooms;
mod stops;

pub use bodies::{body_of_key, body_seen, dir_of_key, sub_block};
pub use entries::{Found, Named, find, found_among, named_among, subs_of, wanted_entry};
pub use giving::give_up;
pub use items::{FreeItem, cluster_tried, clusters, map_read, map_seen, number_of, wanted_item};
pub use names::{copy_of, name_of};
pub use pairs::{
    block_alone, block_emptied, block_filled, body_grown, body_pair, map_pair, sub_pair,
};
pub use pointers::pointer_block;
pub use rooms::{FreeRoom, room_for};
pub use stops::{Ending, Stop};
