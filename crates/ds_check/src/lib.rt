//! The checker of images: what is at odds in the sectors of a volume.
//!
//! Its stages, of which the first that finds something ends the check: headers (with the breakers of slots), journals,
//! metadata, addresses, sharing, marking, names (with the entries of directories), and what is unreached.
#![tactic(auto)]

mod addresses;
mod breakers;
mod checking;
mod controls;
mod entries;
mod findings;
mod fronts;
mod headers;
mod journals;
mod listed;
mod marking;
mod metadata;
mod names;
mod reports;
mod rooms;
mod sharing;
mod texts;
mod unreached;
mod uses;
mod volumes;

pub use checking::{CheckFault, check};
pub use findings::Find;
pub use reports::Report;
