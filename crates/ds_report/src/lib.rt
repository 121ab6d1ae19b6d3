//! The text of a report: what each event of a log did, and the file tree that it left.
#![tactic(auto)]

mod answers;
mod changes;
mod hosts;
mod listings;
mod pairs;
mod reads;
mod replies;
mod reports;
mod slots;

pub use listings::listing;
pub use reports::text;

#[cfg(test)]
mod slot_tests;
#[cfg(test)]
mod tests;
