//! Tables of the items and objects of an image: marks, names counted, parents followed up to the root, and users.
#![tactic(auto)]

mod marks;
mod name_counts;
mod parents;
mod users;

pub use marks::Marks;
pub use name_counts::NameCounts;
pub use parents::reached;
pub use users::Users;
