//! The file tree, the calls on it, and the scenarios that hosts carry out.
#![tactic(auto)]

mod builders;
mod call_kinds;
mod calls;
mod changes;
mod counts;
mod listing;
mod objects;
mod reads;
mod refusals;
mod scenarios;
mod steps;
mod tables;
mod trees;
mod variables;

pub use builders::TreeBuilder;
pub use call_kinds::{CallKind, call_word, kind_of_call};
pub use calls::{Call, CallOf, HostCall, HostCallOf, TreeReply};
pub use scenarios::{Directive, HostPlan, Items, Point, Scenario};
pub use trees::Tree;
pub use variables::{Spoken, Var};
