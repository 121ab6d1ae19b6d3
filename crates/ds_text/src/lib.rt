//! Texts that grow at their end.
#![tactic(auto)]

mod texts;

pub use texts::Text;
