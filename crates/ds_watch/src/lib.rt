//! Judging slots stale: what each slot of others showed last, and since when.
#![tactic(auto, using(crate::proofs::Runs::remembers_none, crate::proofs::Runs::remembers_note))]

mod watch;

pub use watch::Watch;
