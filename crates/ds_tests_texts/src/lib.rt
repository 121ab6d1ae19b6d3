//! Tests of the texts of scenarios.
#![tactic(auto)]

#[cfg(test)]
mod fault_tests;
#[cfg(test)]
mod passing_tests;
#[cfg(test)]
mod printing_tests;
#[cfg(test)]
mod reading_tests;
