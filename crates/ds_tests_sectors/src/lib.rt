//! Tests of the crates that spell a volume's first sectors, slots and headers, and of the target.
#![tactic(auto)]

#[cfg(test)]
mod layout_tests;
#[cfg(test)]
mod mark_tests;
#[cfg(test)]
mod target_tests;
