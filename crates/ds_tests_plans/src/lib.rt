//! Tests of all planners, carried out alone on small volumes.
#![tactic(auto)]

#[cfg(test)]
mod calls_for_tests;
#[cfg(test)]
mod dearest_tests;
#[cfg(test)]
mod making_tests;
#[cfg(test)]
mod mixed_tests;
#[cfg(test)]
mod naming_tests;
#[cfg(test)]
mod reading_tests;
#[cfg(test)]
mod removing_tests;
#[cfg(test)]
mod renaming_tests;
#[cfg(test)]
mod resizing_tests;
#[cfg(test)]
mod volumes_for_tests;
