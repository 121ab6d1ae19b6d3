//! Tests of the file tree, of the images that stand for it, and of the checker.
#![tactic(auto)]

#[cfg(test)]
mod changes_for_tests;
#[cfg(test)]
mod finding_stage_tests;
#[cfg(test)]
mod finding_tests;
#[cfg(test)]
mod format_tests;
#[cfg(test)]
mod image_tree_tests;
#[cfg(test)]
mod item_table_tests;
#[cfg(test)]
mod journal_finding_tests;
#[cfg(test)]
mod large_file_tests;
#[cfg(test)]
mod logical_image_tests;
#[cfg(test)]
mod tree_limit_tests;
#[cfg(test)]
mod tree_refusal_tests;
#[cfg(test)]
mod tree_tests;
