//! What changed sectors make of a logical image: definitions and lemmas for the planners of calls that change the tree.
#![tactic(auto)]
