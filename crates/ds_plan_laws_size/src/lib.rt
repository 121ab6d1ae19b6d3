//! What an image stands for once a file has another size: definitions and lemmas for the planner of the call that resizes.
#![tactic(auto)]
