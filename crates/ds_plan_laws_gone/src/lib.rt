//! What a logical image stands for once an entry and its object go, and once an entry moves: definitions and lemmas for the planners of such calls.
#![tactic(auto)]
