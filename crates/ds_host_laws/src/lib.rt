//! What hosts' runs mean for their conduct, as lemmas.
#![tactic(auto)]
