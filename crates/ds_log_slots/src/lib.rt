//! What holds of slots and generations at every moment of a history of hosts on one volume.
#![tactic(auto)]
