//! How a host changes a volume: its journal, the commit, and the writes in place, command by command.
#![tactic(auto)]

mod ends;
mod runs;
mod stages;

pub use ends::TxnEnd;
pub use runs::TxnRun;
