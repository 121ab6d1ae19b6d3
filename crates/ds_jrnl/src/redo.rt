//! What a journal has to write.

use arrayvec::ArrayVec;
use ds_base::{Sector, SectorNo};

/// The pairs of a transaction: sectors, and what they are to hold.
#[derive(Clone, Debug, Drop, PartialEq, Eq)]
pub struct Redo {
    pub pairs: ArrayVec<(SectorNo, Sector), 31>,
}
