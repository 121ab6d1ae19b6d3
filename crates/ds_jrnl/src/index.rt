//! Indexes of journals and their sectors.
ghost use Rattle.std.specs.Prelude.{◌≡◌, ◌≤◌, ◌↔◌, Some, IfSome, IsTrue};
ghost use Rattle.std.specs.List.Sorted.{IsStrictlyIncreasing};
ghost use Rattle.ds_base.specs.Decoding.{IsDecoded};
ghost use Rattle.ds_jrnl.specs.declared.index.Index.{Index};
ghost use Rattle.ds_jrnl.specs.Index.{HasWidths, InRanges, IsIndex, index_bytes};

use crate::index_parts::IndexParts;
use arrayvec::ArrayVec;
use ds_base::{Gen, Sector, SlotNo};
use ds_bytes::SectorWriter;

/// The index of a journal: whose transaction it holds, and the sectors that its pairs write, rising.
#[derive(Clone, Debug, Drop, PartialEq, Eq)]
pub struct Index {
    pub slot: SlotNo,
    pub generation: Gen,
    pub txn: u64,
    pub targets: ArrayVec<u32, 31>,
}

impl Index {
    /// Whether there are 1 to 31 targets, each below the next.
    pub fn is_valid(&self) -> bool
        ensures { IsTrue result ↔ InRanges self.now }
    {
        let targets = self.targets.as_slice();
        if targets.is_empty() {
            return false;
        }
        is_rising(targets)
    }

    #[tactic(auto, unfolding(crate::specs::Index::index_bytes))]
    pub fn encode(&self) -> Sector
        requires { InRanges self.now }
        ensures { result.bytes ≡ index_bytes self.now }
    {
        let targets = self.targets.as_slice();
        let mut writer = SectorWriter::new();
        writer.bytes(b"DSJI");
        writer.u8(self.slot);
        writer.u8(targets.len() as u8);
        writer.zeros(2);
        writer.u64(self.generation);
        writer.u64(self.txn);
        writer.u32s_padded(targets, 31);
        writer.finish()
    }

    /// The index that a sector spells; `None` where it spells none.
    pub fn decode(sector: &Sector) -> Option<Index>
        ensures { IsDecoded result (λ x. IsIndex x × (sector.now.bytes ≡ index_bytes x)) }
    {
        let index = Index::named(sector)?;
        if !index.is_valid() {
            return None;
        }
        if index.encode() != *sector {
            return None;
        }
        Some(index)
    }

    fn named(sector: &Sector) -> Option<Index>
        ensures named { (x : Index) → IsIndex x → sector.now.bytes ≡ index_bytes x → result ≡ Some x }
        ensures widths { IfSome result HasWidths }
    {
        IndexParts::read(sector).index()
    }
}

fn is_rising(xs: &[u32]) -> bool
    ensures { IsTrue result ↔ IsStrictlyIncreasing xs.now }
{
    for i in 1..xs.len() {
        if xs[i - 1] >= xs[i] {
            return false;
        }
    }
    true
}
