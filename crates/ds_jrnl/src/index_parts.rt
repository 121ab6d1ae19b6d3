//! The fields of an index as they are read.
ghost use Rattle.std.specs.Prelude.{◌≡◌, ◌≤◌, ◌↔◌, Some, IsSome, IfSome, length};
ghost use Rattle.ds_bytes.specs.Fields.{front, spelled, FieldsFit};
ghost use Rattle.ds_jrnl.specs.IndexParts.{part_fields, index_of};

use crate::index::Index;
use arrayvec::ArrayVec;
use ds_base::Sector;
use ds_bytes::{bytes_at, u8_at, u32s_at, u64_at};

/// What a sector holds if it spells an index.
#[derive(Drop)]
pub struct IndexParts {
    magic: [u8; 4],
    slot: u8,
    count: u8,
    gap: [u8; 2],
    generation: u64,
    txn: u64,
    words: [u32; 31],
}

impl IndexParts {
    #[tactic(auto, using(ds_bytes::proofs::Fronts::front_none))]
    pub fn read(sector: &Sector) -> IndexParts
        ensures parts { front 148 sector.now.bytes ≡ spelled (part_fields result) }
        ensures fits { FieldsFit (part_fields result) }
    {
        let bytes = &sector.bytes;
        let magic = bytes_at(bytes, 0);
        let gap = bytes_at(bytes, 6);
        let mut words = [0; 31];
        u32s_at(bytes, 24, &mut words);
        IndexParts {
            magic,
            slot: u8_at(bytes, 4),
            count: u8_at(bytes, 5),
            gap,
            generation: u64_at(bytes, 8),
            txn: u64_at(bytes, 16),
            words,
        }
    }

    /// The index with these fields, if its count is at most 31.
    pub fn index(self) -> Option<Index>
        ensures fits { IsSome result ↔ (self.count ≤ 31) }
        ensures value { IfSome result (λ x. x ≡ index_of self) }
    {
        let count = usize::from(self.count);
        if count > 31 {
            return None;
        }
        let targets = list_of(&self.words[..count])?;
        Some(Index {
            slot: self.slot,
            generation: self.generation,
            txn: self.txn,
            targets,
        })
    }
}

fn list_of(words: &[u32]) -> Option<ArrayVec<u32, 31>>
    ensures fits { IsSome result ↔ (length words.now ≤ 31) }
    ensures value { IfSome result (λ list. list.items ≡ words.now) }
{
    let mut list = ArrayVec::new();
    list.try_extend_from_slice(words).ok()?;
    Some(list)
}
