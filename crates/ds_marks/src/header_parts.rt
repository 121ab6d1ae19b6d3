//! The fields of a header as they are read.
ghost use Rattle.std.specs.Prelude.{◌≡◌};
ghost use Rattle.ds_bytes.specs.Fields.{front, spelled, FieldsFit};
ghost use Rattle.ds_marks.specs.HeaderParts.{part_fields, owner_named, header_of};

use crate::header::{Header, Owner};
use ds_base::Sector;
use ds_bytes::{bytes_at, id_at, u8_at, u32_at, u64_at};
use uuid::Uuid;

/// What a sector holds if it spells a header.
#[derive(Drop)]
pub struct HeaderParts {
    magic: [u8; 4],
    owned: u8,
    slot: u8,
    gap: [u8; 2],
    object: u32,
    hole: [u8; 4],
    generation: u64,
    owner_generation: u64,
    host: Uuid,
}

impl HeaderParts {
    #[tactic(auto, using(ds_bytes::proofs::Fronts::front_none))]
    pub fn read(sector: &Sector) -> HeaderParts
        ensures parts { front 48 sector.now.bytes ≡ spelled (part_fields result) }
        ensures fits { FieldsFit (part_fields result) }
    {
        let bytes = &sector.bytes;
        let magic = bytes_at(bytes, 0);
        let gap = bytes_at(bytes, 6);
        let hole = bytes_at(bytes, 12);
        HeaderParts {
            magic,
            owned: u8_at(bytes, 4),
            slot: u8_at(bytes, 5),
            gap,
            object: u32_at(bytes, 8),
            hole,
            generation: u64_at(bytes, 16),
            owner_generation: u64_at(bytes, 24),
            host: id_at(bytes, 32),
        }
    }

    /// The header with these fields, if the object is owned or not.
    pub fn header(self) -> Option<Header>
        ensures { result ≡ header_of self }
    {
        let owner = Owner {
            slot: self.slot,
            generation: self.owner_generation,
            host: self.host,
        };
        let owner = owner_of(self.owned, owner)?;
        Some(Header {
            object: self.object,
            generation: self.generation,
            owner,
        })
    }
}

fn owner_of(code: u8, owner: Owner) -> Option<Option<Owner>>
    ensures { result ≡ owner_named code owner }
{
    match code {
        0 => Some(None),
        1 => Some(Some(owner)),
        _ => None,
    }
}
