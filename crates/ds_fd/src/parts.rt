//! The fields of a body as they are read.
ghost use Rattle.std.specs.Prelude.{◌≡◌, ◌^◌, length};
ghost use Rattle.ds_bytes.specs.Fields.{front, spelled, FieldsFit};
ghost use Rattle.ds_fd.specs.BodyParts.{part_fields, body_of};

use crate::body::Body;
use ds_base::Sector;
use ds_bytes::{bytes_at, kind_of_code, u8_at, u32_at, u32s_at, u64_at};

/// What a sector holds if it spells a body.
#[derive(Drop)]
pub struct BodyParts {
    magic: [u8; 4],
    kind: u8,
    gap: [u8; 3],
    object: u32,
    links: u32,
    birth: u64,
    count: u32,
    hole: [u8; 4],
    addresses: [u32; 96],
}

impl BodyParts {
    #[tactic(auto, using(ds_bytes::proofs::Fronts::front_none))]
    pub fn read(sector: &Sector) -> BodyParts
        ensures parts { front 416 sector.now.bytes ≡ spelled (part_fields result) }
        ensures fits { FieldsFit (part_fields result) }
    {
        let bytes = &sector.bytes;
        let magic = bytes_at(bytes, 0);
        let gap = bytes_at(bytes, 5);
        let hole = bytes_at(bytes, 28);
        let mut addresses = [0; 96];
        u32s_at(bytes, 32, &mut addresses);
        BodyParts {
            magic,
            kind: u8_at(bytes, 4),
            gap,
            object: u32_at(bytes, 8),
            links: u32_at(bytes, 12),
            birth: u64_at(bytes, 16),
            count: u32_at(bytes, 24),
            hole,
            addresses,
        }
    }

    /// The body with these fields, if there is such a kind.
    pub fn body(self) -> Option<Body>
        ensures { result ≡ body_of self }
    {
        let kind = kind_of_code(self.kind)?;
        let addresses = self.addresses;
        Some(Body {
            object: self.object,
            kind,
            links: self.links,
            birth: self.birth,
            count: self.count,
            addresses,
        })
    }
}
