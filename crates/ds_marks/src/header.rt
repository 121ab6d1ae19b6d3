//! Headers of lock objects and their sectors.
ghost use Rattle.std.specs.Prelude.{◌≡◌, ◌≤◌, ◌↔◌, ℕ, Some, IfSome, IsTrue};
ghost use Rattle.ds_base.specs.Decoding.{IsDecoded};
ghost use Rattle.ds_marks.specs.declared.header.Header.{Header};
ghost use Rattle.ds_marks.specs.HeaderIn.{header_in, header_if_of};
ghost use Rattle.ds_marks.specs.Header.{owned_code, written_owner, IsOwner, HasWidths, InRanges, IsHeader, header_bytes};

use crate::header_parts::HeaderParts;
use ds_base::{Gen, ObjNo, Sector, SlotNo};
use ds_bytes::SectorWriter;
use uuid::Uuid;

/// Who holds a lock: a host, in a generation of its slot.
#[derive(Clone, Copy, Debug, PartialEq, Eq)]
pub struct Owner {
    pub slot: SlotNo,
    pub generation: Gen,
    pub host: Uuid,
}

/// The header of a lock object.
#[derive(Clone, Copy, Debug, PartialEq, Eq)]
pub struct Header {
    pub object: ObjNo,
    pub generation: Gen,
    pub owner: Option<Owner>,
}

impl Header {
    /// Whether the generation is at most 2^62, and an owner's from 1 to 2^62.
    pub fn is_valid(&self) -> bool
        ensures { IsTrue result ↔ InRanges self.now }
    {
        if self.generation > 1 << 62 {
            return false;
        }
        is_owner(&self.owner)
    }

    #[tactic(auto, unfolding(crate::specs::Header::header_bytes))]
    pub fn encode(&self) -> Sector
        requires { InRanges self.now }
        ensures { result.bytes ≡ header_bytes self.now }
    {
        let owner = written(&self.owner);
        let mut writer = SectorWriter::new();
        writer.bytes(b"DSLK");
        writer.u8(code_of(&self.owner));
        writer.u8(owner.slot);
        writer.zeros(2);
        writer.u32(self.object);
        writer.zeros(4);
        writer.u64(self.generation);
        writer.u64(owner.generation);
        writer.id(&owner.host);
        writer.finish()
    }

    /// The header that an object's sector spells; `None` where it spells none of that object.
    pub fn decode(object: ObjNo, sector: &Sector) -> Option<Header>
        ensures spelled { IsDecoded result (λ h. (h.object ≡ object) × IsHeader h × (sector.now.bytes ≡ header_bytes h)) }
        ensures value { result ≡ header_if_of object (header_in sector.now.bytes) }
    {
        Header::of_sector(object, *sector)
    }

    fn of_sector(object: ObjNo, sector: Sector) -> Option<Header>
        ensures spelled { IsDecoded result (λ h. (h.object ≡ object) × IsHeader h × (sector.bytes ≡ header_bytes h)) }
        ensures value { result ≡ header_if_of object (header_in sector.bytes) }
    {
        // A read of the bytes shows that there are 512, each below 256.
        let _bytes = &sector.bytes;
        Header::spelled(object, &sector)
    }

    fn spelled(object: ObjNo, sector: &Sector) -> Option<Header>
        ensures { IsDecoded result (λ h. (h.object ≡ object) × IsHeader h × (sector.now.bytes ≡ header_bytes h)) }
    {
        let header = Header::named(sector)?;
        if header.object != object {
            return None;
        }
        if !header.is_valid() {
            return None;
        }
        if header.encode() != *sector {
            return None;
        }
        Some(header)
    }

    fn named(sector: &Sector) -> Option<Header>
        ensures named { (h : Header) → IsHeader h → sector.now.bytes ≡ header_bytes h → result ≡ Some h }
        ensures widths { IfSome result HasWidths }
    {
        HeaderParts::read(sector).header()
    }
}

fn is_owner(owner: &Option<Owner>) -> bool
    ensures { IsTrue result ↔ IsOwner owner.now }
{
    match owner {
        None => true,
        Some(owner) => owner.generation >= 1 && owner.generation <= 1 << 62,
    }
}

fn code_of(owner: &Option<Owner>) -> u8
    ensures { result ≡ owned_code owner.now }
{
    match owner {
        None => 0,
        Some(_) => 1,
    }
}

/// The owner as it is written, with zeros where there is none.
fn written(owner: &Option<Owner>) -> Owner
    ensures { result ≡ written_owner owner.now }
{
    match owner {
        None => Owner {
            slot: 0,
            generation: 0,
            host: Uuid::from_bytes([0; 16]),
        },
        Some(owner) => *owner,
    }
}
