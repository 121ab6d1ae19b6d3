//! Sub-blocks and their sectors.
ghost use Rattle.std.specs.Prelude.{◌≡◌, ◌↔◌, Some, IsTrue};
ghost use Rattle.ds_base.specs.Decoding.{IsDecoded};
ghost use Rattle.ds_dir.specs.declared.sub_block.SubBlock.{SubBlock};
ghost use Rattle.ds_dir.specs.SubBlock.{sub_bytes, IsSubBlock};

use crate::room::{is_room, put_room, room_named};
use ds_base::{Key, Name, NodeKind, Sector};
use ds_bytes::SectorWriter;

/// An entry of a directory: a name, and the object that it stands for.
#[derive(Clone, Debug, Drop, PartialEq, Eq)]
pub struct Entry {
    pub name: Name,
    pub key: Key,
    pub kind: NodeKind,
}

/// Four rooms, each free or with an entry.
#[derive(Clone, Debug, Drop, PartialEq, Eq)]
pub struct SubBlock {
    pub rooms: [Option<Entry>; 4],
}

impl SubBlock {
    /// Whether each entry has a birth from 1 to 2^62.
    pub fn is_valid(&self) -> bool
        ensures { IsTrue result ↔ IsSubBlock self.now }
    {
        let [first, second, third, fourth] = &self.rooms;
        if !is_room(first) {
            return false;
        }
        if !is_room(second) {
            return false;
        }
        if !is_room(third) {
            return false;
        }
        is_room(fourth)
    }

    pub fn encode(&self) -> Sector
        requires { IsSubBlock self.now }
        ensures { result.bytes ≡ sub_bytes self.now }
    {
        let mut writer = SectorWriter::new();
        let [first, second, third, fourth] = &self.rooms;
        put_room(&mut writer, first);
        put_room(&mut writer, second);
        put_room(&mut writer, third);
        put_room(&mut writer, fourth);
        writer.finish()
    }

    /// The sub-block that a sector spells; `None` where it spells none.
    pub fn decode(sector: &Sector) -> Option<SubBlock>
        ensures { IsDecoded result (λ b. IsSubBlock b × (sector.now.bytes ≡ sub_bytes b)) }
    {
        let block = SubBlock::named(sector)?;
        if !block.is_valid() {
            return None;
        }
        if block.encode() != *sector {
            return None;
        }
        Some(block)
    }

    fn named(sector: &Sector) -> Option<SubBlock>
        ensures { (b : SubBlock) → IsSubBlock b → sector.now.bytes ≡ sub_bytes b → result ≡ Some b }
    {
        let bytes = &sector.bytes;
        let first = room_named(&bytes[..128])?;
        let second = room_named(&bytes[128..256])?;
        let third = room_named(&bytes[256..384])?;
        let fourth = room_named(&bytes[384..512])?;
        let rooms = [first, second, third, fourth];
        Some(SubBlock { rooms })
    }
}
