//! Rooms: 128 bytes of a sub-block, for one entry.
ghost use Rattle.std.specs.Prelude.{◌≡◌, ◌+◌, ◌≤◌, ◌↔◌, ◌++◌, Option, Some, length, take, IsTrue};
ghost use Rattle.ds_base.specs.Names.{IsName};
ghost use Rattle.ds_base.specs.declared.names.Name.{Name};
ghost use Rattle.ds_bytes.specs.Fields.{front, spelled, FieldsFit};
ghost use Rattle.ds_dir.specs.declared.sub_block.Entry.{Entry};
ghost use Rattle.ds_dir.specs.SubBlock.{room_bytes, IsEntry, IsRoom};
ghost use Rattle.ds_dir.specs.RoomParts.{part_fields};

use crate::sub_block::Entry;
use ds_base::{Key, Name};
use ds_bytes::{SectorWriter, bytes_at, code_of_kind, kind_of_code, u8_at, u32_at, u64_at};

/// What a room holds if it is used, as it is read.
#[derive(Drop)]
struct RoomParts {
    kind: u8,
    length: u8,
    gap: [u8; 2],
    object: u32,
    birth: u64,
    name: [u8; 112],
}

impl RoomParts {
    #[tactic(auto, using(ds_bytes::proofs::Fronts::front_none))]
    fn read(bytes: &[u8]) -> RoomParts
        requires { length bytes.now ≡ 128 }
        ensures parts { front 128 bytes.now ≡ spelled (part_fields result) }
        ensures fits { FieldsFit (part_fields result) }
    {
        let gap = bytes_at(bytes, 2);
        let name = bytes_at(bytes, 16);
        RoomParts {
            kind: u8_at(bytes, 0),
            length: u8_at(bytes, 1),
            gap,
            object: u32_at(bytes, 4),
            birth: u64_at(bytes, 8),
            name,
        }
    }
}

/// The room that the bytes spell, if they spell one.
pub fn room_named(bytes: &[u8]) -> Option<Option<Entry>>
    requires { length bytes.now ≡ 128 }
    ensures { (room : Option Entry) → IsRoom room → bytes.now ≡ room_bytes room → result ≡ Some room }
{
    let parts = RoomParts::read(bytes);
    let Some(kind) = kind_of_code(parts.kind)? else {
        return Some(None);
    };
    let name = name_named(&parts.name, parts.length)?;
    let key = Key {
        object: parts.object,
        birth: parts.birth,
    };
    Some(Some(Entry { name, key, kind }))
}

fn name_named(bytes: &[u8], count: u8) -> Option<Name>
    ensures { (name : Name) → IsName name → length name ≡ count → take count bytes.now ≡ name → result ≡ Some name }
{
    let count = usize::from(count);
    if count > bytes.len() {
        return None;
    }
    Name::from_bytes(&bytes[..count])
}

pub fn put_room(writer: &mut SectorWriter, room: &Option<Entry>)
    requires fits { length writer.old + 128 ≤ 512 }
    requires room { IsRoom room.now }
    ensures items { writer.new ≡ writer.old ++ room_bytes room.now }
    ensures len { length writer.new ≡ length writer.old + 128 }
{
    match room {
        None => writer.zeros(128),
        Some(entry) => put_entry(writer, entry),
    }
}

fn put_entry(writer: &mut SectorWriter, entry: &Entry)
    requires fits { length writer.old + 128 ≤ 512 }
    requires entry { IsEntry entry.now }
    ensures items { writer.new ≡ writer.old ++ room_bytes (Some entry.now) }
    ensures len { length writer.new ≡ length writer.old + 128 }
{
    let name = entry.name.bytes();
    writer.u8(code_of_kind(Some(entry.kind)));
    writer.u8(name.len() as u8);
    writer.zeros(2);
    writer.u32(entry.key.object);
    writer.u64(entry.key.birth);
    writer.bytes(name);
    writer.zeros(112 - name.len());
}

/// Whether a room is free, or its entry has a birth from 1 to 2^62.
pub fn is_room(room: &Option<Entry>) -> bool
    ensures { IsTrue result ↔ IsRoom room.now }
{
    match room {
        None => true,
        Some(entry) => is_entry(entry),
    }
}

fn is_entry(entry: &Entry) -> bool
    ensures { IsTrue result ↔ IsEntry entry.now }
{
    let _name = entry.name.bytes();
    let _object = entry.key.object;
    if entry.key.birth == 0 {
        return false;
    }
    entry.key.birth <= 1 << 62
}
