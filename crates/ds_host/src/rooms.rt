//! The rooms of a sub-block.
ghost use Rattle.std.specs.Prelude.{◌≡◌, ◌≤◌, ◌<◌, length, true, Some, slice_set, option_copied};
ghost use Rattle.ds_dir.specs.declared.sub_block.Entry.{Entry};
ghost use Rattle.ds_host.specs.Rooms.{entry_named, entries_in, with_entry, has_free_room, next_key, file_entry};

use ds_base::{Key, Name, NodeKind};
use ds_dir::{Entry, SubBlock};

/// The first entry with a name.
pub fn entry_named<'a>(rooms: &'a [Option<Entry>], name: &Name) -> Option<&'a Entry>
    ensures { option_copied result ≡ entry_named name.now rooms.now }
{
    for room in rooms {
        if let Some(entry) = room {
            if entry.name == *name {
                return Some(entry);
            }
        }
    }
    None
}

/// The key of the next object.
pub fn next_key(rooms: &[Option<Entry>]) -> Key
    requires { length rooms.now ≤ 4 }
    ensures key { result ≡ next_key rooms.now }
    ensures small { result.object ≤ 5 }
{
    let mut object = 1;
    for room in rooms {
        if room.is_some() {
            object += 1;
        }
    }
    Key { object, birth: 1 }
}

/// Puts a file's entry into the first free room.
pub fn put_file(block: &mut SubBlock, name: Name, key: Key)
    requires four { length block.old.rooms ≡ 4 }
    requires room { has_free_room block.old.rooms ≡ true }
    ensures { block.new.rooms ≡ with_entry (file_entry name key) block.old.rooms }
{
    let at = first_free(&block.rooms);
    block.rooms[at] = Some(Entry {
        name,
        key,
        kind: NodeKind::File,
    });
}

fn first_free(rooms: &[Option<Entry>; 4]) -> usize
    requires { has_free_room rooms.now ≡ true }
    ensures within { result < 4 }
    ensures first { (e : Entry) → slice_set rooms.now result (Some e) ≡ with_entry e rooms.now }
{
    let [first, second, third, _fourth] = rooms;
    if first.is_none() {
        return 0;
    }
    if second.is_none() {
        return 1;
    }
    if third.is_none() { 2 } else { 3 }
}
