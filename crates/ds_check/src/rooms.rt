//! The rooms of directories.
ghost use Rattle.std.specs.Prelude.{◌≡◌, ◌≤◌, ◌++◌, length, IfOk, OnOk};
ghost use Rattle.ds_image_parts.specs.Objects.{subs_of, rooms_in, rooms_of};
ghost use Rattle.ds_image_parts.specs.Parts.{part_at};
ghost use Rattle.ds_check.specs.Entries.{rooms_at};

use crate::listed::body_at;
use ds_base::{NoMemory, ObjNo, Sector};
use ds_dir::{Entry, SubBlock};
use ds_image::{PartsInMemory, subs_of};
use std::alloc::Global;

/// The rooms of an object, where it is a directory; at most 384.
pub(crate) fn rooms_at(
    alloc: Global,
    parts: &PartsInMemory<&[Sector]>,
    object: ObjNo,
) -> Result<Vec<Option<Entry>>, NoMemory>
    ensures exact { IfOk result (λ rooms. rooms.items ≡ rooms_at parts.now object) }
    ensures few { IfOk result (λ rooms. length rooms.items ≤ 384) }
{
    rooms_of(alloc, parts, subs_at(parts, object))
}

/// The sub-blocks that an object lists.
pub(crate) fn subs_at<'a>(parts: &'a PartsInMemory<&[Sector]>, object: ObjNo) -> &'a [u32]
    ensures exact { result.now ≡ subs_of (part_at parts.now.bodies object) }
    ensures few { length result.now ≤ 96 }
{
    subs_of(body_at(parts, object))
}

/// The rooms of sub-blocks, one sub-block after another.
fn rooms_of(
    alloc: Global,
    parts: &PartsInMemory<&[Sector]>,
    subs: &[u32],
) -> Result<Vec<Option<Entry>>, NoMemory>
    requires { length subs.now ≤ 96 }
    ensures exact { IfOk result (λ rooms. rooms.items ≡ rooms_of parts.now subs.now) }
    ensures few { IfOk result (λ rooms. length rooms.items ≤ 384) }
{
    let mut rooms = Vec::new(alloc);
    for number in subs {
        let block = parts.sub(*number);
        push_rooms(&mut rooms, rooms_in(&block))?;
    }
    Ok(rooms)
}

fn rooms_in(block: &Option<SubBlock>) -> &[Option<Entry>]
    ensures exact { result.now ≡ rooms_in block.now }
    ensures few { length result.now ≤ 4 }
{
    match block {
        Some(block) => &block.rooms,
        None => &[],
    }
}

/// Puts a copy of each room behind others.
fn push_rooms(rooms: &mut Vec<Option<Entry>>, more: &[Option<Entry>]) -> Result<(), NoMemory>
    ensures { OnOk result (rooms.new.items ≡ rooms.old.items ++ more.now) }
{
    for room in more {
        rooms.push(copy_of(room)?).map_err(|_| NoMemory)?;
    }
    Ok(())
}

fn copy_of(room: &Option<Entry>) -> Result<Option<Entry>, NoMemory>
    ensures { IfOk result (λ copy. copy ≡ room.now) }
{
    match room {
        None => Ok(None),
        Some(entry) => {
            let copy = entry.clone().map_err(|_| NoMemory)?;
            Ok(Some(copy))
        }
    }
}
