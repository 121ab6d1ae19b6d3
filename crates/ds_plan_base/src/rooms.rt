//! Rooms of a directory.
ghost use Rattle.std.specs.Prelude.{◌≡◌, ◌<◌, ◌≤◌};
ghost use Rattle.ds_base.specs.Geometry.{IsGeom, items_of};
ghost use Rattle.ds_base.specs.declared.geometry.Kind.TheVariants.{Fd};
ghost use Rattle.ds_image_parts.specs.Parts.{Parts};
ghost use Rattle.ds_image_parts.specs.Readings.{ReadsParts};
ghost use Rattle.ds_image.specs.SeenValues.{look_of};
ghost use Rattle.ds_plan_base.specs.Rooms.{first_room, free_in, room_for, used_count};

use crate::bodies::sub_block;
use crate::entries::{named_among, subs_of};
use crate::stops::{Ending, Stop};
use ds_base::{Geom, Name};
use ds_dir::{Entry, SubBlock};
use ds_fd::Body;
use ds_image::Seen;

/// A free room of a directory: the number of its sub-block, the sub-block, and the room's place there.
#[derive(Drop)]
pub struct FreeRoom {
    pub sub: u32,
    pub block: SubBlock,
    pub room: usize,
}

/// The first free room of a directory that may get an entry of a name, none where all its rooms are used; otherwise what a planner
/// asks for, or answers, before it knows that the directory may. Each sub-block is read once.
pub fn room_for(geom: &Geom, seen: &Seen, dir: &Body, name: &Name) -> Result<Option<FreeRoom>, Stop>
    requires geom { IsGeom geom.now }
    requires inside { dir.now.object < items_of geom.now Fd }
    ensures { (p : Parts) → ReadsParts geom.now (look_of seen.now) p → result ≡ room_for geom.now seen.now p dir.now name.now }
{
    let mut count = 0;
    let mut free = None;
    for number in subs_of(dir) {
        let block = sub_block(geom, seen, dir, *number)?;
        if named_among(&block.rooms, name).is_some() {
            return Err(Stop::Done(Ending::Exists));
        }
        count += used_count(&block.rooms);
        if free.is_none() {
            free = free_in(*number, block);
        }
    }
    if count >= 384 {
        return Err(Stop::Done(Ending::DirFull));
    }
    Ok(free)
}

fn used_count(rooms: &[Option<Entry>; 4]) -> u32
    ensures count { result ≡ used_count rooms.now }
    ensures most { result ≤ 4 }
{
    let mut count = 0;
    for room in rooms {
        if room.is_some() {
            count += 1;
        }
    }
    count
}

/// The first free room of a sub-block.
fn free_in(sub: u32, block: SubBlock) -> Option<FreeRoom>
    ensures { result ≡ free_in sub block }
{
    let room = first_room(&block.rooms)?;
    Some(FreeRoom { sub, block, room })
}

fn first_room(rooms: &[Option<Entry>]) -> Option<usize>
    ensures { result ≡ first_room 0 rooms.now }
{
    for room in 0..rooms.len() {
        if rooms[room].is_none() {
            return Some(room);
        }
    }
    None
}
