//! Entries of a directory by name.
ghost use Rattle.std.specs.Prelude.{◌≡◌, ◌<◌, ◌≤◌, Some, length, IfOk, IfSome};
ghost use Rattle.ds_base.specs.Geometry.{IsGeom, items_of};
ghost use Rattle.ds_base.specs.declared.geometry.Kind.TheVariants.{Fd, Sb};
ghost use Rattle.ds_dir.specs.SubBlock.{IsSubBlock};
ghost use Rattle.ds_image_parts.specs.Objects.{subs_of};
ghost use Rattle.ds_image_parts.specs.Parts.{Parts};
ghost use Rattle.ds_image_parts.specs.Readings.{ReadsParts};
ghost use Rattle.ds_image.specs.SeenValues.{look_of};
ghost use Rattle.ds_plan_base.specs.Entries.{found_among, found_in, named_among, room_named, wanted_entry};
ghost use Rattle.ds_plan_base.specs.Objects.{IsFoundRoom};

use crate::bodies::sub_block;
use crate::stops::{Ending, Stop};
use ds_base::{Geom, Key, Name, NodeKind};
use ds_dir::{Entry, SubBlock};
use ds_fd::Body;
use ds_image::Seen;

/// An entry of a directory: the number of its sub-block, the sub-block, its room there, the key of its object, and its kind.
#[derive(Drop)]
pub struct Found {
    pub sub: u32,
    pub block: SubBlock,
    pub room: usize,
    pub key: Key,
    pub kind: NodeKind,
}

/// An entry of a sub-block: its room, the key of its object, and its kind.
#[derive(Clone, Copy, Debug, PartialEq, Eq)]
pub struct Named {
    pub room: usize,
    pub key: Key,
    pub kind: NodeKind,
}

/// The first entry of a name in a directory; otherwise what a planner asks for before it knows it. Sub-blocks are read in the
/// directory's order, and none after the first that has the name.
pub fn find(geom: &Geom, seen: &Seen, dir: &Body, name: &Name) -> Result<Option<Found>, Stop>
    requires geom { IsGeom geom.now }
    requires inside { dir.now.object < items_of geom.now Fd }
    ensures answer { (p : Parts) → ReadsParts geom.now (look_of seen.now) p → result ≡ found_in geom.now seen.now p dir.now name.now }
    ensures is_room { IfOk result (λ r. IfSome r IsFoundRoom) }
    ensures within { IfOk result (λ r. IfSome r (λ found. found.sub < items_of geom.now Sb)) }
{
    for number in subs_of(dir) {
        let block = sub_block(geom, seen, dir, *number)?;
        if let Some(found) = found_among(*number, block, name) {
            return Ok(Some(found));
        }
    }
    Ok(None)
}

/// The entry of a name that a call needs: without one the name isn't found.
pub fn wanted_entry(geom: &Geom, seen: &Seen, dir: &Body, name: &Name) -> Result<Found, Stop>
    requires geom { IsGeom geom.now }
    requires inside { dir.now.object < items_of geom.now Fd }
    ensures answer { (p : Parts) → ReadsParts geom.now (look_of seen.now) p
        → result ≡ wanted_entry geom.now seen.now p dir.now name.now }
    ensures is_room { IfOk result IsFoundRoom }
    ensures within { IfOk result (λ found. found.sub < items_of geom.now Sb) }
{
    match find(geom, seen, dir, name)? {
        Some(found) => Ok(found),
        None => Err(Stop::Done(Ending::NotFound)),
    }
}

/// The sub-blocks that a directory's body lists; none of anything else.
#[tactic(auto, using(std::proofs::lemmas::List::take_min))]
pub fn subs_of(body: &Body) -> &[u32]
    ensures subs { result.now ≡ subs_of (Some body.now) }
    ensures few { length result.now ≤ 96 }
{
    match body.kind {
        Some(NodeKind::Dir) => &body.addresses[..(body.count as usize).min(96)],
        _ => &[],
    }
}

/// The first entry of a name in sub-block `sub`.
pub fn found_among(sub: u32, block: SubBlock, name: &Name) -> Option<Found>
    requires { IsSubBlock block }
    ensures answer { result ≡ found_among sub block name.now }
    ensures is_room { IfSome result IsFoundRoom }
    ensures sub { IfSome result (λ found. found.sub ≡ sub) }
{
    let named = named_among(&block.rooms, name)?;
    Some(Found {
        sub,
        block,
        room: named.room,
        key: named.key,
        kind: named.kind,
    })
}

/// The first room of a sub-block that has a name.
pub fn named_among(rooms: &[Option<Entry>], name: &Name) -> Option<Named>
    ensures { result ≡ named_among 0 name.now rooms.now }
{
    for (room, entry) in rooms.iter().enumerate() {
        if let Some(named) = room_named(room, entry, name) {
            return Some(named);
        }
    }
    None
}

fn room_named(room: usize, entry: &Option<Entry>, name: &Name) -> Option<Named>
    ensures { result ≡ room_named room name.now entry.now }
{
    let Some(entry) = entry else {
        return None;
    };
    if *name != entry.name {
        return None;
    }
    Some(Named {
        room,
        key: entry.key,
        kind: entry.kind,
    })
}
