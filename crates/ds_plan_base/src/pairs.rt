//! Sectors that calls write.
ghost use Rattle.std.specs.Prelude.{◌≡◌, ◌<◌, slice_get, Some, None};
ghost use Rattle.ds_base.specs.Geometry.{IsGeom, items_of};
ghost use Rattle.ds_base.specs.declared.geometry.Kind.TheVariants.{Fd, Sb};
ghost use Rattle.ds_dir.specs.SubBlock.{IsEntry, IsSubBlock};
ghost use Rattle.ds_fd.specs.Body.{IsBody};
ghost use Rattle.ds_plan_base.specs.Items.{IsFreeItem};
ghost use Rattle.ds_plan_base.specs.Objects.{CanGrow, IsFoundRoom, IsFreeRoom};
ghost use Rattle.ds_plan_base.specs.Redos.{block_alone, block_emptied, block_filled, body_grown, body_pair, map_pair, sub_pair};

use crate::entries::Found;
use crate::items::FreeItem;
use crate::rooms::FreeRoom;
use ds_base::{Geom, Kind, Sector, SectorNo};
use ds_dir::{Entry, SubBlock};
use ds_fd::Body;
use ds_layout::{Place, sector_of};

/// The bitmap of a free item, with the item used.
pub fn map_pair(geom: &Geom, kind: Kind, free: FreeItem) -> (SectorNo, Sector)
    requires geom { IsGeom geom.now }
    requires is_free { IsFreeItem geom.now kind free }
    ensures { result ≡ map_pair geom.now kind free }
{
    let FreeItem { cluster, item, map } = free;
    let mut map = map;
    map.take(item);
    (
        sector_of(geom, &Place::Bitmap { kind, cluster }),
        map.encode(),
    )
}

/// A body, at its place.
pub fn body_pair(geom: &Geom, body: &Body) -> (SectorNo, Sector)
    requires geom { IsGeom geom.now }
    requires inside { body.now.object < items_of geom.now Fd }
    requires is_body { IsBody body.now }
    ensures { result ≡ body_pair geom.now body.now }
{
    (sector_of(geom, &Place::Body(body.object)), body.encode())
}

/// A sub-block, at its place.
pub fn sub_pair(geom: &Geom, number: u32, block: &SubBlock) -> (SectorNo, Sector)
    requires geom { IsGeom geom.now }
    requires inside { number < items_of geom.now Sb }
    requires is_sub { IsSubBlock block.now }
    ensures { result ≡ sub_pair geom.now number block.now }
{
    (sector_of(geom, &Place::SubBlock(number)), block.encode())
}

/// A directory's body with one sub-block more.
pub fn body_grown(dir: &Body, number: u32) -> Body
    requires { CanGrow dir.now }
    ensures grown { result ≡ body_grown dir.now number }
    ensures is_body { IsBody result }
{
    let mut grown = *dir;
    grown.addresses[dir.count as usize] = number;
    grown.count += 1;
    grown
}

/// A sub-block with an entry in its free room.
pub fn block_filled(free: FreeRoom, entry: Entry) -> SubBlock
    requires room { IsFreeRoom free }
    requires entry { IsEntry entry }
    ensures filled { result ≡ block_filled free entry }
    ensures is_sub { IsSubBlock result }
{
    let mut rooms = free.block.rooms;
    rooms[free.room] = Some(entry);
    SubBlock { rooms }
}

/// A sub-block with an entry alone.
pub fn block_alone(entry: Entry) -> SubBlock
    requires { IsEntry entry }
    ensures alone { result ≡ block_alone entry }
    ensures is_sub { IsSubBlock result }
{
    let rooms = [Some(entry), None, None, None];
    SubBlock { rooms }
}

/// The sub-block of an entry, without the entry.
pub fn block_emptied(found: Found) -> SubBlock
    requires { IsFoundRoom found }
    ensures emptied { result ≡ block_emptied found }
    ensures is_sub { IsSubBlock result }
{
    let mut rooms = found.block.rooms;
    rooms[found.room] = None;
    SubBlock { rooms }
}
