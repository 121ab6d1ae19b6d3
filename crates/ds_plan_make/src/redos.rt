//! What is written to make an object.
ghost use Rattle.std.specs.Prelude.{◌≡◌, ◌<◌};
ghost use Rattle.ds_base.specs.Geometry.{IsGeom, items_of};
ghost use Rattle.ds_base.specs.declared.geometry.Kind.TheVariants.{Fd, Sb};
ghost use Rattle.ds_plan_make.specs.Objects.{IsNewObject};
ghost use Rattle.ds_plan_make.specs.Redos.{pairs_filled, pairs_grown};
ghost use Rattle.ds_plan_base.specs.Items.{IsFreeItem};
ghost use Rattle.ds_plan_base.specs.Objects.{CanGrow, IsFreeRoom};
ghost use Rattle.ds_plan_base.specs.Redos.{redo_of};

use crate::objects::NewObject;
use arrayvec::ArrayVec;
use ds_base::{Geom, Kind};
use ds_fd::Body;
use ds_jrnl::Redo;
use ds_plan_base::{
    FreeItem, FreeRoom, block_alone, block_filled, body_grown, body_pair, map_pair, number_of,
    sub_pair,
};

/// What is written where the directory has a free room.
pub fn redo_filled(geom: &Geom, new: NewObject, free: FreeRoom) -> Redo
    requires geom { IsGeom geom.now }
    requires new { IsNewObject geom.now new }
    requires room { IsFreeRoom free }
    requires sub { free.sub < items_of geom.now Sb }
    ensures { result ≡ redo_of (pairs_filled geom.now new free) }
{
    let NewObject { item, body, entry } = new;
    let mut pairs = ArrayVec::new();
    pairs.push(map_pair(geom, Kind::Fd, item));
    pairs.push(body_pair(geom, &body));
    let number = free.sub;
    pairs.push(sub_pair(geom, number, &block_filled(free, entry)));
    Redo { pairs }
}

/// What is written where the directory gets a sub-block.
pub fn redo_grown(geom: &Geom, dir: &Body, new: NewObject, sub: FreeItem) -> Redo
    requires geom { IsGeom geom.now }
    requires dir { CanGrow dir.now }
    requires inside { dir.now.object < items_of geom.now Fd }
    requires new { IsNewObject geom.now new }
    requires sub { IsFreeItem geom.now Sb sub }
    ensures { result ≡ redo_of (pairs_grown geom.now dir.now new sub) }
{
    let NewObject { item, body, entry } = new;
    let number = number_of(geom, Kind::Sb, &sub);
    let grown = body_grown(dir, number);
    let mut pairs = ArrayVec::new();
    pairs.push(map_pair(geom, Kind::Fd, item));
    pairs.push(map_pair(geom, Kind::Sb, sub));
    if grown.object < body.object {
        pairs.push(body_pair(geom, &grown));
        pairs.push(body_pair(geom, &body));
    } else {
        pairs.push(body_pair(geom, &body));
        pairs.push(body_pair(geom, &grown));
    }
    pairs.push(sub_pair(geom, number, &block_alone(entry)));
    Redo { pairs }
}
