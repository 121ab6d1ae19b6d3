//! Bodies and sub-blocks as a planner sees them.
ghost use Rattle.std.specs.Prelude.{◌≡◌, ◌<◌, IfOk};
ghost use Rattle.ds_base.specs.Geometry.{IsGeom, items_of};
ghost use Rattle.ds_base.specs.declared.geometry.Kind.TheVariants.{Fd, Sb};
ghost use Rattle.ds_dir.specs.SubBlock.{IsSubBlock};
ghost use Rattle.ds_fd.specs.Body.{IsBody};
ghost use Rattle.ds_image_parts.specs.Parts.{Parts, part_at};
ghost use Rattle.ds_image_parts.specs.Readings.{ReadsParts};
ghost use Rattle.ds_image.specs.SeenValues.{IsSeen, look_of};
ghost use Rattle.ds_plan_base.specs.Bodies.{body_of_key, dir_of_key, body_seen, body_of_dir, sub_seen, body_alive};

use crate::stops::{Ending, Stop};
use ds_base::{Geom, Key, Kind, NodeKind, ObjNo};
use ds_dir::SubBlock;
use ds_fd::Body;
use ds_image::Seen;
use ds_layout::{Place, sector_of};

/// The body of a key's object; otherwise what a planner asks for, or answers, before it knows it.
pub fn body_of_key(geom: &Geom, seen: &Seen, key: &Key) -> Result<Body, Stop>
    requires { IsGeom geom.now }
    ensures answer { (p : Parts) → ReadsParts geom.now (look_of seen.now) p → result ≡ body_of_key geom.now seen.now p key.now }
    ensures inside { IfOk result (λ body. body.object < items_of geom.now Fd) }
    ensures is_body { IfOk result IsBody }
    ensures whole { IfOk result (λ _. IsSeen seen.now) }
{
    if key.object >= geom.items(Kind::Fd) {
        return Err(Stop::Done(Ending::NoObject));
    }
    if !seen.has_lock(key.object) {
        return Err(Stop::Lock(key.object));
    }
    let body = body_seen(geom, seen, key.object)?;
    if body.birth != key.birth || body.kind.is_none() {
        return Err(Stop::Done(Ending::NoObject));
    }
    Ok(body)
}

/// The body of a key's directory; otherwise what a planner asks for, or answers, before it knows it.
pub fn dir_of_key(geom: &Geom, seen: &Seen, key: &Key) -> Result<Body, Stop>
    requires { IsGeom geom.now }
    ensures answer { (p : Parts) → ReadsParts geom.now (look_of seen.now) p → result ≡ dir_of_key geom.now seen.now p key.now }
    ensures inside { IfOk result (λ body. body.object < items_of geom.now Fd) }
    ensures is_body { IfOk result IsBody }
    ensures is_dir { IfOk result (λ body. body.kind ≡ Some NodeKind.Dir) }
    ensures whole { IfOk result (λ _. IsSeen seen.now) }
{
    let body = body_of_key(geom, seen, key)?;
    match body.kind {
        Some(NodeKind::Dir) => Ok(body),
        _ => Err(Stop::Done(Ending::NotDir)),
    }
}

/// What the sector of a descriptor's body spells.
#[tactic(auto, using(crate::proofs::Alike::body_decoded))]
pub fn body_seen(geom: &Geom, seen: &Seen, object: ObjNo) -> Result<Body, Stop>
    requires geom { IsGeom geom.now }
    requires inside { object < items_of geom.now Fd }
    ensures answer { (p : Parts) → ReadsParts geom.now (look_of seen.now) p → result ≡ body_seen geom.now seen.now p object }
    ensures is_body { IfOk result IsBody }
    ensures object { IfOk result (λ body. body.object ≡ object) }
{
    let at = sector_of(geom, &Place::Body(object));
    let Some(sector) = seen.sector(at) else {
        return Err(Stop::Read(at));
    };
    match Body::decode(object, sector) {
        Some(body) => Ok(body),
        None => Err(Stop::Odd(at)),
    }
}

/// A sub-block that a body lists; otherwise what a planner asks for before it knows it.
#[tactic(auto, using(crate::proofs::Alike::sub_decoded))]
pub fn sub_block(geom: &Geom, seen: &Seen, body: &Body, n: u32) -> Result<SubBlock, Stop>
    requires geom { IsGeom geom.now }
    requires inside { body.now.object < items_of geom.now Fd }
    ensures answer { (p : Parts) → ReadsParts geom.now (look_of seen.now) p → result ≡ sub_seen geom.now seen.now p body.now n }
    ensures is_sub { IfOk result IsSubBlock }
    ensures within { IfOk result (λ _. n < items_of geom.now Sb) }
{
    if n >= geom.items(Kind::Sb) {
        return Err(Stop::Odd(sector_of(geom, &Place::Body(body.object))));
    }
    let at = sector_of(geom, &Place::SubBlock(n));
    let Some(sector) = seen.sector(at) else {
        return Err(Stop::Read(at));
    };
    match SubBlock::decode(sector) {
        Some(block) => Ok(block),
        None => Err(Stop::Odd(at)),
    }
}
