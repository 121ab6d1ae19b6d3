//! The entry that goes, and the object that it names.
ghost use Rattle.std.specs.Prelude.{◌≡◌, ◌<◌, IfOk};
ghost use Rattle.ds_base.specs.Geometry.{IsGeom, items_of};
ghost use Rattle.ds_base.specs.declared.geometry.Kind.TheVariants.{Fd, Sb};
ghost use Rattle.ds_fd.specs.Body.{IsBody};
ghost use Rattle.ds_image_parts.specs.Parts.{Parts};
ghost use Rattle.ds_image_parts.specs.Readings.{ReadsParts};
ghost use Rattle.ds_image.specs.SeenValues.{look_of};
ghost use Rattle.ds_plan_base.specs.Objects.{IsFoundRoom};
ghost use Rattle.ds_plan_remove.specs.Entries.{body_named, entry_known, is_of};

use ds_base::{Geom, Key, Name, NodeKind};
use ds_fd::Body;
use ds_image::Seen;
use ds_layout::{Place, sector_of};
use ds_plan_base::{Ending, Found, Stop, body_seen, wanted_entry};

/// The entry of a name, whose object is of the kind that is removed; otherwise what a planner asks for, or answers, before it knows it.
pub fn entry_known(
    geom: &Geom,
    seen: &Seen,
    dir: &Body,
    name: &Name,
    kind: NodeKind,
) -> Result<Found, Stop>
    requires geom { IsGeom geom.now }
    requires inside { dir.now.object < items_of geom.now Fd }
    ensures answer { (p : Parts) → ReadsParts geom.now (look_of seen.now) p
        → result ≡ entry_known geom.now seen.now p dir.now name.now kind }
    ensures is_room { IfOk result IsFoundRoom }
    ensures within { IfOk result (λ found. found.sub < items_of geom.now Sb) }
{
    let found = wanted_entry(geom, seen, dir, name)?;
    match (kind, found.kind) {
        (NodeKind::Dir, NodeKind::File) => Err(Stop::Done(Ending::NotDir)),
        (NodeKind::File, NodeKind::Dir) => Err(Stop::Done(Ending::NotFile)),
        _ => Ok(found),
    }
}

/// The body of the object that an entry of sub-block `sub` names.
pub fn body_named(
    geom: &Geom,
    seen: &Seen,
    kind: NodeKind,
    key: &Key,
    sub: u32,
) -> Result<Body, Stop>
    requires geom { IsGeom geom.now }
    requires sub { sub < items_of geom.now Sb }
    ensures answer { (p : Parts) → ReadsParts geom.now (look_of seen.now) p
        → result ≡ body_named geom.now seen.now p kind key.now sub }
    ensures is_body { IfOk result IsBody }
    ensures inside { IfOk result (λ body. body.object < items_of geom.now Fd) }
{
    if key.object >= descriptors(geom) {
        return Err(Stop::Odd(sector_of(geom, &Place::SubBlock(sub))));
    }
    if !seen.has_lock(key.object) {
        return Err(Stop::Lock(key.object));
    }
    let body = body_seen(geom, seen, key.object)?;
    if body.birth != key.birth || !is_of(kind, body.kind) {
        return Err(Stop::Odd(sector_of(geom, &Place::Body(key.object))));
    }
    Ok(body)
}

/// Whether a body is of an object of this kind.
fn is_of(kind: NodeKind, used: Option<NodeKind>) -> bool
    ensures { result ≡ is_of kind used }
{
    match (kind, used) {
        (NodeKind::Dir, Some(NodeKind::Dir)) => true,
        (NodeKind::File, Some(NodeKind::File)) => true,
        _ => false,
    }
}

/// The number of descriptors.
fn descriptors(geom: &Geom) -> u32
    requires { IsGeom geom.now }
    ensures { result ≡ items_of geom.now Fd }
{
    u32::from(geom.clusters[0]) * u32::from(geom.items[0])
}
