//! New objects.
ghost use Rattle.std.specs.Prelude.{◌≡◌, ◌<◌, ◌^◌, IfOk, Some};
ghost use Rattle.ds_base.specs.Geometry.{IsGeom, items_of};
ghost use Rattle.ds_base.specs.Names.{IsName};
ghost use Rattle.ds_base.specs.declared.geometry.Kind.TheVariants.{Fd};
ghost use Rattle.ds_image_parts.specs.Parts.{Parts};
ghost use Rattle.ds_image_parts.specs.Readings.{ReadsParts};
ghost use Rattle.ds_image.specs.SeenValues.{IsSeen, look_of};
ghost use Rattle.ds_plan_make.specs.Answers.{object_known, unused_body};
ghost use Rattle.ds_plan_make.specs.Objects.{IsNewObject, CanBegin};
ghost use Rattle.ds_plan_make.specs.Redos.{begun, new_object};

use ds_base::{Geom, Key, Kind, Name, NodeKind, ObjNo, SlotNo};
use ds_dir::Entry;
use ds_fd::Body;
use ds_image::Seen;
use ds_layout::{Place, sector_of};
use ds_plan_base::{FreeItem, Stop, body_seen, copy_of, number_of, wanted_item};

/// A new object: its descriptor as a free item, its body, and its entry.
#[derive(Drop)]
pub struct NewObject {
    pub item: FreeItem,
    pub body: Body,
    pub entry: Entry,
}

/// A new object of this kind and name; otherwise what a planner asks for, or answers, before it knows it.
pub fn object_known(
    geom: &Geom,
    seen: &Seen,
    slot: SlotNo,
    kind: NodeKind,
    name: &Name,
) -> Result<NewObject, Stop>
    requires { IsGeom geom.now }
    ensures answer { (p : Parts) → ReadsParts geom.now (look_of seen.now) p
        → result ≡ object_known geom.now slot seen.now p kind name.now }
    ensures is_new { IfOk result (IsNewObject geom.now) }
    ensures whole { IfOk result (λ _. IsSeen seen.now) }
{
    let item = wanted_item(geom, seen, Kind::Fd, slot)?;
    let before = unused_body(geom, seen, number_of(geom, Kind::Fd, &item))?;
    Ok(new_object(item, &before, kind, name))
}

/// The body of a descriptor that can begin a new life.
fn unused_body(geom: &Geom, seen: &Seen, object: ObjNo) -> Result<Body, Stop>
    requires geom { IsGeom geom.now }
    requires inside { object < items_of geom.now Fd }
    ensures answer { (p : Parts) → ReadsParts geom.now (look_of seen.now) p
        → result ≡ unused_body geom.now seen.now p object }
    ensures can_begin { IfOk result (CanBegin object) }
    ensures whole { IsSeen seen.now }
{
    if !seen.has_lock(object) {
        return Err(Stop::Lock(object));
    }
    let body = body_seen(geom, seen, object)?;
    if body.kind.is_some() {
        return Err(Stop::Odd(sector_of(geom, &Place::Body(object))));
    }
    if body.birth >= 1 << 62 {
        return Err(Stop::Worn(object));
    }
    Ok(body)
}

fn new_object(item: FreeItem, before: &Body, kind: NodeKind, name: &Name) -> NewObject
    requires { before.now.birth < 2 ^ 62 }
    ensures new { result ≡ new_object item before.now kind name.now }
    ensures named { IsName name.now }
{
    let body = begun(before, kind);
    let key = Key {
        object: body.object,
        birth: body.birth,
    };
    let entry = Entry {
        name: copy_of(name),
        key,
        kind,
    };
    NewObject { item, body, entry }
}

/// The body of an unused descriptor as it begins its next life.
fn begun(before: &Body, kind: NodeKind) -> Body
    requires { before.now.birth < 2 ^ 62 }
    ensures { result ≡ begun before.now kind }
{
    Body {
        object: before.object,
        kind: Some(kind),
        links: match kind {
            NodeKind::File => 1,
            NodeKind::Dir => 0,
        },
        birth: before.birth + 1,
        count: 0,
        addresses: [0; 96],
    }
}
