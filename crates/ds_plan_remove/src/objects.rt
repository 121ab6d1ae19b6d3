//! What an object gives up that goes.
ghost use Rattle.std.specs.Prelude.{◌≡◌, ◌<◌, ◌≤◌, IfOk, Some, length};
ghost use Rattle.ds_base.specs.Geometry.{IsGeom, items_of};
ghost use Rattle.ds_base.specs.declared.geometry.Kind.TheVariants.{Fd};
ghost use Rattle.ds_fd.specs.Body.{IsBody};
ghost use Rattle.ds_image_parts.specs.Objects.{subs_of};
ghost use Rattle.ds_image_parts.specs.Parts.{Parts};
ghost use Rattle.ds_image_parts.specs.Readings.{ReadsParts};
ghost use Rattle.ds_image.specs.SeenValues.{look_of};
ghost use Rattle.ds_plan_remove.specs.Answers.{dir_given, empty_from, ended, file_given, has_entry, nothing, object_given};

use crate::blocks::{blocks_known, ptrs_of};
use arrayvec::ArrayVec;
use ds_base::{Geom, Kind, NodeKind};
use ds_dir::Entry;
use ds_fd::Body;
use ds_image::Seen;
use ds_jrnl::Redo;
use ds_layout::{Place, sector_of};
use ds_plan_base::{Ending, Stop, give_up, sub_block, subs_of};

/// The bitmaps without all items of an object, to be written; otherwise what a planner asks for, or answers, before it knows them.
pub fn object_given(geom: &Geom, seen: &Seen, kind: NodeKind, body: &Body) -> Result<Redo, Stop>
    requires geom { IsGeom geom.now }
    requires inside { body.now.object < items_of geom.now Fd }
    ensures answer { (p : Parts) → ReadsParts geom.now (look_of seen.now) p
        → result ≡ object_given geom.now seen.now p kind body.now }
    ensures few { IfOk result (λ redo. length redo.pairs.items ≤ 24) }
{
    match kind {
        NodeKind::Dir => dir_given(geom, seen, body),
        NodeKind::File => file_given(geom, seen, body),
    }
}

fn dir_given(geom: &Geom, seen: &Seen, dir: &Body) -> Result<Redo, Stop>
    requires geom { IsGeom geom.now }
    requires inside { dir.now.object < items_of geom.now Fd }
    ensures answer { (p : Parts) → ReadsParts geom.now (look_of seen.now) p → result ≡ dir_given geom.now seen.now p dir.now }
    ensures few { IfOk result (λ redo. length redo.pairs.items ≤ 24) }
{
    empty_known(geom, seen, dir)?;
    let at = sector_of(geom, &Place::Body(dir.object));
    let redo = give_up(geom, seen, Kind::Fd, &[dir.object], at, nothing())?;
    give_up(geom, seen, Kind::Sb, subs_of(dir), at, redo)
}

fn file_given(geom: &Geom, seen: &Seen, file: &Body) -> Result<Redo, Stop>
    requires geom { IsGeom geom.now }
    requires inside { file.now.object < items_of geom.now Fd }
    ensures answer { (p : Parts) → ReadsParts geom.now (look_of seen.now) p → result ≡ file_given geom.now seen.now p file.now }
    ensures few { IfOk result (λ redo. length redo.pairs.items ≤ 24) }
{
    let blocks = blocks_known(geom, seen, file)?;
    let at = sector_of(geom, &Place::Body(file.object));
    let redo = give_up(geom, seen, Kind::Fd, &[file.object], at, nothing())?;
    let more = give_up(geom, seen, Kind::Pb, ptrs_of(file), at, redo)?;
    give_up(geom, seen, Kind::Fb, &blocks, at, more)
}

/// A directory of which no sub-block has an entry.
fn empty_known(geom: &Geom, seen: &Seen, dir: &Body) -> Result<Body, Stop>
    requires geom { IsGeom geom.now }
    requires inside { dir.now.object < items_of geom.now Fd }
    ensures { (p : Parts) → ReadsParts geom.now (look_of seen.now) p
        → result ≡ empty_from geom.now seen.now p dir.now (subs_of (Some dir.now)) }
{
    for number in subs_of(dir) {
        let block = sub_block(geom, seen, dir, *number)?;
        if has_entry(&block.rooms) {
            return Err(Stop::Done(Ending::NotEmpty));
        }
    }
    Ok(*dir)
}

fn has_entry(rooms: &[Option<Entry>; 4]) -> bool
    ensures { result ≡ has_entry rooms.now }
{
    for room in rooms {
        if room.is_some() {
            return true;
        }
    }
    false
}

fn nothing() -> Redo
    ensures { result ≡ nothing }
{
    let pairs = ArrayVec::new();
    Redo { pairs }
}

/// The body of an object's descriptor that is no longer in use.
pub fn ended(body: &Body) -> Body
    requires { IsBody body.now }
    ensures ended { result ≡ ended body.now }
    ensures is_body { IsBody result }
{
    Body {
        object: body.object,
        kind: None,
        links: 0,
        birth: body.birth,
        count: 0,
        addresses: [0; 96],
    }
}
