//! The entry that a Rename inside one directory changes.
ghost use Rattle.std.specs.Prelude.{◌≡◌, ◌<◌, IfOk};
ghost use Rattle.ds_base.specs.Geometry.{IsGeom, items_of};
ghost use Rattle.ds_base.specs.declared.geometry.Kind.TheVariants.{Fd, Sb};
ghost use Rattle.ds_image_parts.specs.Parts.{Parts};
ghost use Rattle.ds_image_parts.specs.Readings.{ReadsParts};
ghost use Rattle.ds_image.specs.SeenValues.{look_of};
ghost use Rattle.ds_plan_base.specs.Objects.{IsFoundRoom};
ghost use Rattle.ds_plan_rename.specs.Entries.{entry_kept};

use ds_base::{Geom, Name};
use ds_fd::Body;
use ds_image::Seen;
use ds_plan_base::{Ending, Found, Stop, found_among, named_among, sub_block, subs_of};

/// The entry of a name in a directory where no entry has the new name; otherwise what a planner asks for, or answers, before it
/// knows it. Each sub-block is read once.
pub fn entry_kept(
    geom: &Geom,
    seen: &Seen,
    dir: &Body,
    name: &Name,
    fresh: &Name,
) -> Result<Found, Stop>
    requires geom { IsGeom geom.now }
    requires inside { dir.now.object < items_of geom.now Fd }
    ensures answer { (p : Parts) → ReadsParts geom.now (look_of seen.now) p
        → result ≡ entry_kept geom.now seen.now p dir.now name.now fresh.now }
    ensures is_room { IfOk result IsFoundRoom }
    ensures within { IfOk result (λ found. found.sub < items_of geom.now Sb) }
{
    let mut from = None;
    let mut taken = false;
    for number in subs_of(dir) {
        let block = sub_block(geom, seen, dir, *number)?;
        taken = taken || named_among(&block.rooms, fresh).is_some();
        if from.is_none() {
            from = found_among(*number, block, name);
        }
        if taken && from.is_some() {
            return Err(Stop::Done(Ending::Exists));
        }
    }
    match from {
        Some(found) => Ok(found),
        None => Err(Stop::Done(Ending::NotFound)),
    }
}
