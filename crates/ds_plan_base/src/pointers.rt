//! Pointer blocks of files.
ghost use Rattle.std.specs.Prelude.{◌≡◌, ◌<◌, IfOk};
ghost use Rattle.ds_base.specs.Geometry.{IsGeom, items_of};
ghost use Rattle.ds_base.specs.declared.geometry.Kind.TheVariants.{Fd, Pb};
ghost use Rattle.ds_image_parts.specs.Parts.{Parts};
ghost use Rattle.ds_image_parts.specs.Readings.{ReadsParts};
ghost use Rattle.ds_image.specs.SeenValues.{look_of};
ghost use Rattle.ds_plan_base.specs.Pointers.{pointer_seen};
ghost use Rattle.ds_ptr.specs.PtrBlock.{IsPtrBlock};

use crate::stops::Stop;
use ds_base::{Geom, Kind};
use ds_fd::Body;
use ds_image::Seen;
use ds_layout::{Place, sector_of};
use ds_ptr::PtrBlock;

/// A pointer block that a body lists; otherwise what a planner asks for before it knows it.
pub fn pointer_block(geom: &Geom, seen: &Seen, body: &Body, n: u32) -> Result<PtrBlock, Stop>
    requires geom { IsGeom geom.now }
    requires inside { body.now.object < items_of geom.now Fd }
    ensures answer { (p : Parts) → ReadsParts geom.now (look_of seen.now) p
        → result ≡ pointer_seen geom.now seen.now p body.now n }
    ensures inside { IfOk result (λ _. n < items_of geom.now Pb) }
    ensures is_block { IfOk result IsPtrBlock }
{
    if n >= geom.items(Kind::Pb) {
        return Err(Stop::Odd(sector_of(geom, &Place::Body(body.object))));
    }
    let at = sector_of(geom, &Place::PtrBlock(n));
    let Some(sector) = seen.sector(at) else {
        return Err(Stop::Read(at));
    };
    Ok(PtrBlock::decode(sector))
}
