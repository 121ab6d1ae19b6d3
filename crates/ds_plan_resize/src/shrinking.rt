//! Files that shrink.
ghost use Rattle.std.specs.Prelude.{◌≡◌, ◌≤◌, ◌%◌, ◌^◌, IfOk, length};
ghost use Rattle.ds_base.specs.Geometry.{IsGeom};
ghost use Rattle.ds_bytes.specs.Fields.{AllBelow};
ghost use Rattle.ds_image_parts.specs.Parts.{Parts};
ghost use Rattle.ds_image_parts.specs.Readings.{ReadsParts};
ghost use Rattle.ds_image.specs.SeenValues.{look_of};
ghost use Rattle.ds_plan_resize.specs.Blocks.{pointers_in};
ghost use Rattle.ds_plan_resize.specs.Files.{CanResize};
ghost use Rattle.ds_plan_resize.specs.Shrinking.{shrink_known, shrunk};
ghost use Rattle.ds_plan_resize.specs.Writable.{IsWritable};
ghost use Rattle.ds_tree.specs.Counts.{pointer_blocks};

use crate::blocks::{Blocks, blocks_seen, pointers_from, pointers_in};
use crate::resized::{Resized, body_sized};
use arrayvec::ArrayVec;
use ds_base::{Geom, Kind};
use ds_fd::Body;
use ds_image::{Seen, pointer_blocks};
use ds_jrnl::Redo;
use ds_layout::{Place, sector_of};
use ds_plan_base::{Stop, give_up};

/// A file that shrinks, with its new size; otherwise what a planner asks for before it knows that.
pub fn shrink_known(geom: &Geom, seen: &Seen, body: &Body, size: u32) -> Result<Resized, Stop>
    requires geom { IsGeom geom.now }
    requires can { CanResize geom.now size body.now }
    requires shrinks { size ≤ body.now.count }
    ensures answer { (p : Parts) → ReadsParts geom.now (look_of seen.now) p
        → result ≡ shrink_known geom.now seen.now p body.now size }
    ensures writable { IfOk result (IsWritable geom.now) }
{
    let old = blocks_seen(geom, seen, body, size as usize / 128)?;
    let listed = sector_of(geom, &Place::Body(body.object));
    let nothing = Redo {
        pairs: ArrayVec::new(),
    };
    let pointers = pointers_from(body, pointer_blocks(size) as usize);
    let pointer_maps = give_up(geom, seen, Kind::Pb, pointers, listed, nothing)?;
    let given = &old.list.as_slice()[size as usize % 128..];
    let maps = give_up(geom, seen, Kind::Fb, given, listed, pointer_maps)?;
    Ok(shrunk(body, size, old, maps))
}

/// The file with the first of its blocks.
fn shrunk(body: &Body, size: u32, old: Blocks, maps: Redo) -> Resized
    requires few { size ≤ 12288 }
    requires blocks { size % 128 ≤ length old.list.items }
    requires pointers { pointer_blocks size ≤ length (pointers_in body.now) }
    ensures shrunk { result ≡ shrunk body.now size old maps }
    ensures fits { AllBelow (2 ^ 32) result.body.addresses }
{
    let mut blocks = old;
    blocks.list.truncate(size as usize % 128);
    let sized = if size <= 96 {
        body_sized(body, size, &blocks.list)
    } else {
        body_sized(
            body,
            size,
            &pointers_in(body)[..pointer_blocks(size) as usize],
        )
    };
    Resized {
        body: sized,
        first: size as usize / 128,
        blocks,
        maps,
    }
}
