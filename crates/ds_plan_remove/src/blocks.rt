//! The blocks of a file.
ghost use Rattle.std.specs.Prelude.{◌≡◌, ◌<◌, ◌≤◌, length};
ghost use Rattle.ds_base.specs.Geometry.{IsGeom, items_of};
ghost use Rattle.ds_base.specs.declared.geometry.Kind.TheVariants.{Fd};
ghost use Rattle.ds_image_parts.specs.Objects.{ptrs_of};
ghost use Rattle.ds_image_parts.specs.Parts.{Parts};
ghost use Rattle.ds_image_parts.specs.Readings.{ReadsParts};
ghost use Rattle.ds_image.specs.SeenValues.{look_of};
ghost use Rattle.ds_plan_remove.specs.Blocks.{blocks_known, pointed_in};

use arrayvec::ArrayVec;
use ds_base::{Geom, NodeKind};
use ds_fd::Body;
use ds_image::{Seen, pointer_blocks};
use ds_plan_base::{Stop, pointer_block};

/// The blocks of a file, each once read; otherwise what a planner asks for before it knows them.
pub fn blocks_known(geom: &Geom, seen: &Seen, file: &Body) -> Result<ArrayVec<u32, 12288>, Stop>
    requires geom { IsGeom geom.now }
    requires inside { file.now.object < items_of geom.now Fd }
    ensures { (p : Parts) → ReadsParts geom.now (look_of seen.now) p → result ≡ blocks_known geom.now seen.now p file.now }
{
    let count = file.count as usize;
    if count <= 96 {
        let mut own = ArrayVec::new();
        let _ = own.try_extend_from_slice(&file.addresses[..count]);
        return Ok(own);
    }
    let mut blocks = pointed_in(geom, seen, file)?;
    blocks.truncate(count);
    Ok(blocks)
}

/// The addresses in a file's pointer blocks.
fn pointed_in(geom: &Geom, seen: &Seen, file: &Body) -> Result<ArrayVec<u32, 12288>, Stop>
    requires geom { IsGeom geom.now }
    requires inside { file.now.object < items_of geom.now Fd }
    ensures { (p : Parts) → ReadsParts geom.now (look_of seen.now) p → result ≡ pointed_in geom.now seen.now p file.now }
{
    let mut found = ArrayVec::new();
    for number in ptrs_of(file) {
        let block = pointer_block(geom, seen, file, *number)?;
        let _ = found.try_extend_from_slice(&block.addresses);
    }
    Ok(found)
}

/// The pointer blocks that a file's body lists; none of anything else.
#[tactic(auto, using(std::proofs::lemmas::List::take_min))]
pub fn ptrs_of(body: &Body) -> &[u32]
    ensures ptrs { result.now ≡ ptrs_of (Some body.now) }
    ensures few { length result.now ≤ 96 }
{
    match body.kind {
        Some(NodeKind::File) => &body.addresses[..(pointer_blocks(body.count) as usize).min(96)],
        _ => &[],
    }
}
