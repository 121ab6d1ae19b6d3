//! Files that grow.
ghost use Rattle.std.specs.Prelude.{◌≡◌, ◌≤◌, ◌+◌, ◌^◌, ◌++◌, IfOk, length};
ghost use Rattle.ds_base.specs.Geometry.{IsGeom};
ghost use Rattle.ds_bytes.specs.Fields.{AllBelow};
ghost use Rattle.ds_image_parts.specs.Parts.{Parts};
ghost use Rattle.ds_image_parts.specs.Readings.{ReadsParts};
ghost use Rattle.ds_image.specs.SeenValues.{look_of};
ghost use Rattle.ds_plan_resize.specs.Blocks.{pointers_in};
ghost use Rattle.ds_plan_resize.specs.Files.{CanResize};
ghost use Rattle.ds_plan_resize.specs.Growing.{growth_known, grown};
ghost use Rattle.ds_plan_resize.specs.Writable.{IsWritable};

use crate::blocks::{Blocks, blocks_seen, pointers_in};
use crate::pages::put_all;
use crate::resized::{Resized, body_sized};
use crate::taking::{Taken, items_wanted};
use arrayvec::ArrayVec;
use ds_base::{Geom, Kind, SlotNo};
use ds_fd::Body;
use ds_image::{Seen, pointer_blocks};
use ds_jrnl::Redo;
use ds_plan_base::Stop;

/// A file that grows, with its new size; otherwise what a planner asks for, or answers, before it knows that.
pub fn growth_known(
    geom: &Geom,
    seen: &Seen,
    slot: SlotNo,
    body: &Body,
    size: u32,
) -> Result<Resized, Stop>
    requires geom { IsGeom geom.now }
    requires can { CanResize geom.now size body.now }
    requires grows { body.now.count ≤ size }
    ensures answer { (p : Parts) → ReadsParts geom.now (look_of seen.now) p
        → result ≡ growth_known geom.now slot seen.now p body.now size }
    ensures writable { IfOk result (IsWritable geom.now) }
{
    let first = body.count as usize / 128;
    let old = blocks_seen(geom, seen, body, first)?;
    let added = items_wanted(geom, seen, Kind::Fb, slot, (size - body.count) as usize)?;
    let more = pointer_blocks(size) - pointer_blocks(body.count);
    let fresh = items_wanted(geom, seen, Kind::Pb, slot, more as usize)?;
    Ok(grown(body, size, old, added, fresh))
}

/// The file with its last blocks, and behind them the new ones.
fn grown(body: &Body, size: u32, old: Blocks, added: Taken, fresh: Taken) -> Resized
    requires grows { body.now.count ≤ size }
    requires blocks { length old.list.items + length added.numbers.items ≤ 1152 }
    requires few { size ≤ 96 → length old.list.items + length added.numbers.items ≤ 96 }
    requires pointers { length (pointers_in body.now) + length fresh.numbers.items ≤ 96 }
    requires pointer_maps { length fresh.maps.items ≤ 8 }
    requires block_maps { length added.maps.items ≤ 8 }
    ensures grown { result ≡ grown body.now size old added fresh }
    ensures fits { AllBelow (2 ^ 32) result.body.addresses }
{
    let mut pairs = ArrayVec::new();
    put_all(&mut pairs, &fresh.maps);
    put_all(&mut pairs, &added.maps);
    let mut blocks = old;
    let _ = blocks.list.try_extend_from_slice(&added.numbers);
    let sized = if size <= 96 {
        body_sized(body, size, &blocks.list)
    } else {
        let pointers = joined(pointers_in(body), &fresh.numbers);
        body_sized(body, size, &pointers)
    };
    Resized {
        body: sized,
        first: body.count as usize / 128,
        blocks,
        maps: Redo { pairs },
    }
}

/// One list behind the other.
fn joined(front: &[u32], back: &[u32]) -> ArrayVec<u32, 96>
    requires { length front.now + length back.now ≤ 96 }
    ensures { result.items ≡ front.now ++ back.now }
{
    let mut list = ArrayVec::new();
    let _ = list.try_extend_from_slice(front);
    let _ = list.try_extend_from_slice(back);
    list
}
