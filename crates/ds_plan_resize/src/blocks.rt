//! The blocks of a file from one page on.
ghost use Rattle.std.specs.Prelude.{◌≡◌, ◌≤◌, ◌<◌, ◌-◌, ◌*◌, [], IfOk, length};
ghost use Rattle.ds_base.specs.Geometry.{IsGeom, items_of};
ghost use Rattle.ds_base.specs.declared.geometry.Kind.TheVariants.{Fd, Pb};
ghost use Rattle.ds_image_parts.specs.Parts.{Parts};
ghost use Rattle.ds_image_parts.specs.Readings.{ReadsParts};
ghost use Rattle.ds_image.specs.SeenValues.{look_of};
ghost use Rattle.ds_plan_resize.specs.Blocks.{AreItems, addresses_seen, blocks_seen, pointers_from, pointers_in};

use arrayvec::ArrayVec;
use ds_base::Geom;
use ds_fd::Body;
use ds_image::{Seen, pointer_blocks};
use ds_plan_base::{Stop, pointer_block};

/// Blocks of a file, in its order.
#[derive(Drop)]
pub struct Blocks {
    pub list: ArrayVec<u32, 1152>,
}

/// The blocks of a file from a page on; otherwise what a planner asks for before it knows them.
pub fn blocks_seen(geom: &Geom, seen: &Seen, body: &Body, first: usize) -> Result<Blocks, Stop>
    requires geom { IsGeom geom.now }
    requires inside { body.now.object < items_of geom.now Fd }
    requires few { length (pointers_from body.now first) ≤ 9 }
    requires most { body.now.count ≤ 12288 }
    requires full { 128 * first ≤ body.now.count }
    ensures answer { (p : Parts) → ReadsParts geom.now (look_of seen.now) p
        → result ≡ blocks_seen geom.now seen.now p body.now first }
    ensures inside { IfOk result (λ _. AreItems geom.now Pb (pointers_from body.now first)) }
    ensures count { IfOk result (λ blocks. length blocks.list.items ≡ body.now.count - 128 * first) }
{
    if body.count <= 96 {
        let mut list = ArrayVec::new();
        let _ = list.try_extend_from_slice(&body.addresses[..body.count as usize]);
        return Ok(Blocks { list });
    }
    let mut blocks = addresses_seen(geom, seen, body, pointers_from(body, first))?;
    blocks.list.truncate(body.count as usize - 128 * first);
    Ok(blocks)
}

/// The addresses in these pointer blocks of a file.
fn addresses_seen(geom: &Geom, seen: &Seen, body: &Body, pointers: &[u32]) -> Result<Blocks, Stop>
    requires geom { IsGeom geom.now }
    requires inside { body.now.object < items_of geom.now Fd }
    requires few { length pointers.now ≤ 9 }
    ensures answer { (p : Parts) → ReadsParts geom.now (look_of seen.now) p
        → result ≡ addresses_seen geom.now seen.now p body.now [] pointers.now }
    ensures inside { IfOk result (λ _. AreItems geom.now Pb pointers.now) }
    ensures count { IfOk result (λ blocks. length blocks.list.items ≡ 128 * length pointers.now) }
{
    let mut list = ArrayVec::new();
    for n in pointers {
        let block = pointer_block(geom, seen, body, *n)?;
        let _ = list.try_extend_from_slice(&block.addresses);
    }
    Ok(Blocks { list })
}

/// The pointer blocks that a file's body lists.
#[tactic(auto, using(std::proofs::lemmas::List::take_min))]
pub fn pointers_in(body: &Body) -> &[u32]
    ensures pointers { result.now ≡ pointers_in body.now }
    ensures few { length result.now ≤ 96 }
{
    &body.addresses[..(pointer_blocks(body.count) as usize).min(96)]
}

/// Those of its pages from one on.
pub fn pointers_from(body: &Body, first: usize) -> &[u32]
    ensures { result.now ≡ pointers_from body.now first }
{
    let pointers = pointers_in(body);
    &pointers[first.min(pointers.len())..]
}
