//! The blocks of a file.
ghost use Rattle.std.specs.Prelude.{◌≡◌, ◌≤◌, ◌<◌, length};
ghost use Rattle.ds_base.specs.Geometry.{IsGeom, items_of};
ghost use Rattle.ds_base.specs.declared.geometry.Kind.TheVariants.{Fd, Fb};
ghost use Rattle.ds_image_parts.specs.Parts.{Parts};
ghost use Rattle.ds_image_parts.specs.Readings.{ReadsParts};
ghost use Rattle.ds_image.specs.SeenValues.{look_of};
ghost use Rattle.ds_plan_reads.specs.Blocks.{block_in, block_known, blocks_reply, page_known};

use arrayvec::ArrayVec;
use ds_base::{Geom, SectorNo};
use ds_fd::Body;
use ds_image::Seen;
use ds_layout::{Place, sector_of};
use ds_plan_base::{Stop, pointer_block};
use ds_tree::TreeReply;

/// A page of 128 of a file's blocks, which is empty past the last; otherwise what is asked for before it is known.
#[tactic(auto, using(std::proofs::lemmas::List::take_min))]
pub(crate) fn page_of(geom: &Geom, seen: &Seen, file: &Body, page: u32) -> Result<TreeReply, Stop>
    requires geom { IsGeom geom.now }
    requires inside { file.now.object < items_of geom.now Fd }
    requires most { file.now.count ≤ 12288 }
    ensures { (p : Parts) → ReadsParts geom.now (look_of seen.now) p
        → result ≡ page_known geom.now seen.now p file.now page }
{
    let count = file.count as usize;
    let before = 128 * page as usize;
    if count <= before {
        return Ok(blocks_reply(&[]));
    }
    if count <= 96 {
        return Ok(blocks_reply(&file.addresses[..count]));
    }
    let block = pointer_block(geom, seen, file, file.addresses[page as usize])?;
    Ok(blocks_reply(&block.addresses[..(count - before).min(128)]))
}

/// A reply with these blocks.
fn blocks_reply(blocks: &[u32]) -> TreeReply
    requires { length blocks.now ≤ 128 }
    ensures { result ≡ blocks_reply blocks.now }
{
    let mut list = ArrayVec::new();
    let _ = list.try_extend_from_slice(blocks);
    TreeReply::Blocks { list }
}

/// The block of a file with an index; otherwise what is asked for, or answered, before it is known.
pub(crate) fn block_at(geom: &Geom, seen: &Seen, file: &Body, index: u32) -> Result<TreeReply, Stop>
    requires geom { IsGeom geom.now }
    requires inside { file.now.object < items_of geom.now Fd }
    requires most { file.now.count ≤ 12288 }
    ensures { (p : Parts) → ReadsParts geom.now (look_of seen.now) p
        → result ≡ block_known geom.now seen.now p file.now index }
{
    if index >= file.count {
        return Ok(TreeReply::NoBlock);
    }
    if file.count <= 96 {
        let at = sector_of(geom, &Place::Body(file.object));
        return block_in(geom, at, file.addresses[index as usize]);
    }
    let pointer = file.addresses[index as usize / 128];
    let block = pointer_block(geom, seen, file, pointer)?;
    let at = sector_of(geom, &Place::PtrBlock(pointer));
    block_in(geom, at, block.addresses[index as usize % 128])
}

/// A block that stands in a sector: one past the last of the volume is odd.
fn block_in(geom: &Geom, at: SectorNo, block: u32) -> Result<TreeReply, Stop>
    requires { IsGeom geom.now }
    ensures { result ≡ block_in geom.now at block }
{
    if block >= all_blocks(geom) {
        return Err(Stop::Odd(at));
    }
    Ok(TreeReply::AtBlock { block })
}

/// The file blocks of the volume.
fn all_blocks(geom: &Geom) -> u32
    requires { IsGeom geom.now }
    ensures { result ≡ items_of geom.now Fb }
{
    u32::from(geom.clusters[3]) * u32::from(geom.items[3])
}
