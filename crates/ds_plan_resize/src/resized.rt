//! What is written to give a file another size.
ghost use Rattle.std.specs.Prelude.{◌≡◌, ◌≤◌, ◌^◌, length};
ghost use Rattle.ds_base.specs.Geometry.{IsGeom};
ghost use Rattle.ds_bytes.specs.Fields.{AllBelow};
ghost use Rattle.ds_plan_resize.specs.Redos.{body_sized, redo_of};
ghost use Rattle.ds_plan_resize.specs.Writable.{IsWritable};

use crate::blocks::{Blocks, pointers_from};
use crate::pages::{padded, put_in, put_pages};
use ds_base::Geom;
use ds_fd::Body;
use ds_jrnl::Redo;
use ds_plan_base::body_pair;

/// A file with its new size: its body, the blocks from the first page that changes on, and the bitmaps that change, in the rising
/// order of their sectors.
#[derive(Drop)]
pub struct Resized {
    pub body: Body,
    pub first: usize,
    pub blocks: Blocks,
    pub maps: Redo,
}

/// The bitmaps, and then the body and the pages, in the rising order of their sectors.
pub fn redo_of(geom: &Geom, resized: Resized) -> Redo
    requires geom { IsGeom geom.now }
    requires writable { IsWritable geom.now resized }
    ensures { result ≡ redo_of geom.now resized }
{
    let Resized {
        body,
        first,
        blocks,
        maps,
    } = resized;
    let mut pairs = maps.pairs;
    put_in(&mut pairs, body_pair(geom, &body));
    put_pages(geom, &mut pairs, &blocks.list, pointers_from(&body, first));
    Redo { pairs }
}

/// The body of the same file with this size and these addresses.
pub fn body_sized(body: &Body, size: u32, used: &[u32]) -> Body
    requires { length used.now ≤ 96 }
    ensures sized { result ≡ body_sized body.now size used.now }
    ensures fits { AllBelow (2 ^ 32) result.addresses }
{
    let mut sized = *body;
    sized.count = size;
    sized.addresses = padded(used);
    sized
}
